// The library that a receiving head links: the collector's calls on numbers and slices. All memory
// is the caller's, the state and the counts too, as words (crate `layout`). Words that are no sound
// state are answered with STATE, whatever they hold. What each call returns and leaves is one
// definition (specs/Exports.antt) over the collector's own.
#![tactic(auto)]

ghost use Rattle.std.specs.Prelude.{◌≡◌, ◌<◌, length};
ghost use Rattle.answer.specs.Table.{number_of};
ghost use Rattle.answer.specs.declared.Answer.TheVariants.{Denied};
ghost use Rattle.slots.specs.Stores.{stores, slot_at};
ghost use Rattle.collector.specs.State.{state, lent_state};
ghost use Rattle.layout.specs.Layout.{words_of, count_words};
ghost use Rattle.yovtirak.specs.Exports.{called, opening_word, open_call, part_word, heard_word, repetition_word, returned_word, answer_word, changes, take_call, drop_call, place_words, finished_call, priority_word, field_words, read_call, sought_word, find_call, awaited_word, missing_call, address_call, held_in};
ghost use Rattle.cut.specs.Lists.{pick};
ghost use Rattle.cut.specs.Missing.{amount_kept};

use answer::{Answer, Heard, Part, Reason, Repetition, Returned};
use collector::{Collector, Lent, Reply};
use counts::Counts;
use header::Fields;
use object::{Slot, Stage};

// The answers that are given of wrong words, before there is a collector.
const LIMITS: u64 = answer::LIMITS as u64;

const STATE: u64 = answer::STATE as u64;

fn part_word(part: Part) -> u64
    ensures { result ≡ part_word part }
{
    match part {
        Part::Header => 0,
        Part::Body => 1,
    }
}

fn heard_word(heard: Heard) -> u64
    ensures { (result ≡ heard_word heard) × (result < 281474976710656) }
{
    let part = heard.part;
    let number = heard.number as u64;
    let segment = heard.segment as u64;
    part_word(part) * 256 + number * 65536 + segment * 4294967296
}

// Four bits, four bits and three bits.
fn repetition_word(repetition: Repetition) -> u64
    ensures { (result ≡ repetition_word repetition) × (result < 576460752303423488) }
{
    let index = (repetition.index % 16) as u64;
    let continuity = (repetition.continuity % 16) as u64;
    let count = (repetition.count % 8) as u64;
    index * 281474976710656 + continuity * 4503599627370496 + count * 72057594037927936
}

fn returned_word(returned: Returned) -> u64
    ensures { (result ≡ returned_word returned) × (result < 1152921504606846976) }
{
    match returned {
        Returned::Sent(heard, repetition) => heard_word(heard) + repetition_word(repetition),
        Returned::Segment(heard) => heard_word(heard),
        Returned::Number(number) => number as u64 * 65536,
        Returned::Nothing => 0,
    }
}

// An answer and what is returned with it, in one word.
fn answer_word(answer: Answer) -> u64
    ensures { result ≡ answer_word answer }
{
    let returned = answer::returned_with(answer);
    let number = answer::number_of(answer) as u64;
    number + returned_word(returned)
}

// The collector and the counts that lent words hold, where they hold a state and five counts.
#[tactic(auto, unfolding(layout::specs::Layout::readable))]
fn held_in(state: &[u64], counts: &[u32]) -> Option<(Collector, Counts)>
    ensures { result ≡ held_in state.now counts.now }
{
    let state = state.as_array()?;
    let counts = counts.as_array()?;
    if !layout::readable(state) {
        return None;
    }
    Some((layout::collector_from(state), layout::counts_from(counts)))
}

// Whether an answer says that an object's record is another one now.
fn changes(answer: Answer) -> bool
    ensures { result ≡ changes answer }
{
    matches!(
        answer,
        Answer::Stored(_, _) | Answer::Complete(_, _) | Answer::Dropped(_)
    )
}

// The state's words are written only where it is another one now.
fn keep(state: &mut [u64], changed: bool, next: &Collector)
    requires { length state.old ≡ 178 }
    ensures { state.new ≡ pick changed (words_of next.now) state.old }
{
    if changed {
        layout::put_collector(state, next);
    }
}

// What a call leaves in words, and its answer's word. Inlined, it puts no copy of the reply on the stack.
#[inline(always)]
fn leave(state: &mut [u64], counts: &mut [u32], after: Reply) -> u64
    requires { (length state.old ≡ 178) × (length counts.old ≡ 5) }
    ensures { (result ≡ answer_word after.answer)
        × (state.new ≡ pick (changes after.answer) (words_of after.collector) state.old)
        × (counts.new ≡ count_words after.counts) }
{
    layout::put_counts(counts, after.counts);
    keep(state, changes(after.answer), &after.collector);
    answer_word(after.answer)
}

// Why a call is refused.
fn reason_word(why: Reason) -> u64
    ensures { result ≡ number_of (Denied why) }
{
    answer::number_of(Answer::Denied(why)) as u64
}

fn opening_word(opening: Result<(), Reason>) -> u64
    ensures { result ≡ opening_word opening }
{
    opening.map_or_else(reason_word, |()| 0)
}

// Opens a collector over lent memory. A refusal, LIMITS, changes nothing.
#[unsafe(no_mangle)]
pub extern "C" fn yovtirak_open(
    limit: usize,
    slots: usize,
    state: &mut [u64],
    counts: &mut [u32],
    header: &[u8],
    body: &[u8],
    marks: &mut [u8],
) -> u64
    ensures { called result state.new counts.new
        (stores header.now body.now marks.new)
        ≡ open_call limit slots state.old counts.old
        (stores header.now body.now marks.old) }
{
    if state.len() != layout::STATE {
        return LIMITS;
    }
    let Some(words) = counts.as_array() else {
        return LIMITS;
    };
    let before = layout::counts_from(words);
    let opened = Collector::opened(limit, slots, before, header, body, marks);
    // In a place of its own: lent as a part of `opened` it took more time, and more of the stack.
    let fresh = opened.collector;
    layout::put_counts(counts, opened.counts);
    keep(state, opened.opening.is_ok(), &fresh);
    opening_word(opened.opening)
}

// Takes a group.
#[unsafe(no_mangle)]
pub extern "C" fn yovtirak_take(
    state: &mut [u64],
    counts: &mut [u32],
    group: &[u8],
    header: &mut [u8],
    body: &mut [u8],
    marks: &mut [u8],
) -> u64
    ensures { called result state.new counts.new
        (stores header.new body.new marks.new)
        ≡ take_call group.now state.old counts.old
        (stores header.old body.old marks.old) }
{
    let Some((collector, before)) = held_in(state, counts) else {
        return STATE;
    };
    let after = collector.taken(before, group, header, body, marks);
    leave(state, counts, after)
}

// Drops a number.
#[unsafe(no_mangle)]
pub extern "C" fn yovtirak_drop(
    state: &mut [u64],
    counts: &mut [u32],
    number: u16,
    header: &[u8],
    body: &[u8],
    marks: &mut [u8],
) -> u64
    ensures { called result state.new counts.new
        (stores header.now body.now marks.new)
        ≡ drop_call number state.old counts.old
        (stores header.now body.now marks.old) }
{
    let Some((collector, before)) = held_in(state, counts) else {
        return STATE;
    };
    let after = collector.dropped(before, number, header, body, marks);
    leave(state, counts, after)
}

// What a question is asked of.
fn lent<'a>(
    held: &'a (Collector, Counts),
    header: &'a [u8],
    body: &'a [u8],
    marks: &'a [u8],
) -> Lent<'a, 'a>
    ensures { lent_state result ≡ state held.now.0 held.now.1 (stores header.now body.now marks.now) }
{
    let (collector, counts) = held;
    Lent {
        collector,
        counts: *counts,
        header,
        body,
        marks,
    }
}

#[tactic(auto, unfolding(slots::specs::Stores::slot_at, slots::specs::Stores::free_slot))]
fn stage_at(slots: &[Slot; Collector::SLOTS_MOST], i: usize) -> Stage
    ensures { result ≡ (slot_at i slots.now).stage }
{
    slots.get(i).map_or(Stage::Free, |slot| slot.stage)
}

fn put_place(place: &mut [u64], i: usize, stage: Stage)
    requires { length place.old ≡ 3 }
    ensures { place.new ≡ place_words i stage }
{
    place[0] = i as u64;
    place[1] = layout::header_word(stage);
    place[2] = layout::body_word(stage);
}

// Where a finished object is: its slot, and how long its header and its body are. They stand at the
// start of the slot's shares of the two stores.
#[unsafe(no_mangle)]
pub extern "C" fn yovtirak_finished(
    state: &[u64],
    counts: &[u32],
    number: u16,
    header: &[u8],
    body: &[u8],
    marks: &[u8],
    place: &mut [u64],
) -> u64
    ensures { record { result = result; told = place.new }
        ≡ finished_call number state.now counts.now
        (stores header.now body.now marks.now) place.old }
{
    if place.len() != 3 {
        return STATE;
    }
    let Some(held) = held_in(state, counts) else {
        return STATE;
    };
    match lent(&held, header, body, marks).locate(number) {
        Ok(i) => {
            put_place(place, i, stage_at(&held.0.slots, i));
            0
        }
        Err(why) => reason_word(why),
    }
}

fn priority_word(priority: Option<u8>) -> u64
    ensures { result ≡ priority_word priority }
{
    priority.map_or(256, u64::from)
}

fn put_fields(told: &mut [u64], fields: Fields)
    requires { length told.old ≡ 7 }
    ensures { told.new ≡ field_words fields }
{
    let name = fields.name.unwrap_or_default();
    told.copy_from_slice(&[
        u64::from(fields.body_size),
        u64::from(fields.header_size),
        u64::from(fields.content_type),
        u64::from(fields.content_sub_type),
        priority_word(fields.priority),
        name.start as u64,
        name.size as u64,
    ]);
}

// What a finished object's header says.
#[unsafe(no_mangle)]
pub extern "C" fn yovtirak_read(
    state: &[u64],
    counts: &[u32],
    number: u16,
    header: &[u8],
    body: &[u8],
    marks: &[u8],
    told: &mut [u64],
) -> u64
    ensures { record { result = result; told = told.new }
        ≡ read_call number state.now counts.now
        (stores header.now body.now marks.now) told.old }
{
    if told.len() != 7 {
        return STATE;
    }
    let Some(held) = held_in(state, counts) else {
        return STATE;
    };
    match queries::parameters(&lent(&held, header, body, marks), number) {
        Ok(fields) => {
            put_fields(told, fields);
            0
        }
        Err(why) => reason_word(why),
    }
}

fn sought_word(sought: Result<u16, Reason>) -> u64
    ensures { result ≡ sought_word sought }
{
    sought.map_or_else(reason_word, |number| number as u64 * 65536)
}

// The finished object that has a name.
#[unsafe(no_mangle)]
pub extern "C" fn yovtirak_find(
    state: &[u64],
    counts: &[u32],
    name: &[u8],
    header: &[u8],
    body: &[u8],
    marks: &[u8],
) -> u64
    ensures { result ≡ find_call name.now state.now counts.now
        (stores header.now body.now marks.now) }
{
    let Some(held) = held_in(state, counts) else {
        return STATE;
    };
    sought_word(queries::find(&lent(&held, header, body, marks), name))
}

// 1 more than a number of bytes, or 0 while it isn't known.
fn amount_word(amount: Option<u32>) -> u64
    ensures { (result ≡ amount_kept amount) × (result < 8589934592) }
{
    amount.map_or(0, |bytes| bytes as u64 + 1)
}

fn awaited_word(awaited: Result<Option<u32>, Reason>) -> u64
    ensures { result ≡ awaited_word awaited }
{
    awaited.map_or_else(reason_word, |amount| amount_word(amount) * 65536)
}

// How many bytes of a number's object are still to come.
#[unsafe(no_mangle)]
pub extern "C" fn yovtirak_missing(
    state: &[u64],
    counts: &[u32],
    number: u16,
    header: &[u8],
    body: &[u8],
    marks: &[u8],
) -> u64
    ensures { result ≡ missing_call number state.now counts.now
        (stores header.now body.now marks.now) }
{
    let Some(held) = held_in(state, counts) else {
        return STATE;
    };
    awaited_word(queries::missing(&lent(&held, header, body, marks), number))
}

// Where the end user address of a group stands, or why the group is not read.
#[tactic(auto, using(wire::specs::laws::Theorems::inside), unfolding(crate::specs::Exports::address_call))]
#[unsafe(no_mangle)]
pub extern "C" fn yovtirak_address(group: &[u8]) -> u64
    ensures { result ≡ address_call group.now }
{
    match wire::read(group) {
        Ok(carried) => {
            let start = carried.address.start as u64;
            let count = carried.address.length as u64;
            start * 65536 + count * 4294967296
        }
        Err(why) => answer::number_of(Answer::Refused(why)) as u64,
    }
}
