// All the slots of a collector, with the stores and the marks that are lent for them: which slot holds a
// number or is free, whether a segment fits alone, whether a state is damaged (document 01, STATE), a segment taken
// into one of the slots, a slot dropped, and a finished object's part of a store. Everything that runs over slots or
// marks stands here; the collector above has the type, the answers and the counts. Each function is one definition
// (specs/), and slot i has share i of each store and of the marks.
#![tactic(auto)]

ghost use Rattle.std.specs.Prelude.{◌≡◌, ◌+◌, ◌*◌, ◌≤◌, ◌<◌, leb, length, take, drop, set};
ghost use Rattle.octets.specs.Octets.{zeros};
ghost use Rattle.cut.specs.Requirement.{header_most, sent};
ghost use Rattle.object.specs.Take.{take_into};
ghost use Rattle.object.specs.Asked.{Offered};
ghost use Rattle.slots.specs.Stores.{slots_most, slot_marks, free_slot, fresh_slot, stores, lent_at};
ghost use Rattle.slots.specs.Find.{is_free, holds, find_in, free_in};
ghost use Rattle.slots.specs.Alone.{fits_alone};
ghost use Rattle.slots.specs.State.{within_limits, right_by, sound_slots};
ghost use Rattle.slots.specs.Keys.{key_of, keys_of, unlike_key, distinct_keys};
ghost use Rattle.slots.specs.Show.{start_of, shown_of};
ghost use Rattle.slots.specs.Take.{placed, placed_at, drop_at, Inside};

use answer::Part;
use cut::{Record, Segment};
use object::{Decided, Slot, Stage, Tally, Took};
use std::array;

// How many slots a collector may have.
pub const SLOTS_LEAST: usize = 1;

pub const SLOTS_MOST: usize = 16;

// Marks of a slot: one for each number of the header and of the body.
pub const SLOT_MARKS: usize = cut::HEADER_NUMBERS + cut::BODY_NUMBERS;

pub fn free_slot() -> Slot
    ensures { result ≡ free_slot }
{
    Slot {
        number: 0,
        stage: Stage::Free,
        header: Record::default(),
        body: Record::default(),
        missing: 0,
    }
}

// A slot that a transport number has just taken.
pub fn fresh_slot(transport: u16) -> Slot
    ensures { result ≡ fresh_slot transport }
{
    Slot {
        number: transport,
        stage: Stage::Gathering,
        ..free_slot()
    }
}

fn is_free(slot: &Slot) -> bool
    ensures { result ≡ is_free slot.now }
{
    slot.stage == Stage::Free
}

fn holds(number: u16, slot: &Slot) -> bool
    ensures { result ≡ holds number slot.now }
{
    !is_free(slot) && slot.number == number
}

// The lowest of the first count slots that holds a number.
pub fn find(number: u16, count: usize, slots: &[Slot; SLOTS_MOST]) -> Option<usize>
    ensures { result ≡ find_in number count slots.now }
{
    slots
        .iter()
        .take(count)
        .position(|slot| holds(number, slot))
}

// The lowest of the first count slots that is free.
pub fn free(count: usize, slots: &[Slot; SLOTS_MOST]) -> Option<usize>
    ensures { result ≡ free_in count slots.now }
{
    slots.iter().take(count).position(|slot| is_free(slot))
}

// Whether a segment fits some object and cut by itself: what comes of it where nothing is in yet. Not inlined: its
// marks are off the stack again before anything is stored.
#[inline(never)]
pub fn fits_alone(part: Part, limit: usize, segment: &Segment<'_>) -> bool
    ensures { result ≡ fits_alone part limit (sent segment.now) }
{
    let marks = [0; SLOT_MARKS];
    let fresh = fresh_slot(0);
    let nothing = Tally::default();
    let bytes = segment.bytes;
    let decided = object::decide(fresh, nothing, limit, part, segment, bytes, bytes, &marks);
    matches!(decided, Decided::Fits(_))
}

// Whether the limit and the number of slots are within their bounds, and each lent length is the one that they give.
pub fn within_limits(limit: usize, count: usize, header: usize, body: usize, marks: usize) -> bool
    ensures { result ≡ within_limits limit count header body marks }
{
    (cut::LIMIT_LEAST..=cut::LIMIT_MOST).contains(&limit)
        && (SLOTS_LEAST..=SLOTS_MOST).contains(&count)
        && header == count * cut::HEADER_MOST
        && body == count * limit
        && marks == count * SLOT_MARKS
}

// A slot's number and 1, or 0 where it is free: two slots hold one number just where their keys are one and not 0.
fn key_of(slot: &Slot) -> u32
    ensures { result ≡ key_of slot.now }
{
    if is_free(slot) {
        0
    } else {
        slot.number as u32 + 1
    }
}

// The keys of all slots: a search among these reads 64 bytes, and not the slots.
fn keys_of(slots: &[Slot; SLOTS_MOST]) -> [u32; SLOTS_MOST]
    ensures { result ≡ keys_of slots.now }
{
    array::from_fn(|i| key_of(&slots[i]))
}

// Whether a key is 0, or none of the others.
fn is_unlike(key: u32, others: &[u32]) -> bool
    ensures { result ≡ unlike_key key others.now }
{
    key == 0 || !others.contains(&key)
}

// Whether no two of the keys are one, but for 0.
fn all_distinct(keys: &[u32]) -> bool
    ensures { result ≡ distinct_keys keys.now }
{
    let mut rest = keys;
    while let Some((key, others)) = rest.split_first() {
        if !is_unlike(*key, others) {
            return false;
        }
        rest = others;
    }
    true
}

// Whether a free slot has no mark set, or a held one is sound.
fn right_at(limit: usize, i: usize, slot: &Slot, header: &[u8], marks: &[u8]) -> bool
    requires header_most_in_bounds { i * header_most + header_most ≤ length header.now }
    requires slot_marks_in_bounds { i * slot_marks + slot_marks ≤ length marks.now }
    ensures { result ≡ right_by limit i slot.now header.now marks.now }
{
    let first = i * SLOT_MARKS;
    let end = first + SLOT_MARKS;
    if is_free(slot) {
        return octets::largest(&marks[first..end]) == 0;
    }
    let start = i * cut::HEADER_MOST;
    let stop = start + cut::HEADER_MOST;
    object::is_sound(*slot, limit, &header[start..stop], &marks[first..end])
}

// Whether a state is not damaged, the counts left aside: document 01's list for STATE.
pub fn sound(
    limit: usize,
    count: usize,
    slots: &[Slot; SLOTS_MOST],
    header: &[u8],
    body: &[u8],
    marks: &[u8],
) -> bool
    ensures { result ≡ sound_slots limit count slots.now (stores header.now body.now marks.now) }
{
    if !within_limits(limit, count, header.len(), body.len(), marks.len()) {
        return false;
    }
    if !all_distinct(&keys_of(slots)[..count]) {
        return false;
    }
    for (i, slot) in slots[..count].iter().enumerate() {
        if !right_at(limit, i, slot, header, marks) {
            return false;
        }
    }
    true
}

// A segment is offered to a slot that stands, or is to stand, at i; its shares are lent to it.
pub fn take_into(
    slot: Slot,
    part: Part,
    limit: usize,
    i: usize,
    segment: &Segment<'_>,
    header: &mut [u8],
    body: &mut [u8],
    marks: &mut [u8],
) -> Took
    requires inside { Inside limit i (stores header.old body.old marks.old) }
    requires offered { Offered limit slot (lent_at limit i (stores header.old body.old marks.old)) }
    ensures { placed result (stores header.new body.new marks.new)
        ≡ placed_at limit i (stores header.old body.old marks.old)
        (take_into part limit (sent segment.now) slot
        (lent_at limit i (stores header.old body.old marks.old))) }
{
    let header_start = i * cut::HEADER_MOST;
    let header_end = header_start + cut::HEADER_MOST;
    let body_start = i * limit;
    let body_end = body_start + limit;
    let marks_start = i * SLOT_MARKS;
    let marks_end = marks_start + SLOT_MARKS;
    object::take(
        slot,
        limit,
        part,
        segment,
        &mut header[header_start..header_end],
        &mut body[body_start..body_end],
        &mut marks[marks_start..marks_end],
    )
}

// Slot i is dropped: its marks are 0 and it is free; its store bytes stay.
pub fn drop_at(i: usize, slots: &mut [Slot; SLOTS_MOST], marks: &mut [u8])
    requires { (i < slots_most) × (i * slot_marks + slot_marks ≤ length marks.old) }
    ensures { record { slots = slots.new; marks = marks.new } ≡ drop_at i slots.old marks.old }
{
    let start = i * SLOT_MARKS;
    let end = start + SLOT_MARKS;
    octets::clear(&mut marks[start..end]);
    slots[i] = free_slot();
}

// The first bytes of share i of a store, or nothing where the store ends before them.
pub fn start_of(store: &[u8], width: usize, i: usize, count: usize) -> &[u8]
    ensures { result.now ≡ start_of width i count store.now }
{
    match i.checked_mul(width) {
        Some(start) if start <= store.len() && count <= store.len() - start => {
            &store[start..start + count]
        }
        _ => &store[..0],
    }
}

// A finished object's header or body, as the part of the one of the two stores that has it; nothing where the slot is
// not finished or its share does not hold so many bytes.
pub fn shown<'a>(
    part: Part,
    i: usize,
    limit: usize,
    slot: Slot,
    header: &'a [u8],
    body: &'a [u8],
) -> &'a [u8]
    ensures { result.now ≡ shown_of part i limit slot header.now body.now }
{
    let Stage::Finished(header_length, body_length) = slot.stage else {
        return &header[..0];
    };
    match part {
        Part::Header => start_of(header, cut::HEADER_MOST, i, header_length),
        Part::Body => start_of(body, limit, i, body_length),
    }
}
