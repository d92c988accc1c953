// A collector's state and its counts as words that a caller keeps, so that a program in another
// language can lend them, map them or save them: which word holds what is one definition
// (specs/Layout.antt). Words that hold no state are told by `readable`; a free slot's other words
// and the slots past the number of slots play no part in it (document 01, STATE). Nothing is lost:
// a collector that is written reads back as it was.
#![tactic(auto)]

ghost use Rattle.std.specs.Prelude.{◌≡◌, ◌+◌, ◌*◌, ◌≤◌, length};
ghost use Rattle.slots.specs.Stores.{slots_most};
ghost use Rattle.layout.specs.Layout.{stage_tag, header_word, body_word, slot_words, words_of, count_words, stage_from, slot_in, slots_from, collector_from, counts_from, slot_readable, readable_from, readable};

use collector::Collector;
use counts::Counts;
use cut::Record;
use object::{Slot, Stage};
use slots::SLOTS_MOST;
use std::array;

// Words before those of the slots: the limit and the number of slots.
const BEFORE_SLOTS: usize = 2;

// Words of a slot.
pub const SLOT: usize = 11;

// Words of a state: the limit, the number of slots, and those of all the slots.
pub const STATE: usize = BEFORE_SLOTS + SLOTS_MOST * SLOT;

// Words of the counts.
pub const COUNTS: usize = 5;

fn stage_tag(stage: Stage) -> u64
    ensures { result ≡ stage_tag stage }
{
    match stage {
        Stage::Free => 0,
        Stage::Gathering => 1,
        Stage::Finished(_, _) => 2,
    }
}

// A finished object's header length, 0 for any other stage.
pub fn header_word(stage: Stage) -> u64
    ensures { result ≡ header_word stage }
{
    match stage {
        Stage::Free | Stage::Gathering => 0,
        Stage::Finished(header, _) => header as u64,
    }
}

// A finished object's body length, 0 for any other stage.
pub fn body_word(stage: Stage) -> u64
    ensures { result ≡ body_word stage }
{
    match stage {
        Stage::Free | Stage::Gathering => 0,
        Stage::Finished(_, body) => body as u64,
    }
}

fn stage_from(tag: u64, header: u64, body: u64) -> Stage
    ensures { result ≡ stage_from tag header body }
{
    match tag {
        0 => Stage::Free,
        1 => Stage::Gathering,
        _ => Stage::Finished(header as usize, body as usize),
    }
}

fn record_from(size: u64, end: u64, tail: u64) -> Record
    ensures { result ≡ record { size = size; end = end; tail = tail } }
{
    Record {
        size: size as usize,
        end: end as usize,
        tail: tail as usize,
    }
}

// The slot that its words hold.
fn slot_from(words: &[u64; SLOT]) -> Slot
    ensures { result ≡ slot_in words.now 0 }
{
    Slot {
        number: u16::try_from(words[0]).unwrap_or(0),
        stage: stage_from(words[1], words[2], words[3]),
        header: record_from(words[4], words[5], words[6]),
        body: record_from(words[7], words[8], words[9]),
        missing: u32::try_from(words[10]).unwrap_or(0),
    }
}

// Whether the words of a slot hold one.
#[tactic(auto, unfolding(crate::specs::Layout::slot_readable))]
fn slot_readable(words: &[u64; SLOT]) -> bool
    ensures { result ≡ slot_readable words.now 0 }
{
    match words[1] {
        0 => true,
        1 | 2 => u16::try_from(words[0]).is_ok() && u32::try_from(words[10]).is_ok(),
        _ => false,
    }
}

// Whether the words of the first `count` slots hold slots.
fn all_readable(words: &[u64], count: usize) -> bool
    requires { 2 + count * 11 ≤ length words.now }
    ensures { result ≡ readable_from words.now count 2 }
{
    let (slots, _) = words[BEFORE_SLOTS..].as_chunks::<SLOT>();
    slots[..count].iter().all(|slot| slot_readable(slot))
}

// Whether words hold a state, sound or not.
#[tactic(auto, unfolding(crate::specs::Layout::readable))]
pub fn readable(words: &[u64]) -> bool
    ensures { result ≡ readable words.now }
{
    if words.len() != STATE {
        return false;
    }
    let count = words[1] as usize;
    count <= SLOTS_MOST && all_readable(words, count)
}

// The slots that the words of a state hold. Not inlined: what it needs of the stack is free again behind it.
#[inline(never)]
fn slots_from(words: &[u64; STATE]) -> [Slot; SLOTS_MOST]
    ensures { result ≡ slots_from words.now slots_most 2 }
{
    let (slots, _) = words[BEFORE_SLOTS..].as_chunks::<SLOT>();
    array::from_fn(|i| slot_from(&slots[i]))
}

// The collector whose state the words hold.
#[tactic(auto, unfolding(crate::specs::Layout::collector_from))]
pub fn collector_from(words: &[u64; STATE]) -> Collector
    ensures { result ≡ collector_from words.now }
{
    Collector {
        limit: words[0] as usize,
        count: words[1] as usize,
        slots: slots_from(words),
    }
}

// The words that hold a slot.
fn slot_words(slot: Slot) -> [u64; SLOT]
    ensures { result ≡ slot_words slot }
{
    [
        slot.number as u64,
        stage_tag(slot.stage),
        header_word(slot.stage),
        body_word(slot.stage),
        slot.header.size as u64,
        slot.header.end as u64,
        slot.header.tail as u64,
        slot.body.size as u64,
        slot.body.end as u64,
        slot.body.tail as u64,
        slot.missing as u64,
    ]
}

// The collector's state, into the words.
pub fn put_collector(words: &mut [u64], collector: &Collector)
    requires { length words.old ≡ 178 }
    ensures { words.new ≡ words_of collector.now }
{
    words[0] = collector.limit as u64;
    words[1] = collector.count as u64;
    for (i, slot) in collector.slots.iter().enumerate() {
        let at = BEFORE_SLOTS + i * SLOT;
        words[at..at + SLOT].copy_from_slice(&slot_words(*slot));
    }
}

// The counts that the words hold.
pub fn counts_from(words: &[u32; COUNTS]) -> Counts
    ensures { result ≡ counts_from words.now }
{
    Counts {
        taken: words[0],
        repeated: words[1],
        refused: words[2],
        completed: words[3],
        dropped: words[4],
    }
}

// The counts, into the words.
pub fn put_counts(words: &mut [u32], counts: Counts)
    requires { length words.old ≡ 5 }
    ensures { words.new ≡ count_words counts }
{
    words.copy_from_slice(&[
        counts.taken,
        counts.repeated,
        counts.refused,
        counts.completed,
        counts.dropped,
    ]);
}
