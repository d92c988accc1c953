// What the comparison with the independent program calls, from Rust: the proved functions below
// the collector, exported on numbers and slices. Nothing else links it.
#![tactic(auto)]

mod decision;
mod headers;

ghost use Rattle.std.specs.Prelude.{◌≡◌};
ghost use Rattle.crc.specs.CheckWord.{check_word};
ghost use Rattle.wire.specs.Reading.{reading_of};
ghost use Rattle.comparison.specs.Fields.{part_number, beside_field, segment_field, refusal_field, field_of};

use answer::{Answer, Part};
use wire::Carried;

#[unsafe(no_mangle)]
pub extern "C" fn compared_check_word(bytes: &[u8]) -> u16
    ensures { result ≡ check_word bytes.now }
{
    crc::check_word(bytes)
}

fn part_number(part: Part) -> u64
    ensures { result ≡ part_number part }
{
    match part {
        Part::Header => 0,
        Part::Body => 1,
    }
}

#[tactic(auto, unfolding(crate::specs::Fields::beside_field))]
fn beside_field(segment: Carried, field: u8) -> u64
    ensures { result ≡ beside_field segment field }
{
    let repetition = segment.repetition;
    match field {
        7 => repetition.index as u64,
        8 => repetition.continuity as u64,
        9 => repetition.count as u64,
        10 => segment.address.start as u64,
        11 => segment.address.length as u64,
        _ => 0,
    }
}

#[tactic(auto, unfolding(crate::specs::Fields::segment_field))]
fn segment_field(segment: Carried, field: u8) -> u64
    ensures { result ≡ segment_field segment field }
{
    let part = segment.heard.part;
    match field {
        1 => segment.heard.number as u64,
        2 => part_number(part),
        3 => segment.heard.segment as u64,
        4 => u64::from(segment.last),
        5 => segment.bytes.start as u64,
        6 => segment.bytes.length as u64,
        _ => beside_field(segment, field),
    }
}

#[tactic(auto, unfolding(crate::specs::Fields::refusal_field))]
fn refusal_field(number: u8, field: u8) -> u64
    ensures { result ≡ refusal_field number field }
{
    match field {
        0 => number as u64,
        _ => 0,
    }
}

// One field of what is read off a group.
#[unsafe(no_mangle)]
pub extern "C" fn compared_reading(group: &[u8], field: u8) -> u64
    ensures { result ≡ field_of (reading_of group.now) field }
{
    match wire::read(group) {
        Ok(segment) => segment_field(segment, field),
        Err(refusal) => refusal_field(answer::number_of(Answer::Refused(refusal)), field),
    }
}
