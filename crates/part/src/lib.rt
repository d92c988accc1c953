// One part of an object being gathered (document 01, "One object, one cut"), within any bounds: its record by value,
// its marks and its share of a store lent. Whether a number is in and what stands there, the record with one segment
// more, and the segment put; `gathered` says whether one more fits and whether the part is sound. It knows neither
// header nor body.
#![tactic(auto)]

pub mod bounds;
pub mod gathered;
pub mod record;

ghost use Rattle.std.specs.Prelude.{◌≡◌, suc, ◌*◌, ◌≤◌, ◌<◌, eqb, length};
ghost use Rattle.cut.specs.Requirement.{sent};
ghost use Rattle.cut.specs.Sums.{ended, full_by};
ghost use Rattle.part.specs.Memory.{memory, place_of, length_of};
ghost use Rattle.part.specs.Moves.{moved_as, settled, put};
ghost use Rattle.part.specs.Asked.{mark_of, held_at, same_segment, record_adding, record_settled, Held, CanMove, CanPut};

use cut::{Bounds, Record, Segment};

// ---- what is in

pub fn holds(number: usize, marks: &[u8]) -> bool
    ensures { result ≡ mark_of marks.now number }
{
    marks.get(number).is_some_and(|mark| 0 < *mark)
}

// Whether a segment that is held is the last one.
pub fn is_last(kept: Record, number: usize) -> bool
    ensures { result ≡ eqb (suc number) kept.end }
{
    kept.end != 0 && kept.end - 1 == number
}

fn length_of(last: bool, kept: Record) -> usize
    ensures { result ≡ length_of last kept }
{
    if last { kept.tail } else { kept.size }
}

fn place_of(last: bool, size: usize, width: usize, number: usize, count: usize) -> usize
    requires { (number * size ≤ width) × (count ≤ width) }
    ensures { result ≡ place_of last size width number count }
{
    if last && size == 0 && number != 0 {
        width - count
    } else {
        number * size
    }
}

// The bytes of a segment that is held, read back out of the share.
pub fn segment_at(kept: Record, number: usize, share: &[u8]) -> &[u8]
    requires { Held kept number share.now }
    ensures { result.now ≡ (held_at kept share.now number).bytes }
{
    let last = is_last(kept, number);
    let count = length_of(last, kept);
    let at = place_of(last, kept.size, share.len(), number, count);
    &share[at..at + count]
}

// Whether a segment is the one that is held under its number.
#[tactic(auto, unfolding(crate::specs::Asked::same_segment, crate::specs::Memory::segment_at))]
pub fn same(kept: Record, segment: &Segment<'_>, share: &[u8]) -> bool
    requires { Held kept segment.now.number share.now }
    ensures { result ≡ same_segment (sent segment.now) (held_at kept share.now segment.now.number) }
{
    segment.last == is_last(kept, segment.number)
        && octets::same(segment.bytes, segment_at(kept, segment.number, share))
}

// ---- one segment more

// How many last segments are in: one or none.
fn ended(kept: Record) -> u32
    ensures { result ≡ ended kept }
{
    if kept.end == 0 { 0 } else { 1 }
}

// Whether a full segment is in, total being how many are.
fn full(kept: Record, total: u32) -> bool
    ensures { result ≡ full_by kept total }
{
    ended(kept) < total
}

// The record with one segment more.
pub fn with(
    bounds: Bounds,
    kept: Record,
    total: u32,
    last: bool,
    number: usize,
    count: usize,
) -> Record
    requires { number < 32768 }
    ensures { result ≡ record_adding bounds kept total last number count }
{
    let with = record::add(last, number, count, kept);
    record::settle(bounds, !last || full(kept, total), with)
}

// The record of a part that gets none, within bounds that may have met.
pub fn within(bounds: Bounds, kept: Record, total: u32) -> Record
    ensures { result ≡ record_settled bounds kept total }
{
    record::settle(bounds, full(kept, total), kept)
}

// A last segment that stands at the end of the share is copied to its place, once the size is known.
pub fn settle(old: Record, new: Record, share: &mut [u8])
    requires { CanMove old new share.old }
    ensures { share.new ≡ moved_as old.size new.size old.end old.tail share.old }
{
    if old.size != 0 || new.size == 0 || old.end < 2 {
        return;
    }
    let from = share.len() - old.tail;
    octets::move_down(share, from, (old.end - 1) * new.size, old.tail);
}

// A segment is written straight into its place in the share, which is lent to the copier, and marked.
pub fn put(old: Record, new: Record, segment: &Segment<'_>, share: &mut [u8], marks: &mut [u8])
    requires can_move { CanMove old new share.old }
    requires can_put { CanPut new segment.now.number (length segment.now.bytes.now) share.old marks.old }
    ensures { memory new marks.new share.new
        ≡ put (sent segment.now) (settled new (memory old marks.old share.old)) }
{
    settle(old, new, share);
    let count = segment.bytes.len();
    let at = place_of(segment.last, new.size, share.len(), segment.number, count);
    octets::copy_in(&mut share[at..at + count], segment.bytes);
    marks[segment.number] = 1;
}
