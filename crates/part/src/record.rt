// The record of a part, numbers alone (crate cut, specs/Kept and Decision): whether one segment more goes with it, the
// record with that one, the size of the cut once it is settled, and whether the part is whole. Any numbers are taken,
// as the record of a damaged slot may be asked about too; but for the part's length and how much of it has arrived
// (crate cut, specs/MissingKept), which are asked of numbers that a part can have.
ghost use Rattle.std.specs.Prelude.{◌≡◌, ◌<◌, IfSome};
ghost use Rattle.cut.specs.Decision.{joins, whole};
ghost use Rattle.cut.specs.Kept.{add_part, add_top, derived, settle};
ghost use Rattle.cut.specs.MissingKept.{length_in, arrived_kept, Small};

use cut::{Bounds, Record};

// Whether a segment of a new number goes with what is kept: there is one last segment, and full ones have one length.
pub fn joins(full: bool, last: bool, length: usize, kept: Record) -> bool
    ensures { result ≡ joins full last length kept }
{
    if last {
        return kept.end == 0;
    }
    !full || length == kept.size
}

// What is kept, with one segment more.
pub fn add(last: bool, number: usize, length: usize, kept: Record) -> Record
    requires { number < 65536 }
    ensures { result ≡ add_part last number length kept }
{
    if last {
        return Record {
            end: number + 1,
            tail: length,
            ..kept
        };
    }
    Record {
        size: length,
        ..kept
    }
}

// 1 + the highest number of a full segment, or 0, with one segment more.
pub fn add_top(last: bool, number: usize, top: usize) -> usize
    requires { number < 65536 }
    ensures { result ≡ add_top last number top }
{
    if last { top } else { top.max(number + 1) }
}

fn derived(bounds: Bounds, end: usize, tail: usize) -> usize
    ensures { result ≡ derived bounds end tail }
{
    if end < 2 || bounds.least != bounds.most {
        return 0;
    }
    bounds.most.saturating_sub(tail) / (end - 1)
}

// The record under these bounds: without a full segment the size is the one that the part's length and its last segment
// give, and nothing else gives it.
#[tactic(auto, unfolding(cut::specs::Kept::settle))]
pub fn settle(bounds: Bounds, full: bool, kept: Record) -> Record
    ensures { result ≡ settle bounds full kept }
{
    if full {
        return kept;
    }
    let size = derived(bounds, kept.end, kept.tail);
    Record { size, ..kept }
}

// Whether a part is whole, with so many of its numbers in.
pub fn whole(count: usize, kept: Record) -> bool
    ensures { result ≡ whole count kept }
{
    kept.end != 0 && count == kept.end
}

// The part's length, where its last segment gives it: that is number 0, or the size is known.
pub fn length(kept: Record) -> Option<u32>
    requires { Small kept }
    ensures value { result ≡ length_in kept.size kept.end kept.tail }
    ensures low { IfSome result (λ bytes. bytes < 0x10000000) }
{
    let number = kept.end.checked_sub(1)?;
    if number != 0 && kept.size == 0 {
        return None;
    }
    let whole = number * kept.size + kept.tail;
    Some(whole as u32)
}

// The bytes of the part that have arrived, with so many of its segments in.
pub fn arrived(total: u32, kept: Record) -> usize
    requires { Small kept }
    ensures { (result ≡ arrived_kept total kept) × (result < 70368744177664) }
{
    let count = total as usize;
    if kept.end == 0 {
        return count * kept.size;
    }
    count.saturating_sub(1) * kept.size + kept.tail
}
