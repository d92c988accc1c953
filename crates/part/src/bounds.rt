// How far a part can reach within its bounds, numbers alone (crate cut, specs/Decision): the numbers that full segments
// may have, and whether what is in can be. Any numbers are taken: the record of a damaged slot may be asked about too.
ghost use Rattle.std.specs.Prelude.{◌≡◌, ◌<◌, ◌≤◌, ◌-◌, ◌*◌, leb};
ghost use Rattle.cut.specs.Requirement.{size_least, size_most};
ghost use Rattle.cut.specs.Decision.{room, room_open, room_ended, nothing_tests, first_tests, later_tests, alone, possible};
ghost use Rattle.cut.specs.Lists.{all};

use cut::{Bounds, Record, SIZE_LEAST, SIZE_MOST};

// Whether so many segments of a size reach a length. By division: the product could wrap.
fn reaches(least: usize, numbers: usize, size: usize) -> bool
    requires { 0 < size }
    ensures { result ≡ leb least (numbers * size) }
{
    least == 0 || (least - 1) / size < numbers
}

fn room_open(bounds: Bounds, size: usize) -> usize
    requires { (size_least ≤ size) × (size ≤ size_most) }
    ensures { result ≡ room_open bounds size }
{
    if bounds.most < bounds.least || !reaches(bounds.least, bounds.numbers, size) {
        return 0;
    }
    let numbers = bounds.numbers.saturating_sub(1);
    numbers.min(bounds.most.saturating_sub(1) / size)
}

fn room_ended(bounds: Bounds, size: usize, number: usize, tail: usize) -> usize
    requires { (size_least ≤ size) × (size ≤ size_most) }
    ensures { result ≡ room_ended bounds size number tail }
{
    if tail < 1 || size < tail || bounds.numbers <= number || bounds.most < tail {
        return 0;
    }
    if (bounds.most - tail) / size < number || number * size + tail < bounds.least {
        return 0;
    }
    number
}

// How many numbers a full segment of the part's size may have, from 0: the numbers of all that are in lie below it, or
// they don't fit. 0 where no full segment of that size does.
#[tactic(auto, unfolding(cut::specs::Decision::room))]
pub fn room(bounds: Bounds, kept: Record) -> usize
    ensures { result ≡ room bounds kept }
{
    if kept.size < SIZE_LEAST || SIZE_MOST < kept.size {
        return 0;
    }
    match kept.end.checked_sub(1) {
        None => room_open(bounds, kept.size),
        Some(number) => room_ended(bounds, kept.size, number, kept.tail),
    }
}

fn alone_none(bounds: Bounds) -> bool
    ensures { result ≡ all (nothing_tests bounds) }
{
    1 <= bounds.numbers
        && bounds.least <= bounds.most
        && reaches(bounds.least, bounds.numbers, SIZE_MOST)
}

fn alone_first(bounds: Bounds, tail: usize) -> bool
    ensures { result ≡ all (first_tests bounds tail) }
{
    tail <= SIZE_MOST && 1 <= bounds.numbers && bounds.least <= tail && tail <= bounds.most
}

#[tactic(auto, unfolding(cut::specs::Decision::largest))]
fn alone_later(bounds: Bounds, number: usize, tail: usize) -> bool
    requires { 0 < number }
    ensures { result ≡ all (later_tests bounds number tail) }
{
    if tail < 1 || bounds.most < tail || bounds.numbers <= number {
        return false;
    }
    let size = SIZE_MOST.min((bounds.most - tail) / number);
    SIZE_LEAST <= size && tail <= size && bounds.least <= number * size + tail
}

// Whether what is kept can be while no full segment is in: nothing, or the last one alone.
#[tactic(auto, unfolding(cut::specs::Decision::alone))]
pub fn alone(bounds: Bounds, kept: Record) -> bool
    ensures { result ≡ alone bounds kept }
{
    match kept.end {
        0 => alone_none(bounds),
        1 => alone_first(bounds, kept.tail),
        end => alone_later(bounds, end - 1, kept.tail),
    }
}

// Whether some length and size within the bounds suit what is in; top is 1 + the highest number of a full segment, or
// 0.
pub fn possible(bounds: Bounds, top: usize, kept: Record) -> bool
    ensures { result ≡ possible bounds top kept }
{
    if top == 0 {
        return alone(bounds, kept);
    }
    top <= room(bounds, kept)
}
