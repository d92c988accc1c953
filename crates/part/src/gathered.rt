// A part with its marks counted: whether what is in can be, whether one segment more fits, and whether the part is
// sound. That the count is that of the marks, each 0 or 1 and one for each number of the bounds, is in the type.
ghost use Rattle.std.specs.Prelude.{◌≡◌, ◌≤◌, length, drop};
ghost use Rattle.octets.specs.Octets.{sum_of};
ghost use Rattle.cut.specs.Sums.{possible_in, accepts_in, fits_in};
ghost use Rattle.part.specs.Asked.{end_right, record_right, sound_part, Counted};

use crate::{bounds, ended, full, holds, record};
use cut::{Bounds, Record};

// A part: its bounds, its record, its marks and how many of them are set.
#[derive(Clone, Copy)]
pub struct Gathered<'a> {
    pub bounds: Bounds,
    pub kept: Record,
    pub total: u32,
    pub marks: &'a [u8],
    pub ghost counted: { Counted bounds total marks.now },
}

impl Gathered<'_> {
    // How many are in from a number on: the shorter side is summed.
    fn total_from(&self, from: usize) -> u32
        requires { from ≤ length self.now.marks.now }
        ensures { result ≡ sum_of (drop from self.now.marks.now) }
    {
        if from < self.marks.len() - from {
            return self.total - octets::sum(&self.marks[..from]);
        }
        octets::sum(&self.marks[from..])
    }

    // ---- whether it can be

    // Whether what is in fits some length and size within the bounds.
    #[tactic(auto, using(cut::specs::laws::Sums::room_within), unfolding(cut::specs::Sums::possible_in))]
    pub fn possible(&self) -> bool
        ensures { result ≡ possible_in self.now.bounds self.now.kept self.now.marks.now }
    {
        let ends = ended(self.kept);
        if self.total == ends {
            return bounds::alone(self.bounds, self.kept);
        }
        let room = bounds::room(self.bounds, self.kept);
        self.total_from(room) == ends
    }

    // The same of what is in and one segment more, whose mark is not set yet; with is the record with it.
    #[tactic(auto, using(cut::specs::laws::Sums::room_within))]
    fn accepts(&self, last: bool, number: usize, with: Record) -> bool
        ensures { result ≡ accepts_in last number self.now.bounds with self.now.marks.now }
    {
        let room = bounds::room(self.bounds, with);
        if last {
            if self.total == 0 {
                return bounds::alone(self.bounds, with);
            }
            return self.total_from(room) == 0;
        }
        number < room && self.total_from(room) == ended(with)
    }

    // Whether a segment of a number that is not in fits, with those that are.
    #[tactic(auto, unfolding(cut::specs::Sums::fits_in))]
    pub fn fits(&self, last: bool, number: usize, count: usize) -> bool
        ensures { result ≡ fits_in self.now.bounds self.now.kept self.now.marks.now last number count }
    {
        if self.bounds.numbers <= number {
            return false;
        }
        let with = record::add(last, number, count, self.kept);
        record::joins(full(self.kept, self.total), last, count, self.kept)
            && self.accepts(last, number, with)
    }

    // ---- whether it is sound

    // Whether the record is the one that the marked segments give.
    #[tactic(auto, unfolding(crate::specs::Asked::record_right, cut::specs::Kept::settle))]
    fn record_right(&self) -> bool
        ensures { result ≡ record_right self.now.bounds self.now.kept self.now.marks.now }
    {
        end_right(self.kept.end, self.kept.tail, self.marks)
            && (full(self.kept, self.total)
                || self.kept.size == record::settle(self.bounds, false, self.kept).size)
    }

    // Whether the record is the one that the marked segments give, and these can be.
    #[tactic(auto, unfolding(crate::specs::Asked::sound_part))]
    pub fn sound(&self) -> bool
        ensures { result ≡ sound_part self.now.bounds self.now.kept self.now.marks.now }
    {
        self.record_right() && self.possible()
    }
}

// Whether the last segment that a record tells of is marked.
fn end_right(end: usize, tail: usize, marks: &[u8]) -> bool
    ensures { result ≡ end_right end tail marks.now }
{
    if end == 0 {
        tail == 0
    } else {
        holds(end - 1, marks)
    }
}
