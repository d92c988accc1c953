// The collector (document 01): several objects gathered at once, by value, over stores, marks and
// counts that the caller lends. Its limits are the type's constants (specs/Bounds.antt), and opening
// is a function of the type. Every call, a question too, checks all that it is given before anything
// else, the counts among it; what it answers and all that it leaves is one definition (specs/Calls.antt).
#![tactic(auto)]

ghost use Rattle.std.specs.Prelude.{◌≡◌, true, ◌<◌};
ghost use Rattle.cut.specs.Requirement.{sent};
ghost use Rattle.object.specs.Asked.{Offered};
ghost use Rattle.slots.specs.Find.{find_in};
ghost use Rattle.slots.specs.Show.{shown_of};
ghost use Rattle.slots.specs.State.{sound_slots};
ghost use Rattle.slots.specs.Stores.{Stores, stores, slots_most, slot_at, lent_at};
ghost use Rattle.slots.specs.Take.{Inside};
ghost use Rattle.collector.specs.Bounds.{bounds};
ghost use Rattle.collector.specs.State.{state, lent_state, reply, start, opened};
ghost use Rattle.collector.specs.Calls.{answer_as, into_held, take_segment, take_group, drop_number, open_with, locate, show, sound, answering};
ghost use Rattle.collector.specs.Changes.{place_of, left_by, offered_at};
ghost use Rattle.collector.specs.Arrival.{no_repetition, arrival, arrival_of};

use answer::{Answer, Heard, Part, Reason, Repetition};
use counts::Counts;
use cut::Segment;
use object::{Outcome, Slot, Stage};

// A collector: the limit on a body, how many slots it has, and the slots.
#[derive(Clone, Copy)]
pub struct Collector {
    pub limit: usize,
    pub count: usize,
    pub slots: [Slot; Collector::SLOTS_MOST],
}

// The bounds of the type.
#[derive(Clone, Copy)]
pub struct BoundingNumbers {
    pub group_least: usize,
    pub group_most: usize,
    pub segment_least: usize,
    pub segment_most: usize,
    pub full_least: usize,
    pub header_least: usize,
    pub header_most: usize,
    pub limit_least: usize,
    pub limit_most: usize,
    pub header_numbers: usize,
    pub body_numbers: usize,
    pub slots_least: usize,
    pub slots_most: usize,
    pub slot_marks: usize,
}

// A collector with all that its caller lends for a question: the counts, the stores and the marks. What is shown is a
// part of the two stores and outlives the rest, so the rest has a lifetime of its own. The calls that change stores
// take those as three `&mut`: a struct of them would have every contract name what each one leaves.
#[derive(Clone, Copy)]
pub struct Lent<'stores, 'rest> {
    pub collector: &'rest Collector,
    pub counts: Counts,
    pub header: &'stores [u8],
    pub body: &'stores [u8],
    pub marks: &'rest [u8],
}

// What an opening hands back: whether the collector is open, or why it is not. A refused one hands back a collector
// that every call answers with STATE.
#[derive(Clone, Copy)]
pub struct Opened {
    pub opening: Result<(), Reason>,
    pub collector: Collector,
    pub counts: Counts,
}

// What a call answers, and the collector and the counts afterwards.
#[derive(Clone, Copy)]
pub struct Reply {
    pub answer: Answer,
    pub collector: Collector,
    pub counts: Counts,
}

// What a segment comes to: the answer, and the slot that is put in one place, if one is. It is handed
// from function to function in place of the collector, which is more than ten times as large. Both cases carry an
// answer: an `Option` of the place and the slot beside it would be no plainer.
#[derive(Clone, Copy)]
enum Change {
    Nothing(Answer),
    At(usize, Slot, Answer),
}

fn answer_as(outcome: Outcome, heard: Heard, repetition: Repetition) -> Answer
    ensures { result ≡ answer_as outcome heard repetition }
{
    match outcome {
        Outcome::Stored => Answer::Stored(heard, repetition),
        Outcome::Complete => Answer::Complete(heard, repetition),
        Outcome::Repeat => Answer::Repeat(heard, repetition),
        Outcome::Conflict => Answer::Conflict(heard),
    }
}

// A segment as it comes in, by itself or carried by a group: which one it is, what its sender meant by a repeat,
// whether it is the last one of its part, and its bytes.
#[derive(Clone, Copy)]
struct Arrival<'a> {
    heard: Heard,
    repetition: Repetition,
    last: bool,
    bytes: &'a [u8],
}

impl<'a> Arrival<'a> {
    fn segment(&self) -> Segment<'a>
        ensures { sent result ≡ (arrival_of self.now).segment }
    {
        Segment {
            number: self.heard.segment as usize,
            last: self.last,
            bytes: self.bytes,
        }
    }
}

// A segment is offered to a slot that stands, or is to stand, at i.
fn take_at(
    slot: Slot,
    limit: usize,
    i: usize,
    came: &Arrival<'_>,
    header: &mut [u8],
    body: &mut [u8],
    marks: &mut [u8],
) -> Change
    requires inside { Inside limit i (stores header.old body.old marks.old) }
    requires offered { Offered limit slot (lent_at limit i (stores header.old body.old marks.old)) }
    ensures { record { change = result; stores = stores header.new body.new marks.new }
        ≡ offered_at limit i (arrival_of came.now) slot (stores header.old body.old marks.old) }
{
    let segment = came.segment();
    let took = slots::take_into(
        slot,
        came.heard.part,
        limit,
        i,
        &segment,
        header,
        body,
        marks,
    );
    let outcome = took.outcome;
    let after = took.slot;
    Change::At(i, after, answer_as(outcome, came.heard, came.repetition))
}

impl Collector {
    // Document 01, "Numbers that bound it": each is the one that the crate below it goes by.
    pub const GROUP_LEAST: usize = wire::GROUP_LEAST;

    pub const GROUP_MOST: usize = wire::GROUP_MOST;

    pub const SEGMENT_LEAST: usize = wire::SEGMENT_LEAST;

    pub const SEGMENT_MOST: usize = wire::SEGMENT_MOST;

    // Of a segment that is not the last.
    pub const FULL_LEAST: usize = wire::FULL_LEAST;

    pub const HEADER_LEAST: usize = cut::HEADER_LEAST;

    pub const HEADER_MOST: usize = cut::HEADER_MOST;

    pub const LIMIT_LEAST: usize = cut::LIMIT_LEAST;

    pub const LIMIT_MOST: usize = cut::LIMIT_MOST;

    pub const HEADER_NUMBERS: usize = cut::HEADER_NUMBERS;

    pub const BODY_NUMBERS: usize = cut::BODY_NUMBERS;

    pub const SLOTS_LEAST: usize = slots::SLOTS_LEAST;

    pub const SLOTS_MOST: usize = slots::SLOTS_MOST;

    // Marks of a slot: one for each number of the header and of the body.
    pub const SLOT_MARKS: usize = slots::SLOT_MARKS;

    // All of them: that they are the requirement's own is proved of this.
    pub fn bounds() -> BoundingNumbers
        ensures { result ≡ bounds }
    {
        BoundingNumbers {
            group_least: Collector::GROUP_LEAST,
            group_most: Collector::GROUP_MOST,
            segment_least: Collector::SEGMENT_LEAST,
            segment_most: Collector::SEGMENT_MOST,
            full_least: Collector::FULL_LEAST,
            header_least: Collector::HEADER_LEAST,
            header_most: Collector::HEADER_MOST,
            limit_least: Collector::LIMIT_LEAST,
            limit_most: Collector::LIMIT_MOST,
            header_numbers: Collector::HEADER_NUMBERS,
            body_numbers: Collector::BODY_NUMBERS,
            slots_least: Collector::SLOTS_LEAST,
            slots_most: Collector::SLOTS_MOST,
            slot_marks: Collector::SLOT_MARKS,
        }
    }

    // Opens a collector over lent memory, by value: all marks and counts are 0. Outside the bounds,
    // or with a wrong lent length, it answers LIMITS and nothing changes.
    pub fn opened(
        limit: usize,
        count: usize,
        counts: Counts,
        header: &[u8],
        body: &[u8],
        marks: &mut [u8],
    ) -> Opened
        ensures { opened result (stores header.now body.now marks.new)
            ≡ open_with (start limit count counts (stores header.now body.now marks.old)) }
    {
        let free = slots::free_slot();
        if !slots::within_limits(limit, count, header.len(), body.len(), marks.len()) {
            let none = Collector {
                limit: 0,
                count: 0,
                slots: [free; Collector::SLOTS_MOST],
            };
            return Opened {
                opening: Err(Reason::Limits),
                collector: none,
                counts,
            };
        }
        octets::clear(marks);
        let fresh = Collector {
            limit,
            count,
            slots: [free; Collector::SLOTS_MOST],
        };
        Opened {
            opening: Ok(()),
            collector: fresh,
            counts: counts::none_yet(),
        }
    }

    // Whether the state is not damaged.
    fn is_sound(&self, counts: Counts, header: &[u8], body: &[u8], marks: &[u8]) -> bool
        ensures { result ≡ sound (state self.now counts (stores header.now body.now marks.now)) }
    {
        slots::sound(self.limit, self.count, &self.slots, header, body, marks)
            && counts::are_within(counts)
    }

    // The answer is counted, and nothing else changes.
    fn answered(self, counts: Counts, answer: Answer) -> Reply
        ensures { (lent : Stores) → reply result lent ≡ answering answer (state self counts lent) }
    {
        Reply {
            answer,
            collector: self,
            counts: counts::counted(answer, counts),
        }
    }

    // The slot of a change is put in its place, and the answer is counted.
    fn changed(mut self, counts: Counts, change: Change) -> Reply
        requires { place_of change < slots_most }
        ensures { (lent : Stores) → reply result lent ≡ left_by change (state self counts lent) }
    {
        let answer = match change {
            Change::Nothing(answer) => answer,
            Change::At(i, slot, answer) => {
                self.slots[i] = slot;
                answer
            }
        };
        self.answered(counts, answer)
    }

    // A segment whose number holds no slot.
    fn take_first(
        &self,
        came: &Arrival<'_>,
        header: &mut [u8],
        body: &mut [u8],
        marks: &mut [u8],
    ) -> Change
        requires { sound_slots self.now.limit self.now.count self.now.slots
            (stores header.old body.old marks.old) ≡ true }
        ensures { (place_of result < slots_most) × ((counts : Counts)
            → left_by result (state self.now counts (stores header.new body.new marks.new))
            ≡ into_held None (arrival_of came.now)
            (state self.now counts (stores header.old body.old marks.old))) }
    {
        if !slots::fits_alone(came.heard.part, self.limit, &came.segment()) {
            return Change::Nothing(Answer::Conflict(came.heard));
        }
        let Some(i) = slots::free(self.count, &self.slots) else {
            return Change::Nothing(Answer::Full(came.heard));
        };
        let fresh = slots::fresh_slot(came.heard.number);
        take_at(fresh, self.limit, i, came, header, body, marks)
    }

    // What a segment comes to, in a sound state.
    fn take_segment(
        &self,
        came: &Arrival<'_>,
        header: &mut [u8],
        body: &mut [u8],
        marks: &mut [u8],
    ) -> Change
        requires { sound_slots self.now.limit self.now.count self.now.slots
            (stores header.old body.old marks.old) ≡ true }
        ensures { (place_of result < slots_most) × ((counts : Counts)
            → left_by result (state self.now counts (stores header.new body.new marks.new))
            ≡ into_held (find_in came.now.heard.number self.now.count self.now.slots)
            (arrival_of came.now)
            (state self.now counts (stores header.old body.old marks.old))) }
    {
        let Some(i) = slots::find(came.heard.number, self.count, &self.slots) else {
            return self.take_first(came, header, body, marks);
        };
        take_at(self.slots[i], self.limit, i, came, header, body, marks)
    }

    // Takes a segment that came without a group, by value: its transport number, part and segment number,
    // whether it is the last one, and its bytes.
    pub fn segment_taken(
        self,
        counts: Counts,
        heard: Heard,
        last: bool,
        bytes: &[u8],
        header: &mut [u8],
        body: &mut [u8],
        marks: &mut [u8],
    ) -> Reply
        ensures { reply result (stores header.new body.new marks.new)
            ≡ take_segment (arrival heard no_repetition last bytes.now)
            (state self counts (stores header.old body.old marks.old)) }
    {
        if !self.is_sound(counts, header, body, marks) {
            return self.answered(counts, Answer::Denied(Reason::State));
        }
        let came = Arrival {
            heard,
            repetition: Repetition::default(),
            last,
            bytes,
        };
        let change = self.take_segment(&came, header, body, marks);
        self.changed(counts, change)
    }

    // What a group comes to.
    #[tactic(auto, using(wire::specs::laws::Theorems::inside), unfolding(crate::specs::Calls::take_group))]
    fn take_group(
        &self,
        counts: Counts,
        group: &[u8],
        header: &mut [u8],
        body: &mut [u8],
        marks: &mut [u8],
    ) -> Change
        ensures { (place_of result < slots_most)
            × (left_by result (state self.now counts (stores header.new body.new marks.new))
            ≡ take_group group.now
            (state self.now counts (stores header.old body.old marks.old))) }
    {
        if !self.is_sound(counts, header, body, marks) {
            return Change::Nothing(Answer::Denied(Reason::State));
        }
        // Taken apart by let .. else, as document 01 has it.
        let reading = wire::read(group);
        let Ok(carried) = reading else {
            return Change::Nothing(Answer::Refused(reading.unwrap_err()));
        };
        let start = carried.bytes.start;
        let end = start + carried.bytes.length;
        let came = Arrival {
            heard: carried.heard,
            repetition: carried.repetition,
            last: carried.last,
            bytes: &group[start..end],
        };
        self.take_segment(&came, header, body, marks)
    }

    // Takes a group, by value.
    pub fn taken(
        self,
        counts: Counts,
        group: &[u8],
        header: &mut [u8],
        body: &mut [u8],
        marks: &mut [u8],
    ) -> Reply
        ensures { reply result (stores header.new body.new marks.new)
            ≡ take_group group.now
            (state self counts (stores header.old body.old marks.old)) }
    {
        let change = self.take_group(counts, group, header, body, marks);
        self.changed(counts, change)
    }

    // Drops a number, by value.
    pub fn dropped(
        mut self,
        counts: Counts,
        number: u16,
        header: &[u8],
        body: &[u8],
        marks: &mut [u8],
    ) -> Reply
        ensures { reply result (stores header.now body.now marks.new)
            ≡ drop_number number (state self counts (stores header.now body.now marks.old)) }
    {
        if !self.is_sound(counts, header, body, marks) {
            return self.answered(counts, Answer::Denied(Reason::State));
        }
        let Some(i) = slots::find(number, self.count, &self.slots) else {
            return self.answered(counts, Answer::Denied(Reason::NotHeld));
        };
        slots::drop_at(i, &mut self.slots, marks);
        self.answered(counts, Answer::Dropped(number))
    }
}

impl<'stores> Lent<'stores, '_> {
    // Whether the state is not damaged.
    pub fn is_sound(&self) -> bool
        ensures { result ≡ sound (lent_state self.now) }
    {
        self.collector
            .is_sound(self.counts, self.header, self.body, self.marks)
    }

    // Where the finished object of a number is, or why it can't be shown.
    pub fn locate(&self, number: u16) -> Result<usize, Reason>
        ensures { result ≡ locate number (lent_state self.now) }
    {
        if !self.is_sound() {
            return Err(Reason::State);
        }
        let Some(i) = slots::find(number, self.collector.count, &self.collector.slots) else {
            return Err(Reason::NotHeld);
        };
        match self.collector.slots[i].stage {
            Stage::Free => Err(Reason::NotHeld),
            Stage::Gathering => Err(Reason::Unfinished),
            Stage::Finished(_, _) => Ok(i),
        }
    }

    // A part of the finished object in slot i; nothing where there is none.
    pub fn shown_at(&self, part: Part, i: usize) -> &'stores [u8]
        ensures { result.now
            ≡ shown_of part i self.now.collector.now.limit (slot_at i self.now.collector.now.slots)
            self.now.header.now self.now.body.now }
    {
        let Some(slot) = self.collector.slots.get(i) else {
            return &self.header[..0];
        };
        slots::shown(part, i, self.collector.limit, *slot, self.header, self.body)
    }

    // A finished object's header or body, as the part of the store that has it, without copying;
    // nothing where `locate` says why.
    pub fn show(&self, number: u16, part: Part) -> &'stores [u8]
        ensures { result.now ≡ show number part (lent_state self.now) }
    {
        let Ok(i) = self.locate(number) else {
            return &self.header[..0];
        };
        self.shown_at(part, i)
    }
}

#[cfg(test)]
mod tests {
    use super::*;

    // What is shown is a part of the two stores and of nothing else that is lent for the question, so that it may be
    // read when the collector and the marks are already others.
    #[test]
    fn what_is_shown_outlives_the_question(rt: HostRuntime) {
        let header = [0u8; Collector::HEADER_MOST];
        let body = [0u8; Collector::LIMIT_LEAST];
        let mut marks = [0u8; Collector::SLOT_MARKS];
        let limit = Collector::LIMIT_LEAST;
        let opened = Collector::opened(limit, 1, counts::none_yet(), &header, &body, &mut marks);
        let shown = {
            let collector = opened.collector;
            let lent = Lent {
                collector: &collector,
                counts: opened.counts,
                header: &header,
                body: &body,
                marks: &marks,
            };
            lent.show(5, Part::Body)
        };
        marks[0] = 1;
        assert_eq!(rt; shown.len(), 0);
    }
}
