// The collector's counting calls with the five counts lent (document 01, "Five counts"): they live in
// one record that the caller lends, updated where it stands. Each function is thin: it reads the counts
// out, hands them to the call by value, writes back what it leaves and returns the rest. What it answers
// and all that it leaves is the same definition as that of the call by value
// (collector/specs/Calls.antt). Beside each stands a function that lends a local record for the call,
// for callers that have the counts by value.
#![tactic(auto)]

ghost use Rattle.std.specs.Prelude.{◌≡◌};
ghost use Rattle.slots.specs.Stores.{stores};
ghost use Rattle.collector.specs.State.{state, reply, start, opened};
ghost use Rattle.collector.specs.Calls.{take_group, drop_number, open_with};
ghost use Rattle.lent_calls.specs.Lent.{answered, begun};

use answer::{Answer, Reason};
use collector::{Collector, Opened, Reply};
use counts::Counts;

// What a call answers, and the collector afterwards.
#[derive(Clone, Copy)]
pub struct Answered {
    pub answer: Answer,
    pub collector: Collector,
}

// Whether a collector is open, or why it is not, and the collector.
#[derive(Clone, Copy)]
pub struct Begun {
    pub opening: Result<(), Reason>,
    pub collector: Collector,
}

// Opens a collector, and sets the counts to 0 where they stand; LIMITS leaves them as they are.
pub fn open(
    limit: usize,
    count: usize,
    counts: &mut Counts,
    header: &[u8],
    body: &[u8],
    marks: &mut [u8],
) -> Begun
    ensures { begun result counts.new (stores header.now body.now marks.new)
        ≡ open_with (start limit count counts.old (stores header.now body.now marks.old)) }
{
    let opened = Collector::opened(limit, count, *counts, header, body, marks);
    *counts = opened.counts;
    Begun {
        opening: opened.opening,
        collector: opened.collector,
    }
}

// Takes a group: what comes of it is answered, and counted where the counts stand.
pub fn take(
    collector: Collector,
    counts: &mut Counts,
    group: &[u8],
    header: &mut [u8],
    body: &mut [u8],
    marks: &mut [u8],
) -> Answered
    ensures { answered result counts.new (stores header.new body.new marks.new)
        ≡ take_group group.now
        (state collector counts.old (stores header.old body.old marks.old)) }
{
    let taken = collector.taken(*counts, group, header, body, marks);
    *counts = taken.counts;
    Answered {
        answer: taken.answer,
        collector: taken.collector,
    }
}

// Drops a number: what comes of it is answered, and counted where the counts stand.
pub fn drop(
    collector: Collector,
    counts: &mut Counts,
    number: u16,
    header: &[u8],
    body: &[u8],
    marks: &mut [u8],
) -> Answered
    ensures { answered result counts.new (stores header.now body.now marks.new)
        ≡ drop_number number
        (state collector counts.old (stores header.now body.now marks.old)) }
{
    let dropped = collector.dropped(*counts, number, header, body, marks);
    *counts = dropped.counts;
    Answered {
        answer: dropped.answer,
        collector: dropped.collector,
    }
}

// Opens a collector over a record of counts that is lent for the call.
pub fn opened(
    limit: usize,
    count: usize,
    counts: Counts,
    header: &[u8],
    body: &[u8],
    marks: &mut [u8],
) -> Opened
    ensures { opened result (stores header.now body.now marks.new)
        ≡ open_with (start limit count counts (stores header.now body.now marks.old)) }
{
    let mut kept = counts;
    let begun = open(limit, count, &mut kept, header, body, marks);
    Opened {
        opening: begun.opening,
        collector: begun.collector,
        counts: kept,
    }
}

// Takes a group, over a record of counts that is lent for the call.
pub fn taken(
    collector: Collector,
    counts: Counts,
    group: &[u8],
    header: &mut [u8],
    body: &mut [u8],
    marks: &mut [u8],
) -> Reply
    ensures { reply result (stores header.new body.new marks.new)
        ≡ take_group group.now
        (state collector counts (stores header.old body.old marks.old)) }
{
    let mut kept = counts;
    let answered = take(collector, &mut kept, group, header, body, marks);
    Reply {
        answer: answered.answer,
        collector: answered.collector,
        counts: kept,
    }
}

// Drops a number, over a record of counts that is lent for the call.
pub fn dropped(
    collector: Collector,
    counts: Counts,
    number: u16,
    header: &[u8],
    body: &[u8],
    marks: &mut [u8],
) -> Reply
    ensures { reply result (stores header.now body.now marks.new)
        ≡ drop_number number (state collector counts (stores header.now body.now marks.old)) }
{
    let mut kept = counts;
    let answered = drop(collector, &mut kept, number, header, body, marks);
    Reply {
        answer: answered.answer,
        collector: answered.collector,
        counts: kept,
    }
}
