// What the collector answers (document 01, "What comes back"): one type, and one table with a row for
// each answer: its number, its name and the values that are returned with it. Every contract above
// speaks of answers through that table. The answers that carry nothing are one case with a reason in it.
#![tactic(auto)]

ghost use Rattle.std.specs.Prelude.{◌≡◌};
ghost use Rattle.answer.specs.Table.{number_of, name_of, returned_with, refusal_row, reason_row, row_of, Reads};
ghost use Rattle.answer.specs.Letters.{Spells};

// The two parts of an object.
#[derive(Clone, Copy)]
pub enum Part {
    Header,
    Body,
}

// The segment that an answer speaks of: its transport number, its part and its segment number.
#[derive(Clone, Copy)]
pub struct Heard {
    pub number: u16,
    pub part: Part,
    pub segment: u16,
}

// What the sender of a group meant by a repeat: its repetition index, its continuity index and its
// repetition count. All three are 0 for a segment that came without a group.
#[derive(Clone, Copy, Default)]
pub struct Repetition {
    pub index: u8,
    pub continuity: u8,
    pub count: u8,
}

// Why a group is not read: numbers 10 to 16.
#[derive(Clone, Copy)]
pub enum Refusal {
    Length,
    NoCheck,
    BadCheck,
    Kind,
    NoSegment,
    Address,
    Size,
}

// Why a call gives nothing: numbers 19 to 26, of which 23 is retired.
#[derive(Clone, Copy)]
pub enum Reason {
    NotHeld,
    Unfinished,
    Header,
    Duplicate,
    NotFound,
    Limits,
    State,
}

#[derive(Clone, Copy)]
pub enum Answer {
    Stored(Heard, Repetition),
    Complete(Heard, Repetition),
    Repeat(Heard, Repetition),
    Dropped(u16),
    Refused(Refusal),
    Conflict(Heard),
    Full(Heard),
    Denied(Reason),
}

// The values that come with an answer: a segment's with what its sender meant by a repeat, a segment's alone, a
// transport number alone, or none.
#[derive(Clone, Copy)]
pub enum Returned {
    Sent(Heard, Repetition),
    Segment(Heard),
    Number(u16),
    Nothing,
}

// A row of the table: the number, the name and the values returned.
#[derive(Clone, Copy)]
struct Row(u8, &'static str, Returned);

// The numbers of the two answers that can be given before there is a collector.
pub const LIMITS: u8 = 25;

pub const STATE: u8 = 26;

fn refusal_row(refusal: Refusal) -> Row
    ensures { Reads result (refusal_row refusal) }
{
    match refusal {
        Refusal::Length => Row(10, "LENGTH", Returned::Nothing),
        Refusal::NoCheck => Row(11, "NOCHECK", Returned::Nothing),
        Refusal::BadCheck => Row(12, "BADCHECK", Returned::Nothing),
        Refusal::Kind => Row(13, "KIND", Returned::Nothing),
        Refusal::NoSegment => Row(14, "NOSEGMENT", Returned::Nothing),
        Refusal::Address => Row(15, "ADDRESS", Returned::Nothing),
        Refusal::Size => Row(16, "SIZE", Returned::Nothing),
    }
}

fn reason_row(reason: Reason) -> Row
    ensures { Reads result (reason_row reason) }
{
    match reason {
        Reason::NotHeld => Row(19, "NOTHELD", Returned::Nothing),
        Reason::Unfinished => Row(20, "UNFINISHED", Returned::Nothing),
        Reason::Header => Row(21, "HEADER", Returned::Nothing),
        Reason::Duplicate => Row(22, "DUPLICATE", Returned::Nothing),
        Reason::NotFound => Row(24, "NOTFOUND", Returned::Nothing),
        Reason::Limits => Row(LIMITS, "LIMITS", Returned::Nothing),
        Reason::State => Row(STATE, "STATE", Returned::Nothing),
    }
}

fn row_of(answer: Answer) -> Row
    ensures { Reads result (row_of answer) }
{
    match answer {
        Answer::Stored(heard, meant) => Row(0, "STORED", Returned::Sent(heard, meant)),
        Answer::Complete(heard, meant) => Row(1, "COMPLETE", Returned::Sent(heard, meant)),
        Answer::Repeat(heard, meant) => Row(2, "REPEAT", Returned::Sent(heard, meant)),
        Answer::Dropped(number) => Row(3, "DROPPED", Returned::Number(number)),
        Answer::Refused(refusal) => refusal_row(refusal),
        Answer::Conflict(heard) => Row(17, "CONFLICT", Returned::Segment(heard)),
        Answer::Full(heard) => Row(18, "FULL", Returned::Segment(heard)),
        Answer::Denied(reason) => reason_row(reason),
    }
}

// The number of an answer in document 01's table.
pub fn number_of(answer: Answer) -> u8
    ensures { result ≡ number_of answer }
{
    row_of(answer).0
}

// The name of an answer in document 01's table.
pub fn name_of(answer: Answer) -> &'static str
    ensures { Spells result.now (name_of answer) }
{
    row_of(answer).1
}

// The values that document 01's table returns with an answer.
pub fn returned_with(answer: Answer) -> Returned
    ensures { result ≡ returned_with answer }
{
    row_of(answer).2
}
