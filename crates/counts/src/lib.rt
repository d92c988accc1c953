// The five counts (document 01, "Five counts"): each is the number of such answers since opening,
// and stays at 2147483647. Which answers are counted where is one definition, by cases on the
// answer.
#![tactic(auto)]

ghost use Rattle.std.specs.Prelude.{◌≡◌};
ghost use Rattle.counts.specs.Counted.{risen, none_yet, counted, within};

use answer::Answer;

#[derive(Clone, Copy, Default)]
pub struct Counts {
    pub taken: u32,
    pub repeated: u32,
    pub refused: u32,
    pub completed: u32,
    pub dropped: u32,
}

// Where a count stays.
const CEILING: u32 = 2147483647;

// As opening leaves them.
pub fn none_yet() -> Counts
    ensures { result ≡ none_yet }
{
    Counts::default()
}

// One more, up to the ceiling.
#[tactic(auto, unfolding(crate::specs::Counted::risen))]
fn risen(count: u32) -> u32
    ensures { result ≡ risen count }
{
    if count < CEILING { count + 1 } else { count }
}

// The counts after an answer.
pub fn counted(answer: Answer, counts: Counts) -> Counts
    ensures { result ≡ counted answer counts }
{
    match answer {
        Answer::Stored(..) => Counts {
            taken: risen(counts.taken),
            ..counts
        },
        Answer::Complete(..) => Counts {
            taken: risen(counts.taken),
            completed: risen(counts.completed),
            ..counts
        },
        Answer::Repeat(..) => Counts {
            repeated: risen(counts.repeated),
            ..counts
        },
        Answer::Dropped(_) => Counts {
            dropped: risen(counts.dropped),
            ..counts
        },
        Answer::Refused(_) | Answer::Conflict(_) | Answer::Full(_) => Counts {
            refused: risen(counts.refused),
            ..counts
        },
        Answer::Denied(_) => counts,
    }
}

// Whether no count lies outside 0 to 2147483647.
#[tactic(auto, unfolding(crate::specs::Counted::within))]
pub fn are_within(counts: Counts) -> bool
    ensures { result ≡ within counts }
{
    counts.taken <= CEILING
        && counts.repeated <= CEILING
        && counts.refused <= CEILING
        && counts.completed <= CEILING
        && counts.dropped <= CEILING
}
