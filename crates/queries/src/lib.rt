// Questions about objects: what the header of a finished one says, its name as a part of the header
// store, whose a name is, and how many bytes of an object, finished or not, are still to come. A
// question changes nothing; it checks the state before anything else, the counts too.
#![tactic(auto)]

ghost use Rattle.std.specs.Prelude.{◌≡◌};
ghost use Rattle.cut.specs.Missing.{amount_of};
ghost use Rattle.collector.specs.State.{lent_state};
ghost use Rattle.queries.specs.Questions.{sought_as, parameters, name, find};
ghost use Rattle.queries.specs.Missing.{missing};
ghost use Rattle.queries.specs.Said.{reason_of, asked_as};

use answer::{Part, Reason};
use collector::Lent;
use header::{Fields, Refusal};

fn reason_of(refusal: Refusal) -> Reason
    ensures { result ≡ reason_of refusal }
{
    match refusal {
        Refusal::Header => Reason::Header,
        Refusal::Duplicate => Reason::Duplicate,
    }
}

// What the header of a finished object says, or why it is not told: its core fields, Priority's byte,
// and where its name stands in it.
pub fn parameters(lent: &Lent<'_, '_>, number: u16) -> Result<Fields, Reason>
    ensures { result ≡ parameters number (lent_state lent.now) }
{
    let i = lent.locate(number)?;
    header::read(lent.shown_at(Part::Header, i)).map_err(reason_of)
}

// The data of a finished object's name, as the part of the header store that has it, without
// copying; nothing where it has no name or `parameters` refuses.
pub fn name<'stores>(lent: &Lent<'stores, '_>, number: u16) -> &'stores [u8]
    ensures { result.now ≡ name number (lent_state lent.now) }
{
    let Ok(i) = lent.locate(number) else {
        return &lent.header[..0];
    };
    name_search::name_data(lent.shown_at(Part::Header, i))
}

// The lowest transport number among the finished objects that have a name, or why none is told.
pub fn find(lent: &Lent<'_, '_>, asked: &[u8]) -> Result<u16, Reason>
    ensures { result ≡ find asked.now (lent_state lent.now) }
{
    if !lent.is_sound() {
        return Err(Reason::State);
    }
    let collector = lent.collector;
    let found = name_search::find(asked, collector.count, &collector.slots, lent.header);
    found.ok_or(Reason::NotFound)
}

// The number of bytes that a slot keeps so: 1 more, or 0 while it isn't known.
fn amount_of(kept: u32) -> Option<u32>
    ensures { result ≡ amount_of kept }
{
    kept.checked_sub(1)
}

// How many bytes of a number's object are still to come, finished or not, once that is known, or why it is not told:
// what its slot keeps, so that no more is worked out than STATE asks for.
pub fn missing(lent: &Lent<'_, '_>, number: u16) -> Result<Option<u32>, Reason>
    ensures { result ≡ missing number (lent_state lent.now) }
{
    if !lent.is_sound() {
        return Err(Reason::State);
    }
    let Some(i) = slots::find(number, lent.collector.count, &lent.collector.slots) else {
        return Err(Reason::NotHeld);
    };
    Ok(amount_of(lent.collector.slots[i].missing))
}
