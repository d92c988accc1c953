// Finished objects and their names (document 01, "Parameters and names"): ContentName's data as a part
// of a header, and the lowest transport number among the finished objects that have a name. Only the
// headers of finished objects are read, which have their core; else they may be any bytes, and one that
// is refused has no name.
#![tactic(auto)]

ghost use Rattle.std.specs.Prelude.{◌≡◌, ◌+◌, ◌≤◌, length};
ghost use Rattle.cut.specs.Requirement.{header_least};
ghost use Rattle.header.specs.laws.Search.{is_named};
ghost use Rattle.header.specs.Names.{name_data};
ghost use Rattle.name_search.specs.Finding.{lower, found_by_name, CoreIn, Searched};
ghost use Rattle.name_search.specs.laws.Legible.{legible_in};

use header::{Parameter, Place};
use object::{Slot, Stage};

// ContentName's data, as the part of the header that it is; nothing where there is none.
#[tactic(auto, unfolding(header::specs::Names::name_data))]
pub fn name_data(header: &[u8]) -> &[u8]
    requires { header_least ≤ length header.now }
    ensures { result.now ≡ name_data header.now }
{
    let Some(Place { start, size }) = header::name_of(header) else {
        return &header[..0];
    };
    let end = start + size;
    &header[start..end]
}

// A finished object's header, as the part of the store that has it, if it reads; nothing of one that is
// refused, nor of any other slot.
#[tactic(auto, unfolding(crate::specs::laws::Legible::legible_in, crate::specs::laws::Legible::legible))]
fn legible_in(i: usize, slot: Slot, store: &[u8]) -> &[u8]
    requires { CoreIn i slot store.now }
    ensures { result.now ≡ legible_in i slot store.now }
{
    let stage = slot.stage;
    let Stage::Finished(length, _) = stage else {
        return &store[..0];
    };
    let header = slots::start_of(store, cut::HEADER_MOST, i, length);
    match header::read(header) {
        Ok(_) => header,
        Err(_) => &store[..0],
    }
}

// Whether a parameter is the ContentName that is asked for.
#[tactic(auto, unfolding(header::specs::laws::Search::is_named))]
fn is_named(header: &[u8], parameter: Parameter, asked: &[u8]) -> bool
    requires { parameter.start + parameter.size ≤ length header.now }
    ensures { result ≡ is_named header.now asked.now parameter }
{
    let end = parameter.start + parameter.size;
    parameter.identifier == 0x0C && header::name_matches(&header[parameter.start..end], asked)
}

// Of a number that is found, and the one held if there is one, the lower.
fn lower_of(held: Option<u16>, number: u16) -> Option<u16>
    ensures { result ≡ lower held (Some number) }
{
    Some(held.map_or(number, |held| held.min(number)))
}

// The lowest transport number among the finished objects of the first count slots that have a name.
// No number is lower than 0: once it is found, both loops are left at once.
pub fn find(
    asked: &[u8],
    count: usize,
    slots: &[Slot; slots::SLOTS_MOST],
    store: &[u8],
) -> Option<u16>
    requires { Searched count slots.now store.now }
    ensures { result ≡ found_by_name asked.now count slots.now store.now }
{
    let mut lowest = None;
    'slots: for (i, slot) in slots[..count].iter().enumerate() {
        let header = legible_in(i, *slot, store);
        let mut at = header::CORE;
        'parameters: while let Some(parameter) = header::parameter_at(header, at) {
            if is_named(header, parameter, asked) {
                lowest = lower_of(lowest, slot.number);
                if slot.number == 0 {
                    break 'slots;
                }
                break 'parameters;
            }
            at = parameter.start + parameter.size;
        }
    }
    lowest
}
