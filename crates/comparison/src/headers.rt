// The parameter list of crate `header`: what a header says, field by field, and whether a name is the
// one that is asked for.
ghost use Rattle.std.specs.Prelude.{◌≡◌};
ghost use Rattle.header.specs.Names.{name_matches};
ghost use Rattle.comparison.specs.Headers.{refusal_number, priority_number, said_field, header_field};

use header::{Fields, Refusal};

fn refusal_number(refusal: Refusal) -> u8
    ensures { result ≡ refusal_number refusal }
{
    match refusal {
        Refusal::Header => 21,
        Refusal::Duplicate => 22,
    }
}

fn priority_number(priority: Option<u8>) -> u64
    ensures { result ≡ priority_number priority }
{
    priority.map_or(0, |byte| byte as u64 + 1)
}

#[tactic(auto, unfolding(crate::specs::Headers::said_field))]
fn said_field(fields: Fields, field: u8) -> u64
    ensures { result ≡ said_field fields field }
{
    let name = fields.name.unwrap_or_default();
    match field {
        1 => fields.body_size as u64,
        2 => fields.header_size as u64,
        3 => fields.content_type as u64,
        4 => fields.content_sub_type as u64,
        5 => priority_number(fields.priority),
        6 => name.start as u64,
        7 => name.size as u64,
        _ => 0,
    }
}

// One field of what is read of a header that has its core, as every finished one has.
#[tactic(auto, unfolding(crate::specs::Headers::header_field))]
#[unsafe(no_mangle)]
pub extern "C" fn compared_header(header: &[u8], field: u8) -> u64
    ensures { result ≡ header_field header.now field }
{
    if header.len() < header::CORE {
        return 0;
    }
    match header::read(header) {
        Ok(fields) => said_field(fields, field),
        Err(refusal) => crate::refusal_field(refusal_number(refusal), field),
    }
}

#[unsafe(no_mangle)]
pub extern "C" fn compared_name_matches(name_data: &[u8], asked: &[u8]) -> bool
    ensures { result ≡ name_matches name_data.now asked.now }
{
    header::name_matches(name_data, asked)
}
