// The parameter list of a whole MOT header, which comes from the air and may hold anything: the core fields, Priority,
// ContentName, or why the list is refused; and whether a name that is asked for is the header's name. A reading is one
// definition (specs/Parameters.antt) in the words of document 01, "Parameters and names", after EN 301 234 V1.2.1,
// clauses 5.1 and 5.2, with the single parameters and the matching of names from TS 101 498-1, clause 5.4. No function
// that others call asks anything of its bytes but that the core's 7 are there, as they are in every finished header,
// and no byte past the header is looked at.
#![tactic(auto)]

ghost use Rattle.std.specs.Prelude.{◌≡◌, ◌≤◌, ◌<◌, length};
ghost use Rattle.cut.specs.Requirement.{header_least};
ghost use Rattle.header.specs.Parameters.{length_at, within, found_at, width_fits, single, priority_of, name_of, fields_of, read_header, name_in};
ghost use Rattle.header.specs.Names.{unslashed, name_matches};
ghost use Rattle.header.specs.laws.Scan.{note, scan_header, Inside};

// Bytes of the core, before the first parameter: the shortest header is its core.
pub const CORE: usize = cut::HEADER_LEAST;

// An identifier has 6 bits.
const IDENTIFIERS: usize = 64;

// One parameter: its identifier, where its data starts in the header, and how many bytes it has.
#[derive(Clone, Copy)]
pub struct Parameter {
    pub identifier: u8,
    pub start: usize,
    pub size: usize,
}

// Where ContentName's data stands: where it starts in the header, and how many bytes it has.
#[derive(Clone, Copy, Default)]
pub struct Place {
    pub start: usize,
    pub size: usize,
}

// What a header says: the core's fields, Priority's byte, and where its name stands.
#[derive(Clone, Copy)]
pub struct Fields {
    pub body_size: u32,
    pub header_size: u16,
    pub content_type: u8,
    pub content_sub_type: u16,
    pub priority: Option<u8>,
    pub name: Option<Place>,
}

// Why a header is refused: its list is broken; a single parameter comes twice.
#[derive(Clone, Copy)]
pub enum Refusal {
    Header,
    Duplicate,
}

// What one pass over the list has noted so far.
#[derive(Clone, Copy, Default)]
struct Notes {
    repeated: bool,
    priority: Option<Parameter>,
    name: Option<Parameter>,
}

// A parameter, if its data ends by `end`.
#[tactic(auto, unfolding(crate::specs::Parameters::within))]
fn whole(end: usize, identifier: u8, start: usize, size: usize) -> Option<Parameter>
    ensures { result ≡ within end (record { identifier = identifier; start = start; size = size }) }
{
    let room = end.checked_sub(start)?;
    if room < size {
        return None;
    }
    Some(Parameter {
        identifier,
        start,
        size,
    })
}

// A parameter whose length, of one byte or two, stands at `at`.
#[tactic(auto, unfolding(crate::specs::Parameters::within, crate::specs::Parameters::length_at))]
fn measured_at(header: &[u8], identifier: u8, at: usize) -> Option<Parameter>
    ensures { result ≡ within (length header.now) (length_at header.now identifier at) }
{
    let end = header.len();
    let short = usize::from(*header.get(at)?);
    if short < 128 {
        return whole(end, identifier, at + 1, short);
    }
    let low = usize::from(*header.get(at + 1)?);
    whole(end, identifier, at + 2, short % 128 * 256 + low)
}

// The parameter that begins at `at`, or none where it runs past the header's end.
#[tactic(auto, unfolding(crate::specs::Parameters::found_at, crate::specs::Parameters::parameter_at))]
pub fn parameter_at(header: &[u8], at: usize) -> Option<Parameter>
    ensures { result ≡ found_at header.now at }
{
    let end = header.len();
    let first = *header.get(at)?;
    let identifier = first % 64;
    match first / 64 {
        0 => whole(end, identifier, at + 1, 0),
        1 => whole(end, identifier, at + 1, 1),
        2 => whole(end, identifier, at + 1, 4),
        _ => measured_at(header, identifier, at + 1),
    }
}

// Whether a parameter with this identifier may come only once.
#[tactic(auto, unfolding(crate::specs::Parameters::single))]
fn is_single(identifier: u8) -> bool
    ensures { result ≡ single identifier }
{
    match identifier {
        0x07 | 0x0A | 0x0C | 0x21 | 0x23 => true,
        0x10..=0x11 => true,
        _ => false,
    }
}

// Whether a parameter with this identifier may have so many bytes of data.
#[tactic(auto, unfolding(crate::specs::Parameters::width_fits))]
fn width_fits(identifier: u8, size: usize) -> bool
    ensures { result ≡ width_fits identifier size }
{
    match identifier {
        0x0A => size == 1,
        0x0C => 0 < size,
        _ => true,
    }
}

// One more parameter noted, whose identifier has come before or not.
#[tactic(auto, unfolding(crate::specs::laws::Scan::note))]
fn noted(notes: Notes, parameter: Parameter, before: bool) -> Notes
    ensures { result ≡ note notes parameter before }
{
    let noted = Notes {
        repeated: notes.repeated || before && is_single(parameter.identifier),
        ..notes
    };
    match parameter.identifier {
        0x0A => Notes {
            priority: Some(parameter),
            ..noted
        },
        0x0C => Notes {
            name: Some(parameter),
            ..noted
        },
        _ => noted,
    }
}

// One pass over the list.
fn note_all(header: &[u8]) -> Result<Notes, Refusal>
    ensures { result ≡ scan_header header.now }
{
    let mut seen = [false; IDENTIFIERS];
    let mut notes = Notes::default();
    let mut at = CORE;
    // From parameter to parameter: no range and no iterator of the library steps so.
    while at < header.len() {
        let parameter = parameter_at(header, at).ok_or(Refusal::Header)?;
        if !width_fits(parameter.identifier, parameter.size) {
            return Err(Refusal::Header);
        }
        let identifier = usize::from(parameter.identifier);
        notes = noted(notes, parameter, seen[identifier]);
        seen[identifier] = true;
        at = parameter.start + parameter.size;
    }
    Ok(notes)
}

// Priority's byte: its data is one byte, which lies inside the header.
fn priority_of(header: &[u8], found: Option<Parameter>) -> Option<u8>
    requires { Inside (length header.now) found }
    ensures { result ≡ priority_of header.now found }
{
    Some(header[found?.start])
}

// Where ContentName's data stands.
fn name_from(found: Option<Parameter>) -> Option<Place>
    ensures { result ≡ name_of found }
{
    let Parameter { start, size, .. } = found?;
    Some(Place { start, size })
}

#[tactic(auto, unfolding(crate::specs::Parameters::fields_of))]
fn fields_of(header: &[u8], notes: Notes) -> Fields
    requires { (header_least ≤ length header.now) × Inside (length header.now) notes.priority }
    ensures { result ≡ fields_of header.now notes.priority notes.name }
{
    Fields {
        body_size: core_fields::body_size(header),
        header_size: core_fields::header_size(header),
        content_type: core_fields::content_type(header),
        content_sub_type: core_fields::content_sub_type(header),
        priority: priority_of(header, notes.priority),
        name: name_from(notes.name),
    }
}

// What a whole header says, or why it is refused.
pub fn read(header: &[u8]) -> Result<Fields, Refusal>
    requires { header_least ≤ length header.now }
    ensures { result ≡ read_header header.now }
{
    let notes = note_all(header)?;
    if notes.repeated {
        return Err(Refusal::Duplicate);
    }
    Ok(fields_of(header, notes))
}

// Where the name's data stands in a header that reads; a refused header has no name.
pub fn name_of(header: &[u8]) -> Option<Place>
    requires { header_least ≤ length header.now }
    ensures { result ≡ name_in (read_header header.now) }
{
    read(header).ok()?.name
}

// A name without one leading slash.
#[tactic(auto, unfolding(crate::specs::Names::unslashed))]
fn without_slash(name: &[u8]) -> &[u8]
    ensures { result.now ≡ unslashed name.now }
{
    match name {
        [b'/', rest @ ..] => rest,
        _ => name,
    }
}

// Whether ContentName's data has the name that is asked for, which comes without the character set byte.
#[tactic(auto, unfolding(crate::specs::Names::name_matches, crate::specs::Names::unslashed))]
pub fn name_matches(name_data: &[u8], asked: &[u8]) -> bool
    ensures { result ≡ name_matches name_data.now asked.now }
{
    let name = name_data.get(1..).unwrap_or_default();
    octets::same(without_slash(name), without_slash(asked))
}
