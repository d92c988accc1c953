// One group read off the wire (EN 300 401, clause 5.3.3): the segment that it carries and where in
// the group that segment's bytes stand, what its sender meant by a repeat and where the end user
// address stands, or the first refusal in document 01's order. Any bytes of any length are read;
// nothing past them is looked at.
#![tactic(auto)]

ghost use Rattle.std.specs.Prelude.{◌≡◌, ◌+◌, ◌/◌, ◌%◌, ◌≤◌, ◌<◌, length};
ghost use Rattle.wire.specs.Wire.{check_bytes, word_at};
ghost use Rattle.wire.specs.Reading.{kind_of, check_holds, least_size, size_wrong, reading_of, address_of};
ghost use Rattle.wire.specs.laws.Session.{Addressed, segmentation_of, session_of};

use answer::{Heard, Part, Refusal, Repetition};

// Bytes of a group.
pub const GROUP_LEAST: usize = 2;

pub const GROUP_MOST: usize = 8215;

// Bytes of a segment.
pub const SEGMENT_LEAST: usize = 1;

pub const SEGMENT_MOST: usize = 8189;

// Of a segment that is not the last.
pub const FULL_LEAST: usize = 16;

// Bytes of the check word, which ends a group.
const CHECK_BYTES: usize = 2;

// Where bytes stand in a group: where they start, and how many they are.
#[derive(Clone, Copy)]
pub struct Place {
    pub start: usize,
    pub length: usize,
}

// A segment as a group carries it: what an answer says of it, whether it is the last one, and where in the group its
// bytes stand. Beside it, what plays no part in gathering: what the sender meant by a repeat, and where in the group
// the end user address stands.
#[derive(Clone, Copy)]
pub struct Carried {
    pub heard: Heard,
    pub last: bool,
    pub bytes: Place,
    pub repetition: Repetition,
    pub address: Place,
}

// Which part a group carries a segment of, by its type number; none where it is of another kind.
#[tactic(auto, unfolding(crate::specs::Reading::kind_of))]
pub fn kind_of(type_number: u8) -> Option<Part>
    ensures { result ≡ kind_of type_number }
{
    match type_number {
        3 => Some(Part::Header),
        4 => Some(Part::Body),
        0..=2 | 5..=255 => None,
    }
}

// A field of two bytes.
fn word_at(group: &[u8], at: usize) -> u16
    requires { at + 1 < length group.now }
    ensures { result ≡ word_at group.now at }
{
    u16::from_be_bytes([group[at], group[at + 1]])
}

// Whether the check word at the end is the one of everything before it.
#[tactic(auto, unfolding(crate::specs::Reading::check_holds))]
fn check_holds(group: &[u8]) -> bool
    requires { check_bytes ≤ length group.now }
    ensures { result ≡ check_holds group.now }
{
    let end = group.len() - CHECK_BYTES;
    word_at(group, end) == crc::check_word(&group[..end])
}

// The least bytes of a segment: a body of length 0 may be sent as number 0, last, of none.
fn least_size(part: Part, number: u16, last: bool) -> usize
    ensures { result ≡ least_size part number last }
{
    match (part, number, last) {
        (_, _, false) => FULL_LEAST,
        (Part::Header, _, true) => SEGMENT_LEAST,
        (Part::Body, 0, true) => 0,
        (Part::Body, _, true) => SEGMENT_LEAST,
    }
}

// Whether a size field is wrong for the bytes that are left.
#[tactic(auto, unfolding(crate::specs::Reading::size_wrong))]
fn size_wrong(least: usize, size: usize, left: usize) -> bool
    ensures { result ≡ size_wrong least size left }
{
    size < least || size != left || SEGMENT_MOST < size
}

// What the sender meant by a repeat: two indices in byte 1, and a count before the segment's size.
fn repetition_of(indices: u8, segmentation: u16) -> Repetition
    ensures { result ≡ record
        { index = indices % 0x10; continuity = indices / 0x10; count = segmentation / 0x2000 } }
{
    Repetition {
        index: indices % 16,
        continuity: indices / 16,
        count: (segmentation / 8192) as u8,
    }
}

// The rest of a group whose session header is read: its segmentation header, and the segment.
#[tactic(auto, unfolding(crate::specs::Reading::segment_of))]
fn segmentation(
    group: &[u8],
    part: Part,
    field: usize,
    indicator: usize,
) -> Result<Carried, Refusal>
    requires { Addressed group.now field indicator }
    ensures { result ≡ segmentation_of group.now part }
{
    let end = group.len() - CHECK_BYTES;
    let access = field + 2;
    let header = access + 1 + indicator;
    let start = header + 2;
    if end < start {
        return Err(Refusal::Length);
    }
    let sized = word_at(group, header);
    let size = (sized % 8192) as usize;
    let said = word_at(group, field);
    let last = said / 32768 == 1;
    let segment = said % 32768;
    if size_wrong(least_size(part, segment, last), size, end - start) {
        return Err(Refusal::Size);
    }
    Ok(Carried {
        heard: Heard {
            number: word_at(group, access + 1),
            part,
            segment,
        },
        last,
        bytes: Place {
            start,
            length: size,
        },
        repetition: repetition_of(group[1], sized),
        address: Place {
            start: access + 3,
            length: indicator - 2,
        },
    })
}

// The rest of a group whose check word holds and whose part is known.
fn session(group: &[u8], part: Part) -> Result<Carried, Refusal>
    requires { 4 ≤ length group.now }
    ensures { result ≡ session_of group.now part }
{
    let flags = group[0];
    if flags / 32 % 2 == 0 || flags / 16 % 2 == 0 {
        return Err(Refusal::NoSegment);
    }
    let end = group.len() - CHECK_BYTES;
    let field = 2 + (flags / 128) as usize * 2;
    let access = field + 2;
    if end < access + 1 {
        return Err(Refusal::Length);
    }
    let indicator = (group[access] % 16) as usize;
    if group[access] / 16 % 2 == 0 || indicator < 2 {
        return Err(Refusal::Address);
    }
    segmentation(group, part, field, indicator)
}

// What a group carries, or the first refusal in document 01's order.
#[tactic(auto, unfolding(crate::specs::Reading::reading_of))]
pub fn read(group: &[u8]) -> Result<Carried, Refusal>
    ensures { result ≡ reading_of group.now }
{
    if group.len() < GROUP_LEAST || GROUP_MOST < group.len() {
        return Err(Refusal::Length);
    }
    let flags = group[0];
    if flags / 64 % 2 == 0 {
        return Err(Refusal::NoCheck);
    }
    if group.len() < 4 {
        return Err(Refusal::Length);
    }
    if !check_holds(group) {
        return Err(Refusal::BadCheck);
    }
    let part = kind_of(flags % 16).ok_or(Refusal::Kind)?;
    session(group, part)
}

// The end user address of a group, as the part of the group that it stands in; nothing where it has none, as where the
// group is not read.
#[tactic(auto, using(crate::specs::laws::Theorems::inside), unfolding(crate::specs::Reading::address_of))]
pub fn end_user_address(group: &[u8]) -> &[u8]
    ensures { result.now ≡ address_of group.now }
{
    let Ok(carried) = read(group) else {
        return &group[..0];
    };
    let start = carried.address.start;
    let end = start + carried.address.length;
    &group[start..end]
}
