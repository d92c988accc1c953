// The decision of crate `cut`: whether one more segment fits what is kept of others, and what is
// kept with it. The numbers that are kept are the caller's.
ghost use Rattle.std.specs.Prelude.{◌≡◌, ◌<◌};
ghost use Rattle.cut.specs.Requirement.{body_size, header_size, segment, sent};
ghost use Rattle.cut.specs.Decision.{accepts};
ghost use Rattle.comparison.specs.Kept.{part_of, core_said, summary_of, kept_of, kept_with, kept_after, kept_field, accepts_of};

use answer::Part;
use cut::{Record, Segment, Sizes};

// What is kept of a part: 1 + the highest number of a full segment, or 0, and its record.
#[derive(Clone, Copy)]
struct Kept {
    top: usize,
    part: Record,
}

fn part_of(part: u8) -> Part
    ensures { result ≡ part_of part }
{
    if part == 0 { Part::Header } else { Part::Body }
}

fn core_said(seen: bool, body: usize, header: usize) -> Option<Sizes>
    ensures { result ≡ core_said seen body header }
{
    seen.then_some(Sizes { body, header })
}

fn kept_of(top: usize, size: usize, end: usize, tail: usize) -> Kept
    ensures { result ≡ kept_of top size end tail }
{
    let part = Record { size, end, tail };
    Kept { top, part }
}

fn kept_with(last: bool, number: usize, length: usize, kept: Kept) -> Kept
    requires { number < 65536 }
    ensures { result ≡ kept_with last number length kept }
{
    Kept {
        top: part::record::add_top(last, number, kept.top),
        part: part::record::add(last, number, length, kept.part),
    }
}

// Whether a segment of a new number fits.
fn accepts(
    part: Part,
    limit: usize,
    core: Option<Sizes>,
    header: Kept,
    body: Kept,
    segment: &Segment<'_>,
) -> bool
    requires { segment.now.number < 65536 }
    ensures { result ≡ accepts part limit core (summary_of header) (summary_of body) (sent segment.now) }
{
    let own = match part {
        Part::Header => header,
        Part::Body => body,
    };
    let length = segment.bytes.len();
    if !part::record::joins(0 < own.top, segment.last, length, own.part) {
        return false;
    }
    let with = kept_with(segment.last, segment.number, length, own);
    let said = object::core_with(part, segment, core);
    let (header, body) = match part {
        Part::Header => (with, body),
        Part::Body => (header, with),
    };
    object::decision::suits(limit, said, header.top, header.part, body.top, body.part)
}

// Whether a segment of a new number fits, one of a header (part 0) or of a body.
#[unsafe(no_mangle)]
pub extern "C" fn compared_accepts(
    part: u8,
    limit: usize,
    seen: bool,
    body: usize,
    header: usize,
    header_top: usize,
    header_size: usize,
    header_end: usize,
    header_tail: usize,
    body_top: usize,
    body_size: usize,
    body_end: usize,
    body_tail: usize,
    number: u16,
    last: bool,
    bytes: &[u8],
) -> bool
    ensures { result ≡ accepts_of (part_of part) limit (core_said seen body header)
        (kept_of header_top header_size header_end header_tail)
        (kept_of body_top body_size body_end body_tail)
        (segment number last bytes.now) }
{
    let core = core_said(seen, body, header);
    let h = kept_of(header_top, header_size, header_end, header_tail);
    let b = kept_of(body_top, body_size, body_end, body_tail);
    let segment = Segment {
        number: number as usize,
        last,
        bytes,
    };
    number < 32768 && accepts(part_of(part), limit, core, h, b, &segment)
}

#[tactic(auto, unfolding(crate::specs::Kept::kept_field))]
fn kept_field(kept: Kept, field: u8) -> usize
    ensures { result ≡ kept_field kept field }
{
    let part = kept.part;
    match field {
        0 => kept.top,
        1 => part.size,
        2 => part.end,
        3 => part.tail,
        _ => 0,
    }
}

// One field of what is kept of a part with one segment more.
#[unsafe(no_mangle)]
pub extern "C" fn compared_kept(
    last: bool,
    number: u16,
    length: usize,
    top: usize,
    size: usize,
    end: usize,
    tail: usize,
    field: u8,
) -> usize
    ensures { result ≡ kept_field (kept_after last number length (kept_of top size end tail)) field }
{
    let mut kept = kept_of(top, size, end, tail);
    if number < 32768 {
        kept = kept_with(last, number as usize, length, kept);
    }
    kept_field(kept, field)
}

#[unsafe(no_mangle)]
pub extern "C" fn compared_body_size(bytes: &[u8]) -> u32
    ensures { result ≡ body_size bytes.now }
{
    core_fields::body_size(bytes)
}

#[unsafe(no_mangle)]
pub extern "C" fn compared_header_size(bytes: &[u8]) -> u16
    ensures { result ≡ header_size bytes.now }
{
    core_fields::header_size(bytes)
}
