// The decision on an object's numbers (crate cut, specs/Decision): the bounds of its parts, whether the sizes that
// header segment 0 says are within them, whether what is kept of both parts suits some object and cut, whether all is
// in, and how much is missing (crate cut, specs/MissingKept).
ghost use Rattle.std.specs.Prelude.{◌≡◌, ◌<◌, IfSome};
ghost use Rattle.cut.specs.Decision.{core_fits, suits, finished};
ghost use Rattle.cut.specs.Kept.{bounds_of};
ghost use Rattle.cut.specs.Missing.{amount_kept};
ghost use Rattle.cut.specs.MissingKept.{length_kept, missing_by, Narrow, Small};

use crate::Tally;
use answer::Part;
use cut::{BODY_NUMBERS, Bounds, HEADER_LEAST, HEADER_MOST, HEADER_NUMBERS, Record, Sizes};

#[tactic(auto, unfolding(cut::specs::Kept::bounds_of))]
pub fn bounds_of(part: Part, limit: usize, core: Option<Sizes>) -> Bounds
    ensures { result ≡ bounds_of part limit core }
{
    match (part, core) {
        (Part::Header, None) => Bounds {
            least: HEADER_LEAST,
            most: HEADER_MOST,
            numbers: HEADER_NUMBERS,
        },
        (Part::Header, Some(sizes)) => Bounds {
            least: sizes.header,
            most: sizes.header,
            numbers: HEADER_NUMBERS,
        },
        (Part::Body, None) => Bounds {
            least: 0,
            most: limit,
            numbers: BODY_NUMBERS,
        },
        (Part::Body, Some(sizes)) => Bounds {
            least: sizes.body,
            most: sizes.body,
            numbers: BODY_NUMBERS,
        },
    }
}

#[tactic(auto, unfolding(cut::specs::Decision::core_fits))]
pub fn core_fits(limit: usize, core: Option<Sizes>) -> bool
    ensures { result ≡ core_fits limit core }
{
    core.is_none_or(|sizes| {
        HEADER_LEAST <= sizes.header && sizes.header <= HEADER_MOST && sizes.body <= limit
    })
}

// Whether what is kept of the header and of the body, a top and a record of each, suits some object and cut.
#[tactic(auto, unfolding(cut::specs::Decision::suits))]
pub fn suits(
    limit: usize,
    core: Option<Sizes>,
    header_top: usize,
    header: Record,
    body_top: usize,
    body: Record,
) -> bool
    ensures { result ≡ suits limit core header_top header body_top body }
{
    core_fits(limit, core)
        && part::bounds::possible(bounds_of(Part::Header, limit, core), header_top, header)
        && part::bounds::possible(bounds_of(Part::Body, limit, core), body_top, body)
}

// Whether every segment of the object is in, with so many of the header and of the body, which may have none.
pub fn finished(
    core: Option<Sizes>,
    headers: usize,
    header: Record,
    bodies: usize,
    body: Record,
) -> bool
    ensures { result ≡ finished core headers header bodies body }
{
    core.is_some_and(|sizes| {
        part::record::whole(headers, header)
            && (sizes.body == 0 || part::record::whole(bodies, body))
    })
}

// A part's length: from the core, or from its last segment.
fn length_of(part: Part, core: Option<Sizes>, kept: Record) -> Option<u32>
    requires { Narrow core × Small kept }
    ensures value { result ≡ length_kept part core kept }
    ensures low { IfSome result (λ bytes. bytes < 0x10000000) }
{
    let Some(sizes) = core else {
        return part::record::length(kept);
    };
    let length = match part {
        Part::Header => sizes.header,
        Part::Body => sizes.body,
    };
    Some(length as u32)
}

// How many bytes are still to come, once both lengths are known: of an object whose marks come to the tally, with the
// records of its header and its body.
#[tactic(auto, unfolding(cut::specs::MissingKept::missing_by))]
fn missing_by(tally: Tally, header: Record, body: Record) -> Option<u32>
    requires { Narrow tally.core × Small header × Small body }
    ensures value { result ≡ missing_by tally.core tally.headers header tally.bodies body }
    ensures low { IfSome result (λ bytes. bytes < 0x20000000) }
{
    let header_length = length_of(Part::Header, tally.core, header)? as usize;
    let body_length = length_of(Part::Body, tally.core, body)? as usize;
    let came = part::record::arrived(tally.headers, header)
        + part::record::arrived(tally.bodies, body);
    Some((header_length + body_length).saturating_sub(came) as u32)
}

// The same as a slot keeps it: 1 more, or 0 while it isn't known.
pub fn missing(tally: Tally, header: Record, body: Record) -> u32
    requires { Narrow tally.core × Small header × Small body }
    ensures { result ≡ amount_kept (missing_by tally.core tally.headers header tally.bodies body) }
{
    missing_by(tally, header, body).map_or(0, |bytes| bytes + 1)
}
