// One object, one cut (document 01, "One object, one cut"): whether segments of a header and of a body can all come
// from one object within the bounds, cut at one size a part. specs/Requirement.antt says what that means,
// specs/Decision.antt decides it on numbers, and specs/laws/Theorem.antt proves that decision exact. The bounds and the
// types are here; the code stands over it: crate part has one part, and crate object joins the two.
#![tactic(auto)]

pub const HEADER_LEAST: usize = 7;

pub const HEADER_MOST: usize = 1024;

pub const LIMIT_LEAST: usize = 1024;

pub const LIMIT_MOST: usize = 1048576;

pub const SIZE_LEAST: usize = 16;

pub const SIZE_MOST: usize = 8189;

pub const HEADER_NUMBERS: usize = 64;

pub const BODY_NUMBERS: usize = 1024;

// What header segment 0 says: BodySize and HeaderSize.
#[derive(Clone, Copy)]
pub struct Sizes {
    pub body: usize,
    pub header: usize,
}

// The bounds of a part: its length, and how many segment numbers it has. Where least and most meet, its length is
// known.
#[derive(Clone, Copy)]
pub struct Bounds {
    pub least: usize,
    pub most: usize,
    pub numbers: usize,
}

// What is kept of a part: the size of its cut, 0 while it isn't known; end, 1 + the number of the last segment, 0 while
// it isn't in; tail, the length of that one. That of a part that has no segment yet is the default.
#[derive(Clone, Copy, Default)]
pub struct Record {
    pub size: usize,
    pub end: usize,
    pub tail: usize,
}

// A segment of a part, as it is offered: its number, whether it is the last one, and its bytes.
#[derive(Clone, Copy)]
pub struct Segment<'a> {
    pub number: usize,
    pub last: bool,
    pub bytes: &'a [u8],
}
