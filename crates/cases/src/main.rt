// The worked cases of document 01, "Both sides of the line", others at each bound and those of the empty last segment,
// run on the decision of crate `cut` and written with its verdict, one case a line. What must be written comes from the
// independent program, which searches every length and every size (independent/src/bin/cases.rs).
#![tactic(auto)]

ghost use Rattle.std.specs.Prelude.{◌≡◌, true, false, Some, None, ◌<◌};
ghost use Rattle.cases.specs.Pieces.{count_of, kept_with, top_with, goes_with, verdict_of};

use cut::{Record, Sizes};
use std::fmt;

const LIMIT: usize = 12288;

const MOST: usize = 1048576;

// A segment, as far as the decision looks at it.
#[derive(Clone, Copy)]
struct Piece {
    number: u16,
    last: bool,
    length: usize,
}

// What the decision makes of a case.
#[derive(Clone, Copy)]
enum Verdict {
    Conflicts,
    Fits,
    Completes,
}

// A header segment, what it says if it is number 0, and two body segments, the second one new.
#[derive(Clone, Copy)]
struct Case {
    limit: usize,
    core: Option<Sizes>,
    header: Option<Piece>,
    first: Option<Piece>,
    second: Option<Piece>,
}

fn full(number: u16, length: usize) -> Piece
    ensures { result ≡ record { number = number; last = false; length = length } }
{
    Piece {
        number,
        last: false,
        length,
    }
}

fn last(number: u16, length: usize) -> Piece
    ensures { result ≡ record { number = number; last = true; length = length } }
{
    Piece {
        number,
        last: true,
        length,
    }
}

fn count_of(piece: Option<Piece>) -> usize
    ensures { (result ≡ count_of piece) × (result < 2) }
{
    piece.is_some() as usize
}

fn kept_with(piece: Option<Piece>, kept: Record) -> Record
    ensures { result ≡ kept_with piece kept }
{
    piece.map_or(kept, |piece| {
        part::record::add(piece.last, piece.number as usize, piece.length, kept)
    })
}

fn top_with(piece: Option<Piece>, top: usize) -> usize
    ensures { result ≡ top_with piece top }
{
    piece.map_or(top, |piece| {
        part::record::add_top(piece.last, piece.number as usize, top)
    })
}

fn goes_with(piece: Option<Piece>, top: usize, kept: Record) -> bool
    ensures { result ≡ goes_with piece top kept }
{
    piece.is_none_or(|piece| part::record::joins(0 < top, piece.last, piece.length, kept))
}

// What comes of the second body segment, where the header segment and the first one are held.
#[tactic(auto, unfolding(crate::specs::Pieces::verdict_of))]
fn verdict_of(case: Case) -> Verdict
    ensures { result ≡ verdict_of case.limit case.core case.header case.first case.second }
{
    let core = case.core;
    let headers = kept_with(case.header, Record::default());
    let held = kept_with(case.first, Record::default());
    let top = top_with(case.first, 0);
    if !goes_with(case.second, top, held) {
        return Verdict::Conflicts;
    }
    let bodies = kept_with(case.second, held);
    if !object::decision::suits(
        case.limit,
        core,
        top_with(case.header, 0),
        headers,
        top_with(case.second, top),
        bodies,
    ) {
        return Verdict::Conflicts;
    }
    let count = count_of(case.first) + count_of(case.second);
    if object::decision::finished(core, count_of(case.header), headers, count, bodies) {
        return Verdict::Completes;
    }
    Verdict::Fits
}

// ---- a case, written

impl fmt::Display for Verdict {
    fn fmt<W: fmt::Write>(&self, f: &mut fmt::Formatter<W>) -> fmt::Result {
        f.write_str(match self {
            Verdict::Conflicts => "conflicts",
            Verdict::Fits => "fits",
            Verdict::Completes => "completes",
        })
    }
}

// Each text is a write of its own, and where one can't be written the others go on.
impl Piece {
    fn say(&self, output: &impl Print, part: &str) {
        let number = self.number;
        let flag = if self.last { "last" } else { "not last" };
        let length = self.length;
        let _ = print!(output; "; {part} {number}");
        let _ = print!(output; ", {flag}");
        let _ = print!(output; ", length {length}");
    }
}

impl Case {
    fn say(&self, output: &impl Print) {
        let case = *self;
        let limit = case.limit;
        let _ = print!(output; "limit {limit}");
        if let Some(piece) = case.header {
            piece.say(output, "header");
        }
        if let Some(Sizes { body, header }) = case.core {
            let _ = print!(output; ", HeaderSize {header}");
            let _ = print!(output; ", BodySize {body}");
        }
        if let Some(piece) = case.first {
            piece.say(output, "body");
        }
        if let Some(piece) = case.second {
            piece.say(output, "body");
        }
        let verdict = verdict_of(case);
        let _ = println!(output; ": {verdict}");
    }
}

fn say(output: &impl Print, cases: &[Case]) {
    for case in cases {
        case.say(output);
    }
}

// ---- the cases

fn header_alone(header: Piece) -> Case
    ensures { result ≡ record { limit = 12288; core = None; header = Some header; first = None; second = None } }
{
    Case {
        limit: LIMIT,
        core: None,
        header: Some(header),
        first: None,
        second: None,
    }
}

// One whose segment 0 says its length, and that there is no body.
fn header_first(header: Piece, size: usize) -> Case
    ensures { result ≡ record {
      limit = 12288;
      core = Some (record { body = 0; header = size });
      header = Some header;
      first = None;
      second = None;
    } }
{
    Case {
        core: Some(Sizes {
            body: 0,
            header: size,
        }),
        ..header_alone(header)
    }
}

fn body_alone(limit: usize, body: Piece) -> Case
    ensures { result ≡ record { limit = limit; core = None; header = None; first = Some body; second = None } }
{
    Case {
        limit,
        core: None,
        header: None,
        first: Some(body),
        second: None,
    }
}

// A whole header of 7 bytes that says BodySize, and body segments.
fn sized(limit: usize, size: usize, first: Option<Piece>, second: Option<Piece>) -> Case
    ensures { result ≡ record {
      limit = limit;
      core = Some (record { body = size; header = 7 });
      header = Some (record { number = 0; last = true; length = 7 });
      first = first;
      second = second;
    } }
{
    Case {
        limit,
        core: Some(Sizes {
            body: size,
            header: 7,
        }),
        header: Some(last(0, 7)),
        first,
        second,
    }
}

fn pair(first: Piece, second: Piece) -> Case
    ensures { result ≡ record {
      limit = 12288;
      core = None;
      header = None;
      first = Some first;
      second = Some second;
    } }
{
    Case {
        second: Some(second),
        ..body_alone(LIMIT, first)
    }
}

fn cases_of_document_01(output: &impl Print) {
    say(
        output,
        &[
            sized(LIMIT, 20, None, None),
            sized(LIMIT, 0, None, None),
            sized(LIMIT, 100, Some(last(3, 10)), None),
            sized(LIMIT, 99, Some(last(3, 10)), None),
            sized(LIMIT, 40, Some(last(3, 10)), None),
            sized(LIMIT, 58, Some(last(3, 10)), None),
            sized(LIMIT, 68, Some(last(3, 20)), None),
            sized(LIMIT, 32, Some(full(0, 16)), Some(full(1, 16))),
            sized(LIMIT, 32, Some(full(0, 16)), Some(last(1, 16))),
            header_first(full(0, 16), 16),
            header_first(full(0, 16), 17),
            header_alone(last(63, 16)),
            header_alone(last(63, 17)),
            header_alone(last(0, 6)),
        ],
    );
}

// A header's numbers and lengths, and the body size that it says.
fn cases_of_headers(output: &impl Print) {
    say(
        output,
        &[
            header_alone(last(64, 7)),
            header_alone(full(62, 16)),
            header_alone(full(63, 16)),
            header_first(last(0, 1024), 1024),
            header_first(last(0, 1025), 1025),
            sized(1024, 1024, None, None),
            sized(1024, 1025, None, None),
            sized(LIMIT, LIMIT, None, None),
            sized(LIMIT, LIMIT + 1, None, None),
            sized(MOST, MOST, None, None),
            sized(MOST, MOST + 1, None, None),
        ],
    );
}

// A body's numbers and sizes, and how far they reach.
fn cases_of_bodies(output: &impl Print) {
    say(
        output,
        &[
            sized(MOST, 16384, Some(full(0, 16)), None),
            sized(MOST, 16385, Some(full(0, 16)), None),
            body_alone(16384, last(1023, 16)),
            body_alone(16384, full(1022, 16)),
            body_alone(16384, full(1023, 16)),
            body_alone(16400, last(1024, 1)),
            body_alone(MOST, last(1023, 16)),
            body_alone(MOST, full(1023, 16)),
            body_alone(MOST, last(1024, 16)),
            body_alone(MOST, full(1024, 16)),
            sized(MOST, MOST, Some(full(0, 8189)), None),
            sized(MOST, MOST, Some(full(0, 8190)), None),
            sized(MOST, 8385536, Some(full(0, 8189)), None),
        ],
    );
}

// The last one alone, number n of length k: n times the greater of 16 and k, and k, at the limit and one or as little
// as can be over.
fn cases_of_the_last_alone(output: &impl Print) {
    say(
        output,
        &[
            body_alone(1024, last(63, 16)),
            body_alone(1024, last(63, 17)),
            body_alone(LIMIT, last(767, 16)),
            body_alone(LIMIT, last(767, 17)),
            body_alone(LIMIT, last(768, 1)),
            body_alone(LIMIT, last(511, 24)),
            body_alone(LIMIT - 1, last(511, 24)),
            body_alone(LIMIT, last(2, 4096)),
            body_alone(LIMIT, last(2, 4097)),
            body_alone(MOST, last(1023, 1024)),
            body_alone(MOST, last(1023, 1025)),
            body_alone(MOST, last(127, 8189)),
            body_alone(MOST, last(128, 8128)),
            body_alone(MOST, last(128, 8129)),
        ],
    );
}

// Two segments of a part: there is one last one, full ones have one length, and the last one is no longer and comes
// after.
fn cases_of_two_segments(output: &impl Print) {
    say(
        output,
        &[
            pair(full(0, 16), full(1, 17)),
            pair(full(0, 17), full(1, 17)),
            pair(last(1, 16), last(2, 16)),
            pair(full(0, 16), last(1, 17)),
            pair(full(0, 17), last(1, 17)),
            pair(full(1, 16), last(1023, 16)),
            pair(full(2, 16), last(1, 16)),
        ],
    );
}

// The empty last segment: with BodySize 0 or before it is said, and with nothing else of the body.
fn cases_of_the_empty_segment(output: &impl Print) {
    say(
        output,
        &[
            body_alone(LIMIT, last(0, 0)),
            body_alone(LIMIT, last(1, 0)),
            body_alone(LIMIT, full(0, 0)),
            header_alone(last(0, 0)),
            sized(LIMIT, 0, Some(last(0, 0)), None),
            sized(LIMIT, 1, Some(last(0, 0)), None),
            sized(LIMIT, LIMIT, Some(last(0, 0)), None),
            sized(MOST, MOST, Some(last(0, 0)), None),
            pair(last(0, 0), last(1, 5)),
            pair(last(1, 5), last(0, 0)),
            pair(last(0, 0), full(1, 16)),
            pair(full(1, 16), last(0, 0)),
        ],
    );
}

fn main(rt: HostRuntime) {
    cases_of_document_01(&rt);
    cases_of_headers(&rt);
    cases_of_bodies(&rt);
    cases_of_the_last_alone(&rt);
    cases_of_two_segments(&rt);
    cases_of_the_empty_segment(&rt);
}
