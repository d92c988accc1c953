// The listing program (document 01, "The listing program"): groups and drops from standard input,
// one a line, and what is answered to each on standard output. A line's answer is written before
// more of the input is read. All memory is lent here, once, so none grows with the input. What an
// input leaves is what its lines leave, each done once, in order (`lines-done` in
// specs/laws/Theorems.antt).
#![tactic(auto)]

ghost use Rattle.std.specs.Prelude.{◌≡◌, ◌≤◌, length, take};
ghost use Rattle.listing.specs.Listed.{Reads, left_of, line_answer, served_line};
ghost use Rattle.listing.specs.Listed.{listed, line_listed, input_listed, end_listed};

use answer::Answer;
use collector::Collector;
use counts::Counts;
use listing_input::Line;
use std::io::{Read, Stdin, Stdout};

// What the collector is opened with.
const SLOTS: usize = 2;

const LIMIT: usize = 12288;

const HEADER_STORE: usize = SLOTS * Collector::HEADER_MOST;

const BODY_STORE: usize = SLOTS * LIMIT;

const MARKS: usize = SLOTS * Collector::SLOT_MARKS;

// The collector and its counts.
#[derive(Clone, Copy)]
struct Held {
    collector: Collector,
    counts: Counts,
}

// What is carried from line to line: how many lines came, how many characters of the next one are
// kept, and what is held.
#[derive(Clone, Copy)]
struct Listing {
    lines: u64,
    kept: usize,
    held: Held,
}

// How far the listing is, with all the memory that it has: of the line that is kept, of its group,
// and the collector's stores and marks.
#[derive(Drop)]
struct Lister {
    listing: Listing,
    line: [u8; listing_input::LINE_ROOM],
    group: [u8; listing_input::GROUP_MOST],
    header: [u8; HEADER_STORE],
    body: [u8; BODY_STORE],
    marks: [u8; MARKS],
}

// The front of a memory, as far as it is there.
fn front(memory: &[u8], count: usize) -> &[u8]
    ensures { result.now ≡ take count memory.now }
{
    &memory[..count.min(memory.len())]
}

// The first bytes of a line that was laid out. Where they can't be written the listing goes on.
fn write(output: Stdout, out: &[u8; 128], count: usize) {
    let _ = output.write_all(front(out, count));
}

// A line's answer, or LINE where it is malformed.
fn say(output: Stdout, line: u64, answer: Option<Answer>) {
    let mut out = [0u8; 128];
    let count = match answer {
        Some(answer) => listing_output::write_answer(line, answer, &mut out),
        None => listing_output::write_malformed(line, &mut out),
    };
    write(output, &out, count);
}

fn say_counts(output: Stdout, counts: Counts) {
    let mut out = [0u8; 128];
    let count = listing_output::write_counts(counts, &mut out);
    write(output, &out, count);
}

impl Lister {
    // What the line asks for that is kept is done: the answer, and none to a malformed line.
    fn serve(&mut self) -> Option<Answer>
        ensures answer { result ≡ line_answer (listed self.old) }
        ensures left { left_of (listed self.new) ≡ served_line (listed self.old) }
        ensures line { self.new.line ≡ self.old.line }
        ensures lines { self.new.listing.lines ≡ self.old.listing.lines }
    {
        let held = self.listing.held;
        let reply = match listing_input::read(
            front(&self.line, self.listing.kept),
            &mut self.group,
        ) {
            Line::Group(count) => lent_calls::taken(
                held.collector,
                held.counts,
                front(&self.group, count),
                &mut self.header,
                &mut self.body,
                &mut self.marks,
            ),
            Line::Drop(number) => lent_calls::dropped(
                held.collector,
                held.counts,
                number,
                &self.header,
                &self.body,
                &mut self.marks,
            ),
            Line::Malformed => return None,
        };
        self.listing.held = Held {
            collector: reply.collector,
            counts: reply.counts,
        };
        Some(reply.answer)
    }

    // The line that is kept, which a newline or the input's end has ended.
    fn list_line(&mut self, output: Stdout)
        ensures { listed self.new ≡ line_listed (listed self.old) }
    {
        let answer = self.serve();
        self.listing.lines = self.listing.lines.saturating_add(1);
        self.listing.kept = 0;
        say(output, self.listing.lines, answer);
    }

    // The lines that a chunk of the input ends, and the start of the next one.
    fn list_chunk(&mut self, output: Stdout, chunk: &[u8])
        ensures { listed self.new ≡ input_listed chunk.now (listed self.old) }
    {
        let mut from = 0;
        // As far each time as `gather` says: no range and no iterator of the library steps so.
        while from < chunk.len() {
            let gathered = listing_input::gather(chunk, from, &mut self.line, self.listing.kept);
            from = gathered.next;
            self.listing.kept = gathered.kept;
            if gathered.whole {
                self.list_line(output);
            }
        }
    }

    // Reads once, and lists what came: so many bytes, and none at the input's end, or where the read
    // fails.
    fn list_some(&mut self, output: Stdout, mut input: Stdin, chunk: &mut [u8; 65536]) -> usize
        ensures count_in_bounds { result ≤ length chunk.new }
        ensures listing_after { listed self.new
            ≡ input_listed (take result chunk.new) (listed self.old) }
    {
        let count = input.read(chunk).unwrap_or(0);
        self.list_chunk(output, front(chunk, count));
        count
    }

    // Lists to the input's end. A proved loop has to end, and nothing says that the input does: no
    // run takes as many turns as there are.
    fn list_all(&mut self, output: Stdout, input: Stdin)
        ensures { Reads (listed self.old) (listed self.new) }
    {
        let mut chunk = [0u8; 65536];
        for _ in 0..u64::MAX {
            if self.list_some(output, input, &mut chunk) == 0 {
                break;
            }
        }
    }

    // The input's end ends a line of which there are characters.
    fn list_end(&mut self, output: Stdout)
        ensures { listed self.new ≡ end_listed (listed self.old) }
    {
        if 0 < self.listing.kept {
            self.list_line(output);
        }
    }
}

fn main(rt: HostRuntime) {
    let output = rt.stdout();
    let header = [0u8; HEADER_STORE];
    let body = [0u8; BODY_STORE];
    let mut marks = [0u8; MARKS];
    let opened = lent_calls::opened(LIMIT, SLOTS, counts::none_yet(), &header, &body, &mut marks);
    let held = Held {
        collector: opened.collector,
        counts: opened.counts,
    };
    let mut lister = Lister {
        listing: Listing {
            lines: 0,
            kept: 0,
            held,
        },
        line: [0u8; listing_input::LINE_ROOM],
        group: [0u8; listing_input::GROUP_MOST],
        header,
        body,
        marks,
    };
    lister.list_all(output, rt.stdin());
    lister.list_end(output);
    say_counts(output, lister.listing.held.counts);
}
