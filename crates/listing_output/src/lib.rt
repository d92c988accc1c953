// The lines that the listing writes (document 01, "The listing program"): one for each answer, one
// for each malformed line, and the five counts at the end. Each is laid over the start of lent
// memory, byte for byte as its definition spells it, and the rest of that memory stays.
#![tactic(auto)]

ghost use Rattle.std.specs.Prelude.{◌≡◌, [], ◌∷◌, ◌++◌, ◌+◌, ◌≤◌, ◌<◌, length};
ghost use Rattle.answer.specs.Letters.{letters as spelling};
ghost use Rattle.answer.specs.Table.{name_of};
ghost use Rattle.octets.specs.Octets.{over};
ghost use Rattle.listing_output.specs.Number.{digit as digit_for, decimal as decimal_of, four_digits};
ghost use Rattle.listing_output.specs.laws.Put.{Put};
ghost use Rattle.listing_output.specs.Text.{space, text_of, part_of, segment_text, meant_by, values_of, answer_text, malformed_text, counts_text};

use answer::{Answer, Heard, Part, Repetition, Returned};
use counts::Counts;

// A line that is being written: the memory that is lent for it, and where its next field starts.
#[derive(Drop)]
struct Line<'a> {
    out: &'a mut [u8],
    at: usize,
}

#[tactic(auto, unfolding(crate::specs::Number::digit))]
fn digit(value: u16) -> u8
    requires { value < 16 }
    ensures { result ≡ digit_for value }
{
    match value {
        0..=9 => b'0' + value as u8,
        _ => b'a' + (value - 10) as u8,
    }
}

impl Line<'_> {
    fn push(&mut self, character: u8)
        requires { self.old.at < length self.old.out.now }
        ensures { Put self.old self.new («character» ∷ []) }
    {
        self.out[self.at] = character;
        self.at += 1;
    }

    // A field and what ends it.
    fn put(&mut self, field: &[u8], end: u8)
        requires { self.old.at + length field.now < length self.old.out.now }
        ensures { Put self.old self.new (field.now ++ («end» ∷ [])) }
    {
        let out = &mut *self.out;
        octets::copy_in(&mut out[self.at..], field);
        self.at += field.len();
        self.push(end);
    }

    // The digits in front of the last one, if there are any, and then that.
    fn put_digits(&mut self, number: u64)
        requires { self.old.at + length (decimal_of number) ≤ length self.old.out.now }
        ensures { Put self.old self.new (decimal_of number) }
    {
        if 10 <= number {
            self.put_digits(number / 10);
        }
        self.push(b'0' + (number % 10) as u8);
    }

    fn put_decimal(&mut self, number: u64, end: u8)
        requires { self.old.at + 21 ≤ length self.old.out.now }
        ensures put { Put self.old self.new (decimal_of number ++ («end» ∷ [])) }
        ensures upper_bound { self.new.at ≤ self.old.at + 21 }
    {
        self.put_digits(number);
        self.push(end);
    }

    fn put_hex(&mut self, number: u16)
        requires { self.old.at + 5 ≤ length self.old.out.now }
        ensures put { Put self.old self.new (four_digits number ++ (space ∷ [])) }
        ensures upper_bound { self.new.at ≤ self.old.at + 5 }
    {
        let digits = [
            digit(number / 4096),
            digit(number / 256 % 16),
            digit(number / 16 % 16),
            digit(number % 16),
        ];
        self.put(&digits, b' ');
    }

    fn put_part(&mut self, part: Part)
        requires { self.old.at + 2 ≤ length self.old.out.now }
        ensures put { Put self.old self.new (part_of part ++ (space ∷ [])) }
        ensures upper_bound { self.new.at ≤ self.old.at + 2 }
    {
        match part {
            Part::Header => self.put(b"H", b' '),
            Part::Body => self.put(b"B", b' '),
        }
    }

    fn put_name(&mut self, answer: Answer)
        requires { self.old.at + 11 ≤ length self.old.out.now }
        ensures put { Put self.old self.new (spelling (name_of answer) ++ (space ∷ [])) }
        ensures upper_bound { self.new.at ≤ self.old.at + 11 }
    {
        self.put(answer::name_of(answer).as_bytes(), b' ');
    }

    // A segment's own values, each with a space behind it.
    fn put_segment(&mut self, heard: Heard)
        requires { self.old.at + 28 ≤ length self.old.out.now }
        ensures put { Put self.old self.new (segment_text heard) }
        ensures upper_bound { self.new.at ≤ self.old.at + 28 }
    {
        self.put_hex(heard.number);
        self.put_part(heard.part);
        self.put_decimal(u64::from(heard.segment), b' ');
    }

    // What its sender meant by a repeat, at the end of a line.
    fn put_repetition(&mut self, repetition: Repetition)
        requires { self.old.at + 63 ≤ length self.old.out.now }
        ensures put { Put self.old self.new (text_of (meant_by repetition)) }
        ensures upper_bound { self.new.at ≤ self.old.at + 63 }
    {
        self.put_decimal(u64::from(repetition.index), b' ');
        self.put_decimal(u64::from(repetition.continuity), b' ');
        self.put_decimal(u64::from(repetition.count), b'\n');
    }

    fn put_returned(&mut self, returned: Returned)
        requires { self.old.at + 91 ≤ length self.old.out.now }
        ensures put { Put self.old self.new (text_of (values_of returned)) }
        ensures upper_bound { self.new.at ≤ self.old.at + 91 }
    {
        match returned {
            Returned::Sent(heard, repetition) => {
                self.put_segment(heard);
                self.put_repetition(repetition);
            }
            Returned::Segment(heard) => {
                self.put_segment(heard);
                self.put(b"- - -", b'\n');
            }
            Returned::Number(number) => {
                self.put_hex(number);
                self.put(b"- - - - -", b'\n');
            }
            Returned::Nothing => self.put(b"- - - - - -", b'\n'),
        }
    }
}

// The line for an answer to the line of this number; and how long it is.
pub fn write_answer(line: u64, answer: Answer, out: &mut [u8; 128]) -> usize
    ensures value { result ≡ length (answer_text line answer) }
    ensures out_after { out.new ≡ over out.old 0 (answer_text line answer) }
    ensures upper_bound { result ≤ 128 }
{
    let mut text = Line { out, at: 0 };
    text.put_decimal(line, b' ');
    text.put_name(answer);
    text.put_returned(answer::returned_with(answer));
    text.at
}

// LINE, for the malformed line of this number; and how long it is.
pub fn write_malformed(line: u64, out: &mut [u8; 128]) -> usize
    ensures value { result ≡ length (malformed_text line) }
    ensures out_after { out.new ≡ over out.old 0 (malformed_text line) }
    ensures upper_bound { result ≤ 128 }
{
    let mut text = Line { out, at: 0 };
    text.put_decimal(line, b' ');
    text.put(b"LINE - - - - - -", b'\n');
    text.at
}

// The five counts, at the end; and how long that line is.
pub fn write_counts(counts: Counts, out: &mut [u8; 128]) -> usize
    ensures value { result ≡ length (counts_text counts) }
    ensures out_after { out.new ≡ over out.old 0 (counts_text counts) }
    ensures upper_bound { result ≤ 128 }
{
    let mut text = Line { out, at: 0 };
    text.put(b"T", b' ');
    text.put_decimal(u64::from(counts.taken), b' ');
    text.put_decimal(u64::from(counts.repeated), b' ');
    text.put_decimal(u64::from(counts.refused), b' ');
    text.put_decimal(u64::from(counts.completed), b' ');
    text.put_decimal(u64::from(counts.dropped), b'\n');
    text.at
}
