// The lines of the listing (document 01, "The listing program"): the input gathered into lines,
// whatever the chunks are that it comes in, and what one line asks for, whatever its characters
// are. A group's bytes are left in lent memory, with the CRC behind them where the line has none; a
// malformed line leaves that memory as it was.
#![tactic(auto)]

ghost use Rattle.std.specs.Prelude.{position, ◌==◌, ◌≡◌, ◌+◌, ◌≤◌, length, take};
ghost use Rattle.octets.specs.Octets.{over};
ghost use Rattle.listing_input.specs.Hex.{digit_of, all_digits, is_hex, byte_of, bytes_of};
ghost use Rattle.listing_input.specs.Split.{newline};
ghost use Rattle.listing_input.specs.Gather.{room_for, gathered, line_after};
ghost use Rattle.listing_input.specs.Line.{asked_by, asked_of, told, left, word_of, check_of};

// Characters of a line; a longer one is malformed.
pub const LINE_MOST: usize = 16432;

// What is kept of a line that is still to end: enough to tell one that is longer.
pub const LINE_ROOM: usize = LINE_MOST + 1;

// Bytes of a group that a line gives, the CRC behind them counted.
pub const GROUP_MOST: usize = 8217;

// What a line asks for: a group of so many bytes, which stand in the lent memory, to be taken; a
// transport number to be dropped; or neither, which is LINE.
#[derive(Clone, Copy)]
pub enum Line {
    Group(usize),
    Drop(u16),
    Malformed,
}

// What a chunk gives of a line: where the next line starts, how many characters of this one are
// kept, and whether a newline ended it.
#[derive(Clone, Copy)]
pub struct Gathered {
    pub next: usize,
    pub kept: usize,
    pub whole: bool,
}

#[tactic(auto, unfolding(crate::specs::Hex::digit_of))]
fn digit(character: u8) -> Option<u8>
    ensures { result ≡ digit_of «character» }
{
    match character {
        b'0'..=b'9' => Some(character - b'0'),
        b'a'..=b'f' => Some(character - b'a' + 10),
        _ => None,
    }
}

#[tactic(auto, unfolding(crate::specs::Hex::all_digits))]
fn all_digits(text: &[u8]) -> bool
    ensures { result ≡ all_digits text.now }
{
    text.iter().all(|character| digit(*character).is_some())
}

#[tactic(auto, unfolding(crate::specs::Hex::is_hex))]
fn is_hex(text: &[u8]) -> bool
    ensures { result ≡ is_hex text.now }
{
    text.len() % 2 == 0 && all_digits(text)
}

// The byte that two hex digits stand for, the high one first.
#[tactic(auto, unfolding(crate::specs::Hex::byte_of))]
fn byte(high: u8, low: u8) -> u8
    ensures { result ≡ byte_of high low }
{
    digit(high).unwrap_or(0) * 16 + digit(low).unwrap_or(0)
}

// The bytes that hex digits stand for, at the front of the group; and how many they are. Not inlined: where line and
// group are parts of one struct, the compiler couldn't tell that they lie apart, and would read digit by digit.
#[inline(never)]
fn decode(digits: &[u8], group: &mut [u8]) -> usize
    requires { length digits.now ≤ length group.old + length group.old }
    ensures value { result ≡ length (bytes_of digits.now) }
    ensures group_after { group.new ≡ over group.old 0 (bytes_of digits.now) }
{
    for (i, pair) in digits.chunks_exact(2).enumerate() {
        group[i] = byte(pair[0], pair[1]);
    }
    digits.len() / 2
}

// The CRC of the first bytes of the group, behind them; and how many bytes it then has.
fn add_check(group: &mut [u8], count: usize) -> usize
    requires { count + 2 ≤ length group.old }
    ensures value { result ≡ count + 2 }
    ensures group_after { group.new ≡ over group.old count (check_of (take count group.old)) }
{
    let check = crc::check_word(&group[..count]).to_be_bytes();
    octets::copy_in(&mut group[count..], &check);
    count + check.len()
}

fn asked(letter: u8, digits: &[u8], group: &mut [u8]) -> Line
    requires digits_len_bound { length digits.now ≤ 16430 }
    requires group_len { length group.old ≡ 8217 }
    ensures value { result ≡ told (asked_by «letter» digits.now) }
    ensures group_after { group.new ≡ over group.old 0 (left (asked_by «letter» digits.now)) }
{
    match (letter, digits) {
        (b'G', _) => Line::Group(decode(digits, group)),
        (b'B', _) => {
            let count = decode(digits, group);
            Line::Group(add_check(group, count))
        }
        (b'D', &[first, second, third, last]) => {
            Line::Drop(u16::from_be_bytes([byte(first, second), byte(third, last)]))
        }
        _ => Line::Malformed,
    }
}

// What a line asks for; the group's bytes stand in the lent memory afterwards.
pub fn read(line: &[u8], group: &mut [u8; GROUP_MOST]) -> Line
    ensures value { result ≡ told (asked_of line.now) }
    ensures group_after { group.new ≡ over group.old 0 (left (asked_of line.now)) }
{
    match line {
        [letter, b'\t', digits @ ..] if line.len() <= LINE_MOST && is_hex(digits) => {
            asked(*letter, digits, group)
        }
        _ => Line::Malformed,
    }
}

// How many characters come before the first newline, if there is one.
fn newline_in(input: &[u8]) -> Option<usize>
    ensures { result ≡ position (λ character. character == newline) input.now }
{
    input.iter().position(|character| *character == b'\n')
}

// A piece of a line behind what is kept of it, as far as there is room; and how much is then kept.
#[tactic(auto, unfolding(crate::specs::Gather::room_for))]
fn keep(line: &mut [u8], kept: usize, piece: &[u8]) -> usize
    ensures value { result ≡ kept + length (room_for (length line.old) kept piece.now) }
    ensures line_after { line.new
        ≡ over line.old kept (room_for (length line.old) kept piece.now) }
{
    if line.len() <= kept {
        return kept;
    }
    let count = (line.len() - kept).min(piece.len());
    octets::copy_in(&mut line[kept..], &piece[..count]);
    kept + count
}

// The characters of a line that a chunk has from `from` on, up to a newline or the chunk's end,
// behind those that are kept of it.
pub fn gather(chunk: &[u8], from: usize, line: &mut [u8; LINE_ROOM], kept: usize) -> Gathered
    ensures value { result ≡ gathered chunk.now from kept }
    ensures line_after { line.new ≡ line_after chunk.now from line.old kept }
{
    let rest = &chunk[from.min(chunk.len())..];
    match newline_in(rest) {
        Some(length) => Gathered {
            next: from + length + 1,
            kept: keep(line, kept, &rest[..length]),
            whole: true,
        },
        None => Gathered {
            next: from + rest.len(),
            kept: keep(line, kept, rest),
            whole: false,
        },
    }
}
