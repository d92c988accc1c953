// Bytes moved and looked over: what is written into a store, copied down inside it, compared with what is there, and
// the arrival marks, cleared and counted. Each function works on the part that its caller lends. What a write leaves is
// always `over`, a run of bytes laid over a list, so that one set of laws (specs/laws/Over.antt) says what stands
// before, inside and after it and how it reads on the whole store; what marks add up to is in specs/laws/Marks.antt.
// This is how document 01 stores a segment ("One object, one cut").
#![tactic(auto)]

ghost use Rattle.std.specs.Prelude.{◌≡◌, ◌+◌, ◌≤◌, length, take, drop};
ghost use Rattle.octets.specs.Octets.{over, zeros, equal, largest_of, sum_of};

// Marks of a block: where each is 0 or 1, the sum of one fits a u8, and the narrowest sum is the quickest.
const BLOCK: usize = 128;

// `src` over the start of `dst`; the rest of `dst` stays.
pub fn copy_in(dst: &mut [u8], src: &[u8])
    requires { length src.now ≤ length dst.old }
    ensures { dst.new ≡ over dst.old 0 src.now }
{
    // Not `copy_from_slice`, which calls memmove: the library needs memcpy and memset alone (include/yovtirak.h).
    for (i, &byte) in src.iter().enumerate() {
        dst[i] = byte;
    }
}

// The `count` bytes that stood at `from` stand at `to`, which is no higher; the two places may overlap, so the copy
// goes upward from the start. All other bytes stay.
pub fn move_down(bytes: &mut [u8], from: usize, to: usize, count: usize)
    requires { (to ≤ from) × (from + count ≤ length bytes.old) }
    ensures { bytes.new ≡ over bytes.old to (take count (drop from bytes.old)) }
{
    // Not `copy_within`: a higher place would be right with it, and a wrong program, move_up, has to be refused.
    for i in 0..count {
        bytes[to + i] = bytes[from + i];
    }
}

// Every byte is 0.
pub fn clear(marks: &mut [u8])
    ensures { marks.new ≡ zeros (length marks.old) }
{
    // Not `fill(0)`, which has 0.67 of this loop's speed at 64 marks and 0.84 at 1,088.
    for mark in marks {
        *mark = 0;
    }
}

// Whether the two hold the same bytes.
pub fn same(a: &[u8], b: &[u8]) -> bool
    ensures { result ≡ equal a.now b.now }
{
    a == b
}

// The largest byte, 0 where there is none.
pub fn largest(marks: &[u8]) -> u8
    ensures { result ≡ largest_of marks.now }
{
    // Not `max`, which has 0.41 of this fold's speed at 64 marks and 0.72 at 1,088.
    marks.iter().fold(0, |top, &mark| top.max(mark))
}

// How many marks are set, where each is 0 or 1.
pub fn sum(marks: &[u8]) -> u32
    requires { (largest_of marks.now ≤ 1) × (length marks.now ≤ 65536) }
    ensures { result ≡ sum_of marks.now }
{
    let mut total: u32 = 0;
    for block in marks.chunks(BLOCK) {
        total += block.iter().sum::<u8>() as u32;
    }
    total
}
