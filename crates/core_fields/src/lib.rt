// The header core (EN 301 234, clause 5.1): 7 bytes with the four fields BodySize, HeaderSize,
// ContentType and ContentSubType, read off any bytes. Bytes that are not there read as 0, so that
// a header segment of any length can be asked what it says.
#![tactic(auto)]

ghost use Rattle.std.specs.Prelude.{◌≡◌, ◌<◌, get_or};
ghost use Rattle.cut.specs.Requirement.{body_size, header_size, content_type, content_sub_type};

fn octet(bytes: &[u8], at: usize) -> u32
    ensures { (result ≡ get_or bytes.now at 0) × (result < 256) }
{
    bytes.get(at).map_or(0, |octet| u32::from(*octet))
}

// It has 28 bits.
#[tactic(auto, unfolding(cut::specs::Requirement::body_size))]
pub fn body_size(bytes: &[u8]) -> u32
    ensures { (result ≡ body_size bytes.now) × (result < 268435456) }
{
    octet(bytes, 0) * 0x100000
        + octet(bytes, 1) * 0x1000
        + octet(bytes, 2) * 0x10
        + octet(bytes, 3) / 0x10
}

#[tactic(auto, unfolding(cut::specs::Requirement::header_size))]
pub fn header_size(bytes: &[u8]) -> u16
    ensures { result ≡ header_size bytes.now }
{
    (octet(bytes, 3) % 0x10 * 0x200 + octet(bytes, 4) * 2 + octet(bytes, 5) / 0x80) as u16
}

#[tactic(auto, unfolding(cut::specs::Requirement::content_type))]
pub fn content_type(bytes: &[u8]) -> u8
    ensures { result ≡ content_type bytes.now }
{
    (octet(bytes, 5) % 0x80 / 2) as u8
}

#[tactic(auto, unfolding(cut::specs::Requirement::content_sub_type))]
pub fn content_sub_type(bytes: &[u8]) -> u16
    ensures { result ≡ content_sub_type bytes.now }
{
    (octet(bytes, 5) % 2 * 0x100 + octet(bytes, 6)) as u16
}
