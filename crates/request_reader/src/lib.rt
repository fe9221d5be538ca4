// Numbers that stand in lent bytes, lowest byte first, and a reader of a message's body: it holds the lent bytes and the place
// of the next one. Its methods only move that place; a function on a slice and a place reads the number.
#![tactic(auto)]

ghost use Rattle.std.specs.Prelude.{◌≡◌, ◌+◌, ◌<◌, ◌≤◌, ◌^◌, drop};
ghost use Rattle.laws.specs.Bytes.{little};
ghost use Rattle.request_reader.specs.Wire.{byte, le16, le32, onward, fields_of};

// The byte at a place, and 0 past the end.
pub fn u8_at(s: &[u8], at: usize) -> u8
    ensures { result ≡ byte s.now at }
{
    s.get(at).copied().unwrap_or(0)
}

// What stands from a place on: nothing past the end.
fn rest_at(s: &[u8], at: usize) -> &[u8]
    ensures { result.now ≡ drop at s.now }
{
    s.get(at..).unwrap_or(&[])
}

// The number of two bytes at a place.
pub fn u16_at(s: &[u8], at: usize) -> u16
    ensures { result ≡ le16 s.now at }
{
    let rest = rest_at(s, at);
    let low = u8_at(rest, 0);
    let high = u8_at(rest, 1);
    u16::from_le_bytes([low, high])
}

// The number of four bytes at a place.
pub fn u32_at(s: &[u8], at: usize) -> u32
    ensures { result ≡ le32 s.now at }
{
    let rest = rest_at(s, at);
    u32::from_le_bytes([
        u8_at(rest, 0),
        u8_at(rest, 1),
        u8_at(rest, 2),
        u8_at(rest, 3),
    ])
}

// The number of n bytes at a place, lowest byte first.
fn number_at(s: &[u8], at: usize, n: usize) -> u32
    requires { (n ≤ 4) × (at + n < 2 ^ 64) }
    ensures { result ≡ little n at s.now }
{
    let mut r: u32 = 0;
    for i in (0..n).rev() {
        r = u32::from(u8_at(s, at + i)) + 256 * r;
    }
    r
}

#[derive(Drop)]
struct Reader<'a> {
    body: &'a [u8],
    at: usize,
}

impl<'a> Reader<'a> {
    fn new(body: &'a [u8]) -> Reader<'a>
        ensures { (result.body ≡ body.entry) × (result.at ≡ 0) }
    {
        Reader { body, at: 0 }
    }

    // A number of n bytes is read, and the place moves on.
    fn take(&mut self, n: usize) -> u32
        requires { (n ≤ 4) × (self.old.at + n < 2 ^ 64) }
        ensures { (result ≡ little n self.old.at self.old.body.now) × (self.new ≡ onward self.old n) }
    {
        let at = self.at;
        self.at = at + n;
        number_at(self.body, at, n)
    }
}

// The numbers in front of a body, and the place behind them.
#[derive(Clone, Copy)]
pub struct Fields {
    pub crc: u32,
    pub first: u32,
    pub second: u32,
    pub third: u32,
    pub rest: usize,
}

// The CRC and up to three numbers are read front to back through one reader; each is so many bytes wide, and a number of no bytes is 0.
pub fn take_fields(body: &[u8], first: usize, second: usize, third: usize) -> Fields
    requires { (first ≤ 4) × ((second ≤ 4) × (third ≤ 4)) }
    ensures { result ≡ fields_of body.now first second third }
{
    let mut r = Reader::new(body);
    let crc = r.take(2);
    let a = r.take(first);
    let b = r.take(second);
    let c = r.take(third);
    let rest = r.at;
    Fields {
        crc,
        first: a,
        second: b,
        third: c,
        rest,
    }
}
