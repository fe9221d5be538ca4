// The wire format, read at a place of a lent buffer.
#![tactic(auto)]

ghost use Rattle.std.specs.Prelude.{◌≡◌, ◌≤◌, length};
ghost use Rattle.wire.specs.Base128.{number_at};
ghost use Rattle.wire.specs.Fields.{store_keys, fixed, value_at, field_at};
ghost use Rattle.protocol.specs.Verdict.{verdict};
ghost use Rattle.wire.specs.Walk.{walk, last};
ghost use Rattle.std.specs.Iterator.{YieldsFirst, item_count};
ghost use Rattle.wire.specs.Numbered.{fields_from};

use protocol::Code;
use wire::{Field, Number};

// The number at a place, if it is whole: nine bytes of seven bits, and a tenth of one.
pub fn number_at(s: &[u8], at: usize, end: usize) -> Option<Number>
    requires { end ≤ length s.now }
    ensures { result ≡ number_at s.now at end }
{
    let mut value: u64 = 0;
    let mut weight: u64 = 1;
    let mut i = at;
    for _step in 0..9usize {
        if end <= i {
            return None;
        }
        let b = u64::from(s[i]);
        i += 1;
        if b < 128 {
            return Some(Number {
                value: value + weight * b,
                next: i,
            });
        }
        value += weight * (b - 128);
        weight *= 128;
    }
    if end <= i {
        return None;
    }
    let b = u64::from(s[i]);
    if 1 < b {
        return None;
    }
    Some(Number {
        value: value + weight * b,
        next: i + 1,
    })
}

// A value of `size` bytes.
fn fixed_at(number: u64, kind: u8, size: usize, start: usize, end: usize) -> Result<Field, Code>
    requires { start ≤ end }
    ensures { result ≡ fixed number kind size start end }
{
    if end - start < size {
        return Err(Code::PAST_END);
    }
    Ok(Field {
        number,
        kind,
        start,
        next: start + size,
    })
}

// The value of a field, behind its key.
fn value_at(number: u64, kind: u8, s: &[u8], start: usize, end: usize) -> Result<Field, Code>
    requires { (start ≤ end) × (end ≤ length s.now) }
    ensures { result ≡ value_at number kind s.now start end }
{
    if kind == 1 {
        return fixed_at(number, kind, 8, start, end);
    }
    if kind == 5 {
        return fixed_at(number, kind, 4, start, end);
    }
    let first = number_at(s, start, end).ok_or(Code::BAD_NUMBER)?;
    if kind == 0 {
        return Ok(Field {
            number,
            kind,
            start,
            next: first.next,
        });
    }
    fixed_at(number, 2, first.value as usize, first.next, end)
}

// The field at a place of a message that ends at `end`, or the fault there.
pub fn field_at(s: &[u8], at: usize, end: usize) -> Result<Field, Code>
    requires { end ≤ length s.now }
    ensures { result ≡ field_at store_keys s.now at end }
{
    let key = number_at(s, at, end).ok_or(Code::BAD_NUMBER)?;
    let kind = (key.value % 8) as u8;
    let number = key.value / 8;
    if !((kind <= 2) | (kind == 5)) {
        return Err(Code::OTHER_TYPE);
    }
    if number == 0 {
        return Err(Code::ZERO_FIELD);
    }
    if !(kind == 2) & (number <= 2) {
        return Err(Code::WRONG_TYPE);
    }
    value_at(number, kind, s, key.next, end)
}

// The first fault of a message, if it has one.
pub fn fault_in(s: &[u8], from: usize, end: usize) -> Result<(), Code>
    requires { end ≤ length s.now }
    ensures { result ≡ verdict (walk store_keys s.now from end).fault }
{
    let mut at = from;
    while at < end {
        let field = field_at(s, at, end)?;
        at = field.next;
    }
    Ok(())
}

// The fields of one number in a message, in their order, up to its end or its first fault.
#[derive(Clone, Copy)]
pub struct Fields<'a> {
    pub s: &'a [u8],
    pub at: usize,
    pub end: usize,
    pub wanted: u64,
    pub ghost inside: { end ≤ length s.now },
}

impl<'a> Fields<'a> {
    pub fn new(s: &'a [u8], from: usize, end: usize, wanted: u64) -> Fields<'a>
        requires { end ≤ length s.now }
        ensures { fields_from result.s.now result.at result.end result.wanted ≡ fields_from s.now from end wanted }
    {
        Fields {
            s,
            at: from,
            end,
            wanted,
        }
    }
}

impl<'a> Iterator for Fields<'a> {
    type Item = Field;

    ghost next_gives = { YieldsFirst (λ f. fields_from f.s.now f.at f.end f.wanted) };

    ghost remaining = { item_count (λ f. fields_from f.s.now f.at f.end f.wanted) };

    fn next(&mut self) -> Option<Field> {
        while self.at < self.end {
            let field = field_at(self.s, self.at, self.end).ok()?;
            self.at = field.next;
            if field.number == self.wanted {
                return Some(field);
            }
        }
        None
    }
}

// The value of the last field of a number, or no bytes.
pub fn last_field(s: &[u8], from: usize, end: usize, wanted: u64) -> &[u8]
    requires { end ≤ length s.now }
    ensures { result.now ≡ last s.now wanted (walk store_keys s.now from end).items }
{
    let mut value: &[u8] = &[];
    for field in Fields::new(s, from, end, wanted) {
        value = &s[field.start..field.next];
    }
    value
}
