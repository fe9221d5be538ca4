// Requests as records, one behind the other: a clock, a length byte and a message. The record at a place of a buffer.
#![tactic(auto)]

ghost use Rattle.std.specs.Prelude.{◌≡◌};
ghost use Rattle.records.specs.Records.{record_at};

// A record's clock, and with it the length byte.
const CLOCK_SIZE: usize = 4;

const PREFIX_SIZE: usize = 5;

// What stands at a place of the input: a whole record, whose message starts at `start` and is `len` long, before the record at `next`; a cut
// one; or nothing.
#[derive(Clone, Copy)]
pub enum Record {
    Whole {
        clock: u32,
        start: usize,
        len: usize,
        next: usize,
    },
    Cut,
    End,
}

// The record at a place.
pub fn record_at(buffer: &[u8], at: usize) -> Record
    ensures { result ≡ record_at buffer.now at }
{
    if buffer.len() <= at {
        return Record::End;
    }
    let left = buffer.len() - at;
    if left < PREFIX_SIZE {
        return Record::Cut;
    }
    let len = usize::from(buffer[at + CLOCK_SIZE]);
    if left - PREFIX_SIZE < len {
        return Record::Cut;
    }
    let clock = request_reader::u32_at(buffer, at);
    let start = at + PREFIX_SIZE;
    Record::Whole {
        clock,
        start,
        len,
        next: start + len,
    }
}
