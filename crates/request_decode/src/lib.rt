// What a message asks.
#![tactic(auto)]

ghost use Rattle.std.specs.Prelude.{◌≡◌, true, ◌-◌, ◌≤◌, eqb, length, take, drop};
ghost use Rattle.laws.specs.Bytes.{same};
ghost use Rattle.crc.specs.Crc.{crc};
ghost use Rattle.protocol.specs.Numbers.{oem};
ghost use Rattle.protocol.specs.Names.{name_form};
ghost use Rattle.protocol.specs.Subcommands.{command_number};
ghost use Rattle.protocol.specs.Decode.{body_fits, with_name, asked, decoded};
ghost use Rattle.request_decode.specs.Widths.{widths, widths_of, fields_in};

use protocol::{Blob, Code, FIELDS_AT, HEADER_SIZE, MESSAGE_SIZE, OEM_SIZE, Request, Subcommand};
use request_reader::Fields;

// The body's length is right for its subcommand.
#[tactic(auto, unfolding(protocol::specs::Decode::body_fits))]
fn body_fits(sub: Subcommand, n: usize) -> bool
    ensures { result ≡ body_fits (command_number sub) n }
{
    match sub {
        Subcommand::Count => n == 0,
        Subcommand::Enumerate => n == 6,
        Subcommand::Open => 5 <= n,
        Subcommand::Read => n == 12,
        Subcommand::Write => 8 <= n,
        Subcommand::Commit => 5 <= n,
        Subcommand::Close => n == 4,
        Subcommand::Delete => 3 <= n,
        Subcommand::Stat => 3 <= n,
        Subcommand::SessionStat => n == 4,
        Subcommand::WriteMeta => 8 <= n,
    }
}

// How many bytes wide the numbers of a subcommand are, in their order.
#[derive(Clone, Copy)]
struct Widths {
    first: usize,
    second: usize,
    third: usize,
}

fn bytes_wide(first: usize, second: usize, third: usize) -> Widths
    ensures { result ≡ widths first second third }
{
    Widths {
        first,
        second,
        third,
    }
}

// The numbers of each subcommand; behind them stands a name, or bytes, or nothing.
#[tactic(auto, unfolding(crate::specs::Widths::widths_of))]
fn widths_of(sub: Subcommand) -> Widths
    ensures { result ≡ widths_of (command_number sub) }
{
    match sub {
        Subcommand::Count => bytes_wide(2, 0, 0),
        Subcommand::Enumerate => bytes_wide(4, 0, 0),
        Subcommand::Open => bytes_wide(2, 0, 0),
        Subcommand::Read => bytes_wide(2, 4, 4),
        Subcommand::Write => bytes_wide(2, 4, 0),
        Subcommand::Commit => bytes_wide(2, 1, 0),
        Subcommand::Close => bytes_wide(2, 0, 0),
        Subcommand::Delete => bytes_wide(0, 0, 0),
        Subcommand::Stat => bytes_wide(0, 0, 0),
        Subcommand::SessionStat => bytes_wide(2, 0, 0),
        Subcommand::WriteMeta => bytes_wide(2, 0, 0),
    }
}

// The CRC and the numbers of a message, read once, from front to back.
fn fields_of(sub: Subcommand, message: &[u8]) -> Fields
    requires { 4 ≤ length message.now }
    ensures { result ≡ fields_in (command_number sub) message.now }
{
    let w = widths_of(sub);
    request_reader::take_fields(&message[HEADER_SIZE..], w.first, w.second, w.third)
}

// A CRC that was read is that of the bytes behind it.
fn crc_fits(found: u32, message: &[u8]) -> bool
    requires { 6 ≤ length message.now }
    ensures { result ≡ eqb found (crc (drop 6 message.now)) }
{
    found == u32::from(crc::crc16(&message[FIELDS_AT..]))
}

// The message starts with the OEM number.
fn is_oem(message: &[u8]) -> bool
    requires { 3 ≤ length message.now }
    ensures { result ≡ same (take 3 message.now) oem }
{
    let number = protocol::OEM;
    request_names::same_bytes(&message[..OEM_SIZE], &number)
}

// A message's rest is a name of the right form.
fn ends_in_name(message: &[u8], at: usize) -> bool
    requires { at ≤ length message.now }
    ensures { result ≡ name_form (drop at message.now) }
{
    request_names::name_form(&message[at..])
}

// What is asked with the name that takes the rest of a message, or the refusal of a wrong form.
fn with_name<F: FnOnce(Blob) -> Request>(message: &[u8], at: usize, ask: F) -> Request
    requires within { at ≤ length message.now }
    requires callable { (b : Blob) → F.pre ask b }
    ensures { (f : Blob → Request) → ((b : Blob) (r : Request) → F.post ask b r → r ≡ f b) → result ≡ with_name at message.now f }
{
    if ends_in_name(message, at) {
        ask(request_names::blob_at(message, at))
    } else {
        Request::Refused(Code::INVALID)
    }
}

// What each subcommand asks: its numbers, and the name or the bytes that start at the place behind them.
fn request_of(sub: Subcommand, message: &[u8], f: Fields) -> Request
    requires { (body_fits (command_number sub) (length message.now - 4) ≡ true) × (f ≡ fields_in (command_number sub) message.now) }
    ensures { result ≡ asked (command_number sub) message.now }
{
    let at = HEADER_SIZE + f.rest;
    match sub {
        Subcommand::Count => Request::Count,
        Subcommand::Enumerate => Request::Enumerate { index: f.first },
        Subcommand::Open => {
            let flags = f.first as u16;
            with_name(message, at, |blob| Request::Open { flags, blob })
        }
        Subcommand::Read => Request::Read {
            session: f.first as u16,
            offset: f.second,
            count: f.third,
        },
        Subcommand::Write => Request::Write {
            session: f.first as u16,
            offset: f.second,
            start: at,
        },
        Subcommand::Commit => Request::Commit {
            session: f.first as u16,
            len: f.second as u8,
            rest: message.len() - at,
        },
        Subcommand::Close => Request::Close {
            session: f.first as u16,
        },
        Subcommand::Delete => with_name(message, at, |blob| Request::Delete { blob }),
        Subcommand::Stat => with_name(message, at, |blob| Request::Stat { blob }),
        Subcommand::SessionStat => Request::SessionStat {
            session: f.first as u16,
        },
        Subcommand::WriteMeta => Request::WriteMeta {
            session: f.first as u16,
        },
    }
}

// What a message asks.
pub fn decode(message: &[u8]) -> Request
    ensures { result ≡ decoded message.now }
{
    let n = message.len();
    if n < HEADER_SIZE {
        return Request::Refused(Code::WRONG_LENGTH);
    }
    if MESSAGE_SIZE < n {
        return Request::Refused(Code::WRONG_LENGTH);
    }
    if !is_oem(message) {
        return Request::Refused(Code::INVALID);
    }
    let sub = match Subcommand::try_from(message[3]) {
        Ok(sub) => sub,
        Err(code) => return Request::Refused(code),
    };
    if !body_fits(sub, n - HEADER_SIZE) {
        return Request::Refused(Code::WRONG_LENGTH);
    }
    if sub == Subcommand::Count {
        return Request::Count;
    }
    let f = fields_of(sub, message);
    if !crc_fits(f.crc, message) {
        return Request::Refused(Code::INVALID);
    }
    request_of(sub, message, f)
}
