// Decodes messages from standard input, each behind a byte that says how long it is, and writes a line for each; before them, worked
// responses.
#![tactic(auto)]

ghost use Rattle.std.specs.Prelude.{◌≤◌, length};

use protocol::{Blob, Request, Subcommand};
use std::fmt::{Display, Formatter};
use std::io::Read;
use std::{fmt, io};

// The most of the input that is read.
const INPUT_MOST: u64 = 65536;

// Where a line has a blob's number, these stand for a store name, the base and an unknown name.
const STORE: u64 = 0;

const BASE: u64 = 0x20;

const UNKNOWN: u64 = 0x21;

// A request as its line shows it.
#[derive(Clone, Copy)]
struct Line(Request);

impl Display for Line {
    fn fmt<W: fmt::Write>(&self, f: &mut Formatter<W>) -> fmt::Result {
        let number = self.0.number();
        let [a, b, c, d] = values_of(self.0);
        write!(f, "{number:02x} {a:08x} {b:08x} {c:08x} {d:02x}")
    }
}

// What a name names, and where a store name stands.
fn name_of(blob: Blob) -> [u64; 3] {
    match blob {
        Blob::Store { start, len } => [STORE, start as u64, len as u64],
        Blob::Flash(kind) => [u64::from(kind.number()), 0, 0],
        Blob::Base => [BASE, 0, 0],
        Blob::Unknown => [UNKNOWN, 0, 0],
    }
}

fn named(value: u64, blob: Blob) -> [u64; 4] {
    let [kind, start, len] = name_of(blob);
    [value, kind, start, len]
}

// What a request asks, in four numbers.
fn values_of(request: Request) -> [u64; 4] {
    match request {
        Request::Enumerate { index } => [u64::from(index), 0, 0, 0],
        Request::Open { flags, blob } => named(u64::from(flags), blob),
        Request::Read {
            session,
            offset,
            count,
        } => [u64::from(session), u64::from(offset), u64::from(count), 0],
        Request::Write {
            session,
            offset,
            start,
        } => [u64::from(session), u64::from(offset), start as u64, 0],
        Request::Commit { session, len, rest } => {
            [u64::from(session), u64::from(len), rest as u64, 0]
        }
        Request::Delete { blob } | Request::Stat { blob } => named(0, blob),
        Request::Close { session }
        | Request::SessionStat { session }
        | Request::WriteMeta { session } => [u64::from(session), 0, 0, 0],
        Request::Count | Request::Refused(_) => [0; 4],
    }
}

// All messages, each behind the byte that says how long it is; one that is cut short is the last.
fn every(rt: &impl Print, input: &[u8]) -> io::Result<()> {
    let mut left = input;
    while let Some((len, behind)) = left.split_first() {
        let Some((message, next)) = behind.split_at_checked(usize::from(*len)) else {
            return println!(rt; "cut");
        };
        let line = Line(request_decode::decode(message));
        println!(rt; "{line}")?;
        left = next;
    }
    Ok(())
}

fn say_bytes(rt: &impl Print, bytes: &[u8]) -> io::Result<()> {
    for byte in bytes {
        print!(rt; "{byte:02x}")?;
    }
    println!(rt)
}

fn respond(rt: &impl Print, sub: Subcommand, fields: &[u8], answer: &mut [u8; 64]) -> io::Result<()>
    requires { length fields.now ≤ 58 }
{
    response_frame::respond_with(sub.number(), fields, answer);
    say_bytes(rt, answer)
}

fn closed(rt: &impl Print, answer: &mut [u8; 64]) -> io::Result<()> {
    response_frame::respond_empty(Subcommand::Close.number(), answer);
    say_bytes(rt, answer)
}

fn responses(rt: &impl Print) -> io::Result<()> {
    let mut answer = [0xEEu8; 64];
    closed(rt, &mut answer)?;
    respond(rt, Subcommand::Read, b"", &mut answer)?;
    let four = response_frame::bytes_of_u32(4);
    respond(rt, Subcommand::Count, &four, &mut answer)?;
    let stat = response_frame::stat_bytes(0x0103, 0x00010203);
    respond(rt, Subcommand::Stat, &stat, &mut answer)?;
    respond(
        rt,
        Subcommand::Read,
        b"0123456789012345678901234567890123456789012345678901234567",
        &mut answer,
    )
}

fn main(rt: HostRuntime) -> io::Result<()> {
    responses(&rt)?;
    let mut input = Vec::new(rt.alloc());
    rt.reader().take(INPUT_MOST).read_to_end(&mut input)?;
    every(&rt, &input)
}
