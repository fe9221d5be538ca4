// What the programs ask of the system, over std: words of the command, files to read, and lines about what failed. The functions here only move bytes.
#![tactic(auto)]

ghost use Rattle.std.specs.Prelude.{◌≡◌, ◌≤◌, ◌<◌, length, take, IfOk, IfErr, IsOkAnd, IsErrAnd, IfSome, IfNone, OnSome, []};
ghost use Rattle.std.specs.Io.KnownBytes.{Consumes, IsAtEnd};
ghost use Rattle.system.specs.Counts.{IsPrefixLen};

use std::env::{Env, FillError};
use std::fmt::{Display, Formatter, Write};
use std::fs::File;
use std::io::{ErrorKind, Read};
use std::rt::Files;
use std::{fmt, io, str};

// The longest path that is taken, and so the longest word of the command.
pub const PATH_MOST: usize = 4096;

// What std writes behind the system's own words for an error, before the error's number.
const NUMBER: &str = " (os error ";

// A path, or the path of a new file, at the front of a buffer of its own, so that none has to be asked of the heap.
#[derive(Drop)]
pub struct PathBytes {
    pub bytes: [u8; PATH_MOST],
    pub len: usize,
}

impl PathBytes {
    // The path. It fits into the buffer; a length that did not would give no bytes.
    pub fn path(&self) -> &[u8]
        ensures within { self.now.len ≤ length self.now.bytes → result.now ≡ take self.now.len self.now.bytes }
        ensures past { length self.now.bytes < self.now.len → result.now ≡ [] }
    {
        self.bytes.get(..self.len).unwrap_or_default()
    }
}

// Why the words of the command are not understood.
#[derive(Clone, Copy, Debug, PartialEq, Eq)]
pub enum Usage {
    EmptyOrTooLong,
    GivenTwice,
    MoreThanOnePath,
    NoPathBehindOption,
    NoSuchOption,
}

impl Display for Usage {
    fn fmt<W: Write>(&self, f: &mut Formatter<W>) -> fmt::Result {
        f.write_str(match self {
            Usage::EmptyOrTooLong => "a path is empty or too long",
            Usage::GivenTwice => "a path is given twice",
            Usage::MoreThanOnePath => "more than one path is given",
            Usage::NoPathBehindOption => "an option has no path behind it",
            Usage::NoSuchOption => "there is no such option",
        })
    }
}

// Why not all is done that the command asks: its words are not understood, or a file, standard input or standard output fails, for a reason of type W.
#[derive(Drop)]
pub enum Failure<'a, W> {
    Usage(Usage),
    Of(&'a [u8], W),
}

impl<W> From<Usage> for Failure<'_, W> {
    fn from(usage: Usage) -> Self {
        Failure::Usage(usage)
    }
}

// The system's own words, where std writes the number behind them.
fn words_of(text: &str) -> &str {
    match text.split_once(NUMBER) {
        Some((words, _)) => words,
        None => text,
    }
}

// The same result, where an error also names the file, standard input or standard output that it is about.
pub fn about<'a, T, W>(what: &'a [u8], done: Result<T, W>) -> Result<T, Failure<'a, W>>
    ensures ok { IfOk done (λ value. IsOkAnd result (λ kept. kept ≡ value)) }
    ensures err { IfErr done (λ why. IsErrAnd result (λ failure. failure ≡ Failure.Of what.entry why)) }
{
    match done {
        Ok(value) => Ok(value),
        Err(why) => Err(Failure::Of(what, why)),
    }
}

// Says in a line what failed, and why. Where even this line cannot be written nothing more can be said.
pub fn fail<R: Alloc, W: Display + Drop>(
    rt: &R,
    errors: &impl Print,
    program: &[u8],
    failure: Failure<W>,
) {
    let _ = errors.write_all(program);
    match failure {
        Failure::Usage(usage) => {
            let _ = println!(errors; ": {usage} (--help says more)");
        }
        Failure::Of(what, why) => {
            let _ = print!(errors; ": ");
            let _ = errors.write_all(what);
            let _ = print!(errors; ": ");
            let _ = match format!(in rt.alloc(); "{why}") {
                Ok(text) => errors.print(words_of(text.as_str())),
                Err(_) => errors.print(&why),
            };
            let _ = println!(errors);
        }
    }
}

// A path as std takes it, which has to be text.
pub fn path_text(path: &[u8]) -> io::Result<&str>
    ensures { IfOk result (λ text. text.now ≡ path.now) }
{
    str::from_utf8(path).map_err(|_| io::Error::new(ErrorKind::InvalidInput, "Not UTF-8 text"))
}

pub fn open_to_read<R: Files>(rt: &R, path: &[u8]) -> io::Result<R::File> {
    File::open(rt, path_text(path)?)
}

// Reads until the buffer is full or the input ends; how many bytes were put at its front. Where a reader says which bytes it has left, these are they.
pub fn read_full<F: Read>(from: &mut F, buffer: &mut [u8]) -> io::Result<usize>
    ensures within { IfOk result (λ n. n ≤ length buffer.new) }
    ensures bytes { IfOk result (λ n. Consumes (F.remaining from.old) (F.remaining from.new) (take n buffer.new)) }
    ensures end { IfOk result (λ n. n < length buffer.new → IsAtEnd (F.remaining from.new)) }
{
    let mut len = 0;
    while len < buffer.len() {
        let n = from.read(&mut buffer[len..])?;
        if n == 0 {
            break;
        }
        len += n;
    }
    Ok(len)
}

// Reads all that is left, if it is shorter than the buffer; how many bytes were put at its front. `None` where the buffer is full, and more may be left.
pub fn read_whole<F: Read>(from: &mut F, buffer: &mut [u8]) -> io::Result<Option<usize>>
    ensures within { IfOk result (λ read. IfSome read (λ n. n < length buffer.new)) }
    ensures bytes { IfOk result (λ read. IfSome read (λ n. Consumes (F.remaining from.old) (F.remaining from.new) (take n buffer.new))) }
    ensures end { IfOk result (λ read. OnSome read (IsAtEnd (F.remaining from.new))) }
    ensures full { IfOk result (λ read. IfNone read (Consumes (F.remaining from.old) (F.remaining from.new) buffer.new)) }
{
    let len = read_full(from, buffer)?;
    Ok(if len < buffer.len() { Some(len) } else { None })
}

// Whether the command has a word number i; word 0 is the program's name.
pub fn has_word<R: Env>(rt: &R, i: usize) -> bool {
    !matches!(rt.arg(i, &mut [0u8; 1]), Err(FillError::NotPresent))
}

// Word number i of the command at the front of a buffer: how long it is, if there is one and it is no longer than the buffer.
pub fn word<R: Env>(rt: &R, i: usize, buffer: &mut [u8]) -> Option<usize>
    ensures { IfSome result (λ len. IsPrefixLen len buffer.new) }
{
    rt.arg(i, buffer).ok()
}
