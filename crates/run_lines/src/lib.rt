// The program's output over a buffer: a line written at a place.
#![tactic(auto)]

ghost use Rattle.std.specs.Prelude.{◌≡◌, ◌+◌, ◌*◌, ◌≤◌, ◌<◌, length};
ghost use Rattle.std.proofs.lemmas.List.Edits.{sets};
ghost use Rattle.protocol.specs.Numbers.{answer_size};
ghost use Rattle.run_lines.specs.Lines.{digit_of, hex_of, hexes, answer_text, line_of, line_most, cut_line};

use protocol::Code;

// No line is longer.
pub const LINE_MOST: usize = 132;

const ZERO_DIGIT: u8 = b'0';

// What makes 10 the character A.
const LETTER_DIGIT: u8 = b'A' - 10;

// A capital hex digit.
fn digit(n: u8) -> u8
    requires { n < 16 }
    ensures { result ≡ digit_of n }
{
    if n < 10 {
        n + ZERO_DIGIT
    } else {
        n + LETTER_DIGIT
    }
}

// A byte's two digits are stored at a place.
pub fn put_hex(text: &mut [u8], at: usize, b: u8)
    requires { at + 2 ≤ length text.old }
    ensures { text.new ≡ sets text.old at (hex_of b) }
{
    text[at] = digit(b / 16);
    text[at + 1] = digit(b % 16);
}

// The digits of bytes are stored from a place on.
fn put_hexes(text: &mut [u8], at: usize, bytes: &[u8])
    requires { at + 2 * length bytes.now ≤ length text.old }
    ensures { text.new ≡ sets text.old at (hexes bytes.now) }
{
    for (i, &b) in bytes.iter().enumerate() {
        put_hex(text, at + 2 * i, b);
    }
}

// A line without its line feed (rule 20.4); the place behind it.
fn write_answer(code: Code, response: &[u8], text: &mut [u8], at: usize) -> usize
    requires { (length response.now ≤ answer_size) × (at + line_most ≤ length text.old) }
    ensures { (result ≡ at + length (answer_text code.0 response.now)) × (text.new ≡ sets text.old at (answer_text code.0 response.now)) }
{
    put_hex(text, at, code.0);
    let next = at + 2;
    if code != Code::SUCCESS {
        return next;
    }
    text[next] = b' ';
    put_hexes(text, next + 1, response);
    next + 1 + 2 * response.len()
}

// A line is written at a place; all other bytes stay; the place behind it.
pub fn write_line(code: Code, response: &[u8], text: &mut [u8], at: usize) -> usize
    requires { (length response.now ≤ answer_size) × (at + line_most ≤ length text.old) }
    ensures { (result ≡ at + length (line_of code.0 response.now)) × (text.new ≡ sets text.old at (line_of code.0 response.now)) }
{
    let end = write_answer(code, response, text, at);
    text[end] = b'\n';
    end + 1
}

// The line of a cut record.
pub fn cut_line() -> [u8; 4]
    ensures { result ≡ cut_line }
{
    *b"CUT\n"
}
