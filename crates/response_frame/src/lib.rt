// A response, written at the front of the answer buffer.
#![tactic(auto)]

ghost use Rattle.std.specs.Prelude.{◌≡◌, ◌+◌, ◌≤◌, length};
ghost use Rattle.std.proofs.Math.Seq.{paste};
ghost use Rattle.laws.specs.Bytes.{bytes_of};
ghost use Rattle.laws.specs.Ranges.{part};
ghost use Rattle.protocol.specs.Numbers.{header_size};
ghost use Rattle.protocol.specs.Decode.{fields_at};
ghost use Rattle.protocol.specs.Frame.{done, reply, header, framed, answer_after, stat_fields};

use protocol::FIELDS_AT;

// Bytes are stored from `at` on; the place behind them.
fn put_at(dst: &mut [u8], at: usize, src: &[u8]) -> usize
    requires { at + length src.now ≤ length dst.old }
    ensures { (result ≡ at + length src.now) × (dst.new ≡ paste dst.old at src.now (length src.now)) }
{
    memory_copy::copy_at(dst, at, src);
    at + src.len()
}

// The bytes of a number of 16 bits, lowest first.
#[tactic(auto, unfolding(laws::specs::Bytes::bytes_of))]
pub fn bytes_of_u16(x: u16) -> [u8; 2]
    ensures { result ≡ bytes_of 2 x }
{
    x.to_le_bytes()
}

// The bytes of a number of 32 bits, lowest first.
#[tactic(auto, unfolding(laws::specs::Bytes::bytes_of))]
pub fn bytes_of_u32(x: u32) -> [u8; 4]
    ensures { result ≡ bytes_of 4 x }
{
    x.to_le_bytes()
}

// The fields of a Stat: state, size, and no metadata.
pub fn stat_bytes(state: u16, size: u32) -> [u8; 7]
    ensures { result ≡ stat_fields state size }
{
    let s = bytes_of_u16(state);
    let n = bytes_of_u32(size);
    [s[0], s[1], n[0], n[1], n[2], n[3], 0]
}

// OEM number and subcommand.
fn header_of(sub: u8) -> [u8; 4]
    ensures { result ≡ header sub }
{
    let n = protocol::OEM;
    [n[0], n[1], n[2], sub]
}

// A success without fields is written; how long it is.
pub fn respond_empty(sub: u8, answer: &mut [u8]) -> usize
    requires { header_size ≤ length answer.old }
    ensures { (result ≡ length (framed sub done).1) × (answer.new ≡ answer_after sub done answer.old) }
{
    let head = header_of(sub);
    put_at(answer, 0, &head)
}

// Fields that stand in their place already get their header and CRC; how long the response is.
pub fn seal(sub: u8, len: usize, answer: &mut [u8]) -> usize
    requires { fields_at + len ≤ length answer.old }
    ensures { (result ≡ length (framed sub (reply (part fields_at len answer.old))).1) × (answer.new ≡ answer_after sub (reply (part fields_at len answer.old)) answer.old) }
{
    let end = FIELDS_AT + len;
    let head = header_of(sub);
    let crc = bytes_of_u16(crc::crc16(&answer[FIELDS_AT..end]));
    let at = put_at(answer, 0, &head);
    put_at(answer, at, &crc);
    end
}

// A success with fields is written: header, CRC, fields; how long it is.
pub fn respond_with(sub: u8, fields: &[u8], answer: &mut [u8]) -> usize
    requires { fields_at + length fields.now ≤ length answer.old }
    ensures { (result ≡ length (framed sub (reply fields.now)).1) × (answer.new ≡ answer_after sub (reply fields.now) answer.old) }
{
    memory_copy::copy_at(answer, FIELDS_AT, fields);
    seal(sub, fields.len(), answer)
}
