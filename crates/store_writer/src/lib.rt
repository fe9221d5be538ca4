// The committed store, written part by part into a lent buffer.
#![tactic(auto)]

ghost use Rattle.std.specs.Prelude.{◌≡◌, ◌≢◌, List, ℕ, ◌+◌, ◌<◌, ◌≤◌, length, IfOk, IfErr};
ghost use Rattle.std.proofs.lemmas.List.Edits.{sets};
ghost use Rattle.protocol.specs.Numbers.{success, slot_count, name_size, slot_size};
ghost use Rattle.wire.specs.Base128.{shortest};
ghost use Rattle.wire.specs.Written.{head_of, written};
ghost use Rattle.state.specs.State.{state_of};
ghost use Rattle.state.specs.Lent.{NamesLent, RegionsLent};
ghost use Rattle.store_file.specs.Saved.{blob_content, part_of, buffer_size, laid_out, saved_into};
ghost use Rattle.store_writer.specs.Parts.{call_of, scan_in, Lent};

use lookup::nth_set;
use memory_copy::copy_at;
use protocol::Code;
use request_names::first_zero;
use sound::sound;
use state::{Control, NAME_SIZE, SLOT_SIZE};
use store_file::{BLOB_DATA, BLOB_NAME, STORE_BASE, STORE_BLOB};

// The lent buffer.
pub const BUFFER_SIZE: usize = 4200;

// A number in its shortest form, here of one or two bytes, is stored at a place; the place behind it.
fn put_number(dst: &mut [u8], at: usize, v: usize) -> usize
    requires { (v < 16384) × (at + 2 ≤ length dst.old) }
    ensures { (result ≡ at + length (shortest v)) × (dst.new ≡ sets dst.old at (shortest v)) }
{
    if v < 128 {
        dst[at] = v as u8;
        return at + 1;
    }
    dst[at] = (128 + v % 128) as u8;
    dst[at + 1] = (v / 128) as u8;
    at + 2
}

// How many bytes the head of a field has whose value has `len` bytes.
fn head_size(len: usize) -> usize
    requires { len < 16384 }
    ensures { (result ≡ 1 + length (shortest len)) × (result ≤ 3) }
{
    if len < 128 { 2 } else { 3 }
}

// Key and length of a field; the place behind them.
fn put_head(dst: &mut [u8], at: usize, number: u64, len: usize) -> usize
    requires { (number < 15) × ((len < 16384) × (at + 3 ≤ length dst.old)) }
    ensures { (result ≡ at + length (head_of number len)) × (dst.new ≡ sets dst.old at (head_of number len)) }
{
    dst[at] = (number * 8 + 2) as u8;
    put_number(dst, at + 1, len)
}

// A field; the place behind it.
fn put_field(dst: &mut [u8], at: usize, number: u64, src: &[u8]) -> usize
    requires { (number < 15) × ((length src.now < 16384) × (at + 3 + length src.now ≤ length dst.old)) }
    ensures { (result ≡ at + length (written (number, src.now))) × (dst.new ≡ sets dst.old at (written (number, src.now))) }
{
    let next = put_head(dst, at, number, src.len());
    copy_at(dst, next, src);
    next + src.len()
}

// A blob's part at the front of a buffer; its length.
fn put_blob(dst: &mut [u8], name: &[u8], scan: &[u8]) -> usize
    requires { (length name.now ≤ name_size) × ((length scan.now ≤ slot_size) × (buffer_size ≤ length dst.old)) }
    ensures { (result ≡ length (written (blob_content (record { name = name.now; bytes = scan.now })))) × (dst.new ≡ sets dst.old 0 (written (blob_content (record { name = name.now; bytes = scan.now })))) }
{
    let first = head_size(name.len()) + name.len();
    let second = head_size(scan.len()) + scan.len();
    let at = put_head(dst, 0, STORE_BLOB, first + second);
    let next = put_field(dst, at, BLOB_NAME, name);
    put_field(dst, next, BLOB_DATA, scan)
}

// Slot k's part at the front of a buffer; its length.
fn put_slot(dst: &mut [u8], k: usize, len: usize, names: &[u8], committed: &[u8]) -> usize
    requires { ((k < slot_count) × (len ≤ slot_size)) × (NamesLent names.now × (RegionsLent committed.now × (length dst.old ≡ buffer_size))) }
    ensures { (result ≡ length (written (blob_content (scan_in names.now committed.now k len)))) × (dst.new ≡ sets dst.old 0 (written (blob_content (scan_in names.now committed.now k len)))) }
{
    let at = k * NAME_SIZE;
    let end = at + NAME_SIZE;
    let nul = at + first_zero(&names[at..end]);
    let from = k * SLOT_SIZE;
    let to = from + len;
    put_blob(dst, &names[at..nul], &committed[from..to])
}

// A part of a sound state's store, in a buffer of the right length; its length there.
fn write_part(
    part: u32,
    control: Control,
    names: &[u8],
    committed: &[u8],
    buffer: &mut [u8],
) -> Result<usize, Code>
    requires { Lent control.marks names.now committed.now control.committed_len buffer.old }
    ensures laid { (table staged image hash : List ℕ) → call_of result buffer.new ≡ laid_out (part_of part (state_of control table names.now committed.now staged image hash)) buffer.old }
    ensures short { IfOk result (λ len. len ≤ buffer_size) }
    ensures refused { IfErr result (λ c. c.0 ≢ success) }
{
    if part == 0 {
        let base = protocol::BASE;
        return Ok(put_field(buffer, 0, STORE_BASE, &base));
    }
    let i = part - 1;
    if u32::count_ones(control.marks) <= i {
        return Err(Code::OUT_OF_RANGE);
    }
    let k = nth_set(control.marks, i);
    let size = control.committed_len[k] as usize;
    Ok(put_slot(buffer, k, size, names, committed))
}

// THE WRITER: a part of the committed store, at the front of a lent buffer; its length there.
pub fn save_part(
    part: u32,
    control: Control,
    table: &[u32],
    names: &[u8],
    committed: &[u8],
    staged: &[u8],
    image: &[u8],
    hash: &[u8],
    buffer: &mut [u8],
) -> Result<usize, Code>
    ensures buffer_after { call_of result buffer.new ≡ saved_into part (state_of control table.now names.now committed.now staged.now image.now hash.now) buffer.old }
    ensures len_le_buffer_size { IfOk result (λ len. (len ≤ buffer_size) × (len ≤ length buffer.new)) }
    ensures refused { IfErr result (λ c. c.0 ≢ success) }
{
    if buffer.len() != BUFFER_SIZE {
        return Err(Code::NOT_SOUND);
    }
    if !sound(control, table, names, committed, staged, image, hash) {
        return Err(Code::NOT_SOUND);
    }
    write_part(part, control, names, committed, buffer)
}
