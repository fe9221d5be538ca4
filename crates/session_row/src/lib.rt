// What the commands on a session's row share: Write's checks, Commit's check, the state bits.
#![tactic(auto)]

ghost use Rattle.std.specs.Prelude.{◌≡◌, cond, ◌+◌, ◌≤◌, ◌<◌, length};
ghost use Rattle.protocol.specs.Numbers.{sixteen_bits};
ghost use Rattle.rules.specs.Command.{commit_fits, state_bits};
ghost use Rattle.session_row.specs.Write.{written, region_by};

use memory_copy::copy_at;
use protocol::{BlobState, Code, Flags};
use state::row::Entry;

// A Write into a region of `capacity` bytes that starts at `start` and has `len` bytes so far: the length after it, or a refusal, which changes nothing.
pub fn write_region(
    region: &mut [u8],
    start: usize,
    capacity: usize,
    len: u32,
    offset: u32,
    bytes: &[u8],
) -> Result<u32, Code>
    requires { (start + capacity ≤ length region.old) × (capacity < sixteen_bits) }
    ensures { (result ≡ written capacity len offset (length bytes.now)) × (region.new ≡ region_by result (start + offset) bytes.now region.old) }
{
    if len < offset {
        return Err(Code::OUT_OF_RANGE);
    }
    let end = offset as usize + bytes.len();
    if capacity < end {
        return Err(Code::TOO_LONG);
    }
    copy_at(region, start + offset as usize, bytes);
    Ok(len.max(end as u32))
}

// A commit's length byte equals the bytes after it and is 0.
pub fn commit_fits(len: u8, rest: usize) -> bool
    ensures { result ≡ commit_fits len rest }
{
    (len as usize == rest) & (len == 0)
}

// The bit, or none.
fn bit_if(on: bool, bit: BlobState) -> u16
    ensures { (result ≡ cond on bit.0 0) × (result ≤ bit.0) }
{
    if on { bit.0 } else { 0 }
}

// The state bits of an open session.
pub fn state_bits(e: Entry) -> u16
    ensures { result ≡ state_bits e.word }
{
    let status = e.status();
    let clean = e.clean();
    let reading = bit_if(
        e.flags() / Flags::READ.0 as u32 % 2 == 1,
        BlobState::OPEN_READ,
    );
    let writing = bit_if(e.writes(), BlobState::OPEN_WRITE);
    let committing = bit_if(status.is_running(), BlobState::COMMITTING);
    let committed = bit_if(status.is_succeeded() | (clean == 1), BlobState::COMMITTED);
    let failed = bit_if(status.is_failed(), BlobState::COMMIT_ERROR);
    reading + (writing + (committing + (committed + failed)))
}
