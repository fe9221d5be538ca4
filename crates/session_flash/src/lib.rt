// The commands on the flash session, whose row r the code has read as e. A refusal changes nothing.
#![tactic(auto)]

ghost use Rattle.std.specs.Prelude.{◌≡◌, ◌≢◌, IfErr, List, ℕ, ◌<◌, length, replicate};
ghost use Rattle.protocol.specs.Numbers.{success, image_size, hash_size, sixteen_bits};
ghost use Rattle.state.specs.declared.row.Place.TheVariants.{AtFlash};
ghost use Rattle.state.specs.Job.{status_number};
ghost use Rattle.state.specs.State.{place_of, state_of};
ghost use Rattle.state.specs.Entry.{words_of, lifted};
ghost use Rattle.rules.specs.Command.{write, commit, stat, close, end_job};
ghost use Rattle.rules.specs.Flash.{flash_length, verdict};
ghost use Rattle.rules.specs.Session.{on_row};
ghost use Rattle.response_types.specs.After.{after_said};
ghost use Rattle.state.specs.Lent.{ImageLent, HashLent};
ghost use Rattle.session_row.specs.Lent.{RowIs};
ghost use Rattle.session_row.specs.Write.{written, region_by, table_by};
ghost use Rattle.session_flash.specs.Jobs.{startable_in, started, updated_by, closed_phase};

use memory_copy::clear_at;
use protocol::{Code, FlashKind};
use response_types::Said;
use session_row::{commit_fits, state_bits, write_region};
use state::mask::clear_bit;
use state::row::{Entry, clear_row, kind_of, write_row};
use state::values::empty_flash;
use state::{Control, HASH_SIZE, IMAGE_SIZE, Phase, Status};

// A Write into a region that has `len` bytes so far: the image or the hash. The row's stamp is lifted if it is accepted.
fn write_whole(
    table: &mut [u32],
    region: &mut [u8],
    len: u32,
    r: usize,
    e: Entry,
    clock: u32,
    offset: u32,
    bytes: &[u8],
) -> Result<u32, Code>
    requires { RowIs table.old r e × (length region.old < sixteen_bits) }
    ensures { (result ≡ written (length region.old) len offset (length bytes.now)) × ((region.new ≡ region_by result offset bytes.now region.old) × (table.new ≡ table_by result r (words_of (lifted e clock)) table.old)) }
{
    let capacity = region.len();
    let written = write_region(region, 0, capacity, len, offset, bytes)?;
    write_row(table, r, e.lifted(clock));
    Ok(written)
}

// Write, to the image or the hash.
pub fn write(
    control: &mut Control,
    table: &mut [u32],
    image: &mut [u8],
    hash: &mut [u8],
    r: usize,
    e: Entry,
    clock: u32,
    offset: u32,
    bytes: &[u8],
) -> Result<Said, Code>
    requires { RowIs table.old r e × ((place_of e.blob ≡ AtFlash) × (ImageLent image.old × HashLent hash.old)) }
    ensures { (names committed staged answer : List ℕ) → after_said result control.new table.new names committed staged image.new hash.new answer ≡ on_row r clock (write offset bytes.now) (state_of control.old table.old names committed staged image.old hash.old) }
{
    match kind_of(e.blob) {
        FlashKind::Image => {
            let len = control.image_len;
            control.image_len = write_whole(table, image, len, r, e, clock, offset, bytes)?;
            Ok(Said::Done)
        }
        FlashKind::Hash => {
            let len = control.hash_len;
            control.hash_len = write_whole(table, hash, len, r, e, clock, offset, bytes)?;
            Ok(Said::Done)
        }
        FlashKind::Verify | FlashKind::Update | FlashKind::Cleanup => Err(Code::NOT_SUPPORTED),
    }
}

// Image and hash become zeros.
pub fn clear_flash(image: &mut [u8], hash: &mut [u8])
    requires { ImageLent image.old × HashLent hash.old }
    ensures { (image.new ≡ replicate image_size 0) × (hash.new ≡ replicate hash_size 0) }
{
    clear_at(image, 0, IMAGE_SIZE);
    clear_at(hash, 0, HASH_SIZE)
}

// A job can start where none was tried or the last one failed.
fn startable(e: Entry) -> bool
    ensures { result ≡ startable_in e.word }
{
    matches!(e.status(), Status::Untried | Status::Failed)
}

// The row with its job started, where it can start.
fn started(e: Entry) -> Entry
    ensures { result ≡ started e }
{
    if startable(e) {
        e.with_status(Status::Running)
    } else {
        e
    }
}

// Commit starts the job of verify or update, or cleans up.
pub fn commit(
    control: &mut Control,
    table: &mut [u32],
    image: &mut [u8],
    hash: &mut [u8],
    r: usize,
    e: Entry,
    clock: u32,
    len: u8,
    rest: usize,
) -> Result<Said, Code>
    requires { RowIs table.old r e × ((place_of e.blob ≡ AtFlash) × (ImageLent image.old × HashLent hash.old)) }
    ensures { (names committed staged answer : List ℕ) → after_said result control.new table.new names committed staged image.new hash.new answer ≡ on_row r clock (commit len rest) (state_of control.old table.old names committed staged image.old hash.old) }
{
    if !commit_fits(len, rest) {
        return Err(Code::INVALID);
    }
    match kind_of(e.blob) {
        FlashKind::Image | FlashKind::Hash => Err(Code::NOT_SUPPORTED),
        FlashKind::Verify => {
            write_row(table, r, started(e).lifted(clock));
            if startable(e) {
                control.phase = Phase::Uploading;
            }
            Ok(Said::Done)
        }
        FlashKind::Update => {
            write_row(table, r, started(e).lifted(clock));
            Ok(Said::Done)
        }
        FlashKind::Cleanup => {
            clear_flash(image, hash);
            write_row(table, r, e.with_status(Status::Succeeded).lifted(clock));
            empty_flash(control);
            Ok(Said::Done)
        }
    }
}

// An update has succeeded.
fn is_updated(kind: FlashKind, status: Status) -> bool
    ensures { result ≡ updated_by kind (status_number status) }
{
    matches!((kind, status), (FlashKind::Update, Status::Succeeded))
}

// The phase after the Close of a session whose job has this status.
fn closed_phase(kind: FlashKind, status: Status, phase: Phase) -> Phase
    ensures { result ≡ closed_phase kind (status_number status) phase }
{
    match (kind, status) {
        (FlashKind::Verify, Status::Succeeded) => Phase::Verified,
        (FlashKind::Verify | FlashKind::Update, Status::Failed) => Phase::Uploading,
        _ => phase,
    }
}

// The row is freed, and the phase follows the job.
pub fn close(
    control: &mut Control,
    table: &mut [u32],
    image: &mut [u8],
    hash: &mut [u8],
    r: usize,
    e: Entry,
) -> Result<Said, Code>
    requires { RowIs table.old r e × ((place_of e.blob ≡ AtFlash) × (ImageLent image.old × HashLent hash.old)) }
    ensures { (clock : ℕ) (names committed staged answer : List ℕ) → after_said result control.new table.new names committed staged image.new hash.new answer ≡ on_row r clock close (state_of control.old table.old names committed staged image.old hash.old) }
{
    let status = e.status();
    if status.is_running() {
        return Err(Code::BUSY);
    }
    clear_row(table, r);
    control.rows = clear_bit(control.rows, r);
    let kind = kind_of(e.blob);
    if is_updated(kind, status) {
        clear_flash(image, hash);
        empty_flash(control);
        return Ok(Said::Done);
    }
    control.phase = closed_phase(kind, status, control.phase);
    Ok(Said::Done)
}

// The length of what a flash name holds.
pub fn flash_length(kind: FlashKind, control: Control) -> u32
    ensures { (table names committed staged image hash : List ℕ) → result ≡ flash_length kind (state_of control table names committed staged image hash).flash_group }
{
    match kind {
        FlashKind::Image => control.image_len,
        FlashKind::Hash => control.hash_len,
        FlashKind::Verify | FlashKind::Update | FlashKind::Cleanup => 0,
    }
}

// SessionStat.
pub fn stat(
    control: Control,
    table: &mut [u32],
    r: usize,
    e: Entry,
    clock: u32,
) -> Result<Said, Code>
    requires { RowIs table.old r e × (place_of e.blob ≡ AtFlash) }
    ensures { (names committed staged image hash answer : List ℕ) → after_said result control table.new names committed staged image hash answer ≡ on_row r clock stat (state_of control table.old names committed staged image hash) }
{
    let size = flash_length(kind_of(e.blob), control);
    let state = state_bits(e);
    write_row(table, r, e.lifted(clock));
    Ok(Said::Stat { state, size })
}

// The status that an outcome gives.
fn verdict(good: bool) -> Status
    ensures { status_number result ≡ verdict good }
{
    if good {
        Status::Succeeded
    } else {
        Status::Failed
    }
}

// A job's outcome; no stamp changes.
pub fn end_job(
    control: Control,
    table: &mut [u32],
    r: usize,
    e: Entry,
    good: bool,
) -> Result<Said, Code>
    requires { RowIs table.old r e × (place_of e.blob ≡ AtFlash) }
    ensures refused { IfErr result (λ code. code.0 ≢ success) }
    ensures ended { (clock : ℕ) (names committed staged image hash answer : List ℕ) → after_said result control table.new names committed staged image hash answer ≡ on_row r clock (end_job good) (state_of control table.old names committed staged image hash) }
{
    if e.status().is_running() {
        write_row(table, r, e.with_status(verdict(good)));
        return Ok(Said::Done);
    }
    Err(Code::NOT_SUPPORTED)
}
