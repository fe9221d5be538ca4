// The commands by identifier: the row is found and read, and the store's code or the flash's does the work. A refusal changes nothing.
#![tactic(auto)]

ghost use Rattle.std.specs.Prelude.{◌≡◌, ◌≢◌, IfErr, List, ℕ, ◌≤◌, ◌<◌};
ghost use Rattle.protocol.specs.Numbers.{success, slot_count, read_most};
ghost use Rattle.state.specs.State.{state_of};
ghost use Rattle.rules.specs.Command.{read, write, commit, stat, close, write_meta, end_job};
ghost use Rattle.rules.specs.Session.{on_session};
ghost use Rattle.state.specs.declared.row.Wanted.TheVariants.{Id, OnFlash};
ghost use Rattle.response_types.specs.After.{after_said, fields_laid, fields_length};
ghost use Rattle.state.specs.Lent.{TableLent, NamesLent, RegionsLent, ImageLent, HashLent, AnswerLent};
ghost use Rattle.session_row.specs.Lent.{LengthsFit};

use lookup::find_row;
use protocol::Code;
use response_types::Said;
use state::Control;
use state::row::{Place, Wanted, read_row};

// Read.
pub fn read<'a>(
    control: Control,
    table: &mut [u32],
    committed: &'a [u8],
    staged: &'a [u8],
    answer: &mut [u8],
    id: u32,
    clock: u32,
    offset: u32,
    count: u32,
) -> Result<Said, Code>
    requires { TableLent table.old × (RegionsLent committed.now × (RegionsLent staged.now × (AnswerLent answer.old × ((k : ℕ) → k < slot_count → LengthsFit control k)))) }
    ensures { (fields_length result ≤ read_most) × ((names image hash : List ℕ) → (after_said result control table.new names committed.now staged.now image hash answer.new ≡ on_session (Id id) clock (read offset count) (state_of control table.old names committed.now staged.now image hash)) × (answer.new ≡ fields_laid (on_session (Id id) clock (read offset count) (state_of control table.old names committed.now staged.now image hash)).0 answer.old)) }
{
    let Some(r) = find_row(table, control.rows, Wanted::Id(id)) else {
        return Err(Code::NOT_FOUND);
    };
    let e = read_row(table, r);
    match e.place() {
        Place::AtSlot(k) => session_store::read(
            control, table, committed, staged, answer, r, e, k, clock, offset, count,
        ),
        Place::AtFlash => Err(Code::NOT_SUPPORTED),
    }
}

// Write.
pub fn write(
    control: &mut Control,
    table: &mut [u32],
    staged: &mut [u8],
    image: &mut [u8],
    hash: &mut [u8],
    id: u32,
    clock: u32,
    offset: u32,
    bytes: &[u8],
) -> Result<Said, Code>
    requires { TableLent table.old × (RegionsLent staged.old × (ImageLent image.old × HashLent hash.old)) }
    ensures { (names committed answer : List ℕ) → after_said result control.new table.new names committed staged.new image.new hash.new answer ≡ on_session (Id id) clock (write offset bytes.now) (state_of control.old table.old names committed staged.old image.old hash.old) }
{
    let Some(r) = find_row(table, control.rows, Wanted::Id(id)) else {
        return Err(Code::NOT_FOUND);
    };
    let e = read_row(table, r);
    match e.place() {
        Place::AtSlot(k) => {
            session_store::write(control, table, staged, r, e, k, clock, offset, bytes)
        }
        Place::AtFlash => {
            session_flash::write(control, table, image, hash, r, e, clock, offset, bytes)
        }
    }
}

// Commit, with its length byte and how many bytes follow that.
pub fn commit(
    control: &mut Control,
    table: &mut [u32],
    committed: &mut [u8],
    staged: &[u8],
    image: &mut [u8],
    hash: &mut [u8],
    id: u32,
    clock: u32,
    len: u8,
    rest: usize,
) -> Result<Said, Code>
    requires { TableLent table.old × (RegionsLent committed.old × (RegionsLent staged.now × (ImageLent image.old × HashLent hash.old))) }
    ensures { (names answer : List ℕ) → after_said result control.new table.new names committed.new staged.now image.new hash.new answer ≡ on_session (Id id) clock (commit len rest) (state_of control.old table.old names committed.old staged.now image.old hash.old) }
{
    let Some(r) = find_row(table, control.rows, Wanted::Id(id)) else {
        return Err(Code::NOT_FOUND);
    };
    let e = read_row(table, r);
    match e.place() {
        Place::AtSlot(k) => {
            session_store::commit(control, table, committed, staged, r, e, k, clock, len, rest)
        }
        Place::AtFlash => {
            session_flash::commit(control, table, image, hash, r, e, clock, len, rest)
        }
    }
}

// Close.
pub fn close(
    control: &mut Control,
    table: &mut [u32],
    names: &mut [u8],
    committed: &mut [u8],
    staged: &mut [u8],
    image: &mut [u8],
    hash: &mut [u8],
    id: u32,
) -> Result<Said, Code>
    requires { TableLent table.old × (NamesLent names.old × (RegionsLent committed.old × (RegionsLent staged.old × (ImageLent image.old × HashLent hash.old)))) }
    ensures { (clock : ℕ) (answer : List ℕ) → after_said result control.new table.new names.new committed.new staged.new image.new hash.new answer ≡ on_session (Id id) clock close (state_of control.old table.old names.old committed.old staged.old image.old hash.old) }
{
    let Some(r) = find_row(table, control.rows, Wanted::Id(id)) else {
        return Err(Code::NOT_FOUND);
    };
    let e = read_row(table, r);
    match e.place() {
        Place::AtSlot(k) => session_store::close(control, table, names, committed, staged, r, e, k),
        Place::AtFlash => session_flash::close(control, table, image, hash, r, e),
    }
}

// SessionStat.
pub fn stat(control: Control, table: &mut [u32], id: u32, clock: u32) -> Result<Said, Code>
    requires { TableLent table.old }
    ensures { (names committed staged image hash answer : List ℕ) → after_said result control table.new names committed staged image hash answer ≡ on_session (Id id) clock stat (state_of control table.old names committed staged image hash) }
{
    let Some(r) = find_row(table, control.rows, Wanted::Id(id)) else {
        return Err(Code::NOT_FOUND);
    };
    let e = read_row(table, r);
    match e.place() {
        Place::AtSlot(k) => session_store::stat(control, table, r, e, k, clock),
        Place::AtFlash => session_flash::stat(control, table, r, e, clock),
    }
}

// WriteMeta: no session supports it.
pub fn write_meta(control: Control, table: &[u32], id: u32) -> Result<Said, Code>
    requires { TableLent table.now }
    ensures { (clock : ℕ) (names committed staged image hash answer : List ℕ) → after_said result control table.now names committed staged image hash answer ≡ on_session (Id id) clock write_meta (state_of control table.now names committed staged image hash) }
{
    match find_row(table, control.rows, Wanted::Id(id)) {
        Some(_) => Err(Code::NOT_SUPPORTED),
        None => Err(Code::NOT_FOUND),
    }
}

// A job's outcome, of the flash session.
pub fn end_job(control: Control, table: &mut [u32], good: bool) -> Result<Said, Code>
    requires { TableLent table.old }
    ensures refused { IfErr result (λ code. code.0 ≢ success) }
    ensures ended { (clock : ℕ) (names committed staged image hash answer : List ℕ) → after_said result control table.new names committed staged image hash answer ≡ on_session OnFlash clock (end_job good) (state_of control table.old names committed staged image hash) }
{
    let Some(r) = find_row(table, control.rows, Wanted::OnFlash) else {
        return Err(Code::NOT_SUPPORTED);
    };
    let e = read_row(table, r);
    session_flash::end_job(control, table, r, e, good)
}
