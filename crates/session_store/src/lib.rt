// The commands on a store session, whose row r the code has read as e, and which is on slot k. A refusal changes nothing.
#![tactic(auto)]

ghost use Rattle.std.specs.Prelude.{◌≡◌, cond, List, ℕ, ◌+◌, ◌*◌, ◌≤◌, ◌<◌, eqb, length, get_or};
ghost use Rattle.laws.specs.Ranges.{part};
ghost use Rattle.protocol.specs.Numbers.{slot_count, read_most};
ghost use Rattle.state.specs.State.{state_of};
ghost use Rattle.state.specs.Entry.{clean_set};
ghost use Rattle.rules.specs.Store.{read_count};
ghost use Rattle.rules.specs.Command.{read, write, commit, stat, close};
ghost use Rattle.rules.specs.Session.{on_row};
ghost use Rattle.response_types.specs.After.{after_said, fields_laid, fields_length};
ghost use Rattle.state.specs.Lent.{NamesLent, RegionsLent, AnswerLent};
ghost use Rattle.session_row.specs.Lent.{LengthsFit, RowIs, OnSlot};

use memory_copy::copy_at;
use memory_slots::{clear_region, copy_region, free_slot};
use protocol::{Code, FIELDS_AT, READ_MOST};
use response_types::Said;
use session_row::{commit_fits, state_bits, write_region};
use state::mask::{clear_bit, has, set_bit};
use state::row::{Entry, clear_row, write_row};
use state::{Control, SLOT_SIZE};

// The row after an accepted Write of n bytes: a nonempty one clears clean.
fn after_write(e: Entry, n: usize) -> Entry
    ensures { result ≡ cond (eqb n 0) e (clean_set e 0) }
{
    if n == 0 { e } else { e.with_clean(0) }
}

// Write into the staged region.
pub fn write(
    control: &mut Control,
    table: &mut [u32],
    staged: &mut [u8],
    r: usize,
    e: Entry,
    k: usize,
    clock: u32,
    offset: u32,
    bytes: &[u8],
) -> Result<Said, Code>
    requires { RowIs table.old r e × (OnSlot e k × RegionsLent staged.old) }
    ensures { (names committed image hash answer : List ℕ) → after_said result control.new table.new names committed staged.new image hash answer ≡ on_row r clock (write offset bytes.now) (state_of control.old table.old names committed staged.old image hash) }
{
    if !e.writes() {
        return Err(Code::NOT_SUPPORTED);
    }
    let len = control.staged_len[k];
    let written = write_region(staged, k * SLOT_SIZE, SLOT_SIZE, len, offset, bytes)?;
    control.staged_len[k] = written;
    write_row(table, r, after_write(e, bytes.len()).lifted(clock));
    Ok(Said::Done)
}

// Commit: what is staged is committed too (rule 12.3).
pub fn commit(
    control: &mut Control,
    table: &mut [u32],
    committed: &mut [u8],
    staged: &[u8],
    r: usize,
    e: Entry,
    k: usize,
    clock: u32,
    len: u8,
    rest: usize,
) -> Result<Said, Code>
    requires { RowIs table.old r e × (OnSlot e k × (RegionsLent committed.old × RegionsLent staged.now)) }
    ensures { (names image hash answer : List ℕ) → after_said result control.new table.new names committed.new staged.now image hash answer ≡ on_row r clock (commit len rest) (state_of control.old table.old names committed.old staged.now image hash) }
{
    if !commit_fits(len, rest) {
        return Err(Code::INVALID);
    }
    if !e.writes() {
        return Err(Code::NOT_SUPPORTED);
    }
    copy_region(committed, staged, k);
    write_row(table, r, e.with_clean(1).lifted(clock));
    control.committed_len[k] = control.staged_len[k];
    control.marks = set_bit(control.marks, k);
    Ok(Said::Done)
}

// The row is freed; a writing session's staged region is zeroed, and its slot freed if it was never committed.
pub fn close(
    control: &mut Control,
    table: &mut [u32],
    names: &mut [u8],
    committed: &mut [u8],
    staged: &mut [u8],
    r: usize,
    e: Entry,
    k: usize,
) -> Result<Said, Code>
    requires { RowIs table.old r e × (OnSlot e k × (NamesLent names.old × (RegionsLent committed.old × RegionsLent staged.old))) }
    ensures { (clock : ℕ) (image hash answer : List ℕ) → after_said result control.new table.new names.new committed.new staged.new image hash answer ≡ on_row r clock close (state_of control.old table.old names.old committed.old staged.old image hash) }
{
    clear_row(table, r);
    control.rows = clear_bit(control.rows, r);
    if !e.writes() {
        return Ok(Said::Done);
    }
    if !has(control.marks, k) {
        free_slot(k, control, names, committed, staged);
        return Ok(Said::Done);
    }
    clear_region(staged, k);
    control.staged_len[k] = 0;
    Ok(Said::Done)
}

// How many bytes a Read shows.
fn read_count(requested: u32, offset: u32, len: u32) -> u32
    ensures { result ≡ read_count requested offset len }
{
    requested.min(READ_MOST).min(len.saturating_sub(offset))
}

// The length that a session of slot k sees: the staged one if it writes, else the committed one.
pub fn seen_length(control: Control, k: usize, writing: bool) -> u32
    requires { k < slot_count }
    ensures { result ≡ cond writing (get_or control.staged_len k 0) (get_or control.committed_len k 0) }
{
    if writing {
        control.staged_len[k]
    } else {
        control.committed_len[k]
    }
}

// What an answer shows: a part of the staged slice or of the committed one.
fn source<'a>(committed: &'a [u8], staged: &'a [u8], writing: bool, at: usize, n: usize) -> &'a [u8]
    requires { (at + n ≤ length committed.now) × (at + n ≤ length staged.now) }
    ensures { result.now ≡ part at n (cond writing staged.now committed.now) }
{
    let end = at + n;
    if writing {
        &staged[at..end]
    } else {
        &committed[at..end]
    }
}

// Read: the bytes seen are laid behind the place of header and CRC.
pub fn read<'a>(
    control: Control,
    table: &mut [u32],
    committed: &'a [u8],
    staged: &'a [u8],
    answer: &mut [u8],
    r: usize,
    e: Entry,
    k: usize,
    clock: u32,
    offset: u32,
    count: u32,
) -> Result<Said, Code>
    requires { RowIs table.old r e × (OnSlot e k × (RegionsLent committed.now × (RegionsLent staged.now × (AnswerLent answer.old × LengthsFit control k)))) }
    ensures { (fields_length result ≤ read_most) × ((names image hash : List ℕ) → (after_said result control table.new names committed.now staged.now image hash answer.new ≡ on_row r clock (read offset count) (state_of control table.old names committed.now staged.now image hash)) × (answer.new ≡ fields_laid (on_row r clock (read offset count) (state_of control table.old names committed.now staged.now image hash)).0 answer.old)) }
{
    let writing = e.writes();
    let len = seen_length(control, k, writing);
    let n = read_count(count, offset, len) as usize;
    let from = offset.min(len) as usize;
    let shown = source(committed, staged, writing, k * SLOT_SIZE + from, n);
    copy_at(answer, FIELDS_AT, shown);
    write_row(table, r, e.lifted(clock));
    Ok(Said::Fields { len: n })
}

// SessionStat.
pub fn stat(
    control: Control,
    table: &mut [u32],
    r: usize,
    e: Entry,
    k: usize,
    clock: u32,
) -> Result<Said, Code>
    requires { RowIs table.old r e × OnSlot e k }
    ensures { (names committed staged image hash answer : List ℕ) → after_said result control table.new names committed staged image hash answer ≡ on_row r clock stat (state_of control table.old names committed staged image hash) }
{
    let size = seen_length(control, k, e.writes());
    let state = state_bits(e);
    write_row(table, r, e.lifted(clock));
    Ok(Said::Stat { state, size })
}
