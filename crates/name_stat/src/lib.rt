// Stat.
#![tactic(auto)]

ghost use Rattle.std.specs.Prelude.{◌≡◌, Ok, List, ℕ, ◌<◌};
ghost use Rattle.protocol.specs.Numbers.{row_count};
ghost use Rattle.protocol.specs.Frame.{reply};
ghost use Rattle.protocol.specs.Inside.{BlobInside};
ghost use Rattle.protocol.specs.declared.Blob.TheVariants.{Flash};
ghost use Rattle.state.specs.State.{state_of};
ghost use Rattle.state.specs.Lent.{TableLent, NamesLent};
ghost use Rattle.rules.specs.Session.{stat_row};
ghost use Rattle.response_types.specs.After.{reply_of};
ghost use Rattle.rules.specs.Named.{stat_blob, stat_name};

use lookup::{find_name, find_row};
use name_flash::flash_listed;
use protocol::{Blob, BlobState, Code, FlashKind};
use response_types::Said;
use session_flash::flash_length;
use session_row::state_bits;
use session_store::seen_length;
use state::Control;
use state::row::{Place, Wanted, kind_of, read_row};

// What SessionStat says of row r: the session's state bits, and the size of its view.
fn stat_row(control: Control, table: &[u32], r: usize) -> Said
    requires { (r < row_count) × TableLent table.now }
    ensures { (names committed staged image hash answer : List ℕ) → reply_of (Ok result) answer ≡ reply (stat_row r (state_of control table.now names committed staged image hash)) }
{
    let e = read_row(table, r);
    let state = state_bits(e);
    let size = match e.place() {
        Place::AtSlot(k) => seen_length(control, k, e.writes()),
        Place::AtFlash => flash_length(kind_of(e.blob), control),
    };
    Said::Stat { state, size }
}

// Stat of a store name: an open one as its session sees it, else committed with the committed size.
fn stat_store(name: &[u8], control: Control, table: &[u32], names: &[u8]) -> Result<Said, Code>
    requires { TableLent table.now × NamesLent names.now }
    ensures { (committed staged image hash answer : List ℕ) → reply_of result answer ≡ stat_name name.now (state_of control table.now names.now committed staged image hash) }
{
    let Some(k) = find_name(names, control.slots, name) else {
        return Err(Code::NOT_FOUND);
    };
    let Some(r) = find_row(table, control.rows, Wanted::OnBlob(k as u32)) else {
        return Ok(Said::Stat {
            state: BlobState::COMMITTED.0,
            size: seen_length(control, k, false),
        });
    };
    Ok(stat_row(control, table, r))
}

// Stat of a flash name, if it is listed.
fn stat_flash(kind: FlashKind, control: Control, table: &[u32]) -> Result<Said, Code>
    requires { TableLent table.now }
    ensures { (message names committed staged image hash answer : List ℕ) → reply_of result answer ≡ stat_blob (Flash kind) message (state_of control table.now names committed staged image hash) }
{
    if !flash_listed(kind, control.phase) {
        return Err(Code::NOT_FOUND);
    }
    let Some(r) = find_row(table, control.rows, Wanted::OnBlob(kind.number())) else {
        return Ok(Said::Stat {
            state: 0,
            size: flash_length(kind, control),
        });
    };
    Ok(stat_row(control, table, r))
}

// Stat: by what the name names; the base has zeros. No stamp changes.
pub fn stat(
    blob: Blob,
    message: &[u8],
    control: Control,
    table: &[u32],
    names: &[u8],
) -> Result<Said, Code>
    requires { BlobInside message.now blob × (TableLent table.now × NamesLent names.now) }
    ensures { (committed staged image hash answer : List ℕ) → reply_of result answer ≡ stat_blob blob message.now (state_of control table.now names.now committed staged image hash) }
{
    match blob {
        Blob::Store { start, len } => stat_store(
            &message[start..start + len],
            control,
            table,
            names,
        ),
        Blob::Flash(kind) => stat_flash(kind, control, table),
        Blob::Base => Ok(Said::Stat { state: 0, size: 0 }),
        Blob::Unknown => Err(Code::NOT_FOUND),
    }
}
