// Delete. A refusal changes nothing.
#![tactic(auto)]

ghost use Rattle.std.specs.Prelude.{◌≡◌, List, ℕ};
ghost use Rattle.protocol.specs.Inside.{BlobInside};
ghost use Rattle.state.specs.State.{state_of};
ghost use Rattle.state.specs.Lent.{TableLent, NamesLent, RegionsLent};
ghost use Rattle.response_types.specs.After.{after_said};
ghost use Rattle.rules.specs.Named.{delete_blob, delete_store};

use lookup::{find_name, find_row};
use memory_slots::free_slot;
use protocol::{Blob, Code};
use response_types::Said;
use state::Control;
use state::row::Wanted;

// Delete of a store name.
fn delete_store(
    name: &[u8],
    control: &mut Control,
    table: &[u32],
    names: &mut [u8],
    committed: &mut [u8],
    staged: &mut [u8],
) -> Result<Said, Code>
    requires { TableLent table.now × (NamesLent names.old × (RegionsLent committed.old × RegionsLent staged.old)) }
    ensures { (image hash answer : List ℕ) → after_said result control.new table.now names.new committed.new staged.new image hash answer ≡ delete_store name.now (state_of control.old table.now names.old committed.old staged.old image hash) }
{
    let Some(k) = find_name(names, control.slots, name) else {
        return Err(Code::NOT_FOUND);
    };
    let None = find_row(table, control.rows, Wanted::OnBlob(k as u32)) else {
        return Err(Code::BUSY);
    };
    free_slot(k, control, names, committed, staged);
    Ok(Said::Done)
}

// Delete by what the name names (rule 14.1). A name that is not held has no session, so the slot is looked up before the session.
pub fn delete(
    blob: Blob,
    message: &[u8],
    control: &mut Control,
    table: &[u32],
    names: &mut [u8],
    committed: &mut [u8],
    staged: &mut [u8],
) -> Result<Said, Code>
    requires { BlobInside message.now blob × (TableLent table.now × (NamesLent names.old × (RegionsLent committed.old × RegionsLent staged.old))) }
    ensures { (image hash answer : List ℕ) → after_said result control.new table.now names.new committed.new staged.new image hash answer ≡ delete_blob blob message.now (state_of control.old table.now names.old committed.old staged.old image hash) }
{
    match blob {
        Blob::Store { start, len } => {
            let name = &message[start..start + len];
            delete_store(name, control, table, names, committed, staged)
        }
        Blob::Flash(_) | Blob::Base => Err(Code::NOT_SUPPORTED),
        Blob::Unknown => Err(Code::NOT_FOUND),
    }
}
