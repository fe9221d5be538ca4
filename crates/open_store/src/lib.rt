// Open of a store name, after the sweep. A refusal changes nothing.
#![tactic(auto)]

ghost use Rattle.std.specs.Prelude.{◌≡◌, List, ℕ, ◌<◌, ◌≤◌, length};
ghost use Rattle.protocol.specs.Numbers.{slot_count, name_most, sixteen_bits};
ghost use Rattle.state.specs.State.{store_of, state_of};
ghost use Rattle.state.specs.Lent.{TableLent, NamesLent, RegionsLent};
ghost use Rattle.rules.specs.Open.{open_store};
ghost use Rattle.response_types.specs.After.{after_said};
ghost use Rattle.open_steps.specs.Steps.{FreeZero};
ghost use Rattle.state.specs.declared.row.Wanted.TheVariants.{OnBlob};
ghost use Rattle.rules.specs.Session.{row_found};
ghost use Rattle.rules.specs.Lookup.{free_row_in, free_slot_in};
ghost use Rattle.open_steps.specs.Ways.{open_new, open_held};

use lookup::{find_name, find_row};
use open_steps::{new_slot, open_row, stage_slot};
use protocol::Code;
use response_types::Said;
use state::Control;
use state::mask::lowest_free;
use state::row::{Wanted, store_flags, writes_with};

// A new name takes the lowest free row and slot.
fn open_new(
    name: &[u8],
    flags: u16,
    clock: u32,
    control: &mut Control,
    table: &mut [u32],
    names: &mut [u8],
) -> Result<Said, Code>
    requires { (length name.now ≤ name_most) × ((control.old.next < sixteen_bits) × (TableLent table.old × NamesLent names.old)) }
    ensures { (committed staged image hash answer : List ℕ) → FreeZero (store_of control.old names.old committed staged) → after_said result control.new table.new names.new committed staged image hash answer ≡ open_new (free_row_in (state_of control.old table.old names.old committed staged image hash)) (free_slot_in (state_of control.old table.old names.old committed staged image hash)) name.now flags clock (state_of control.old table.old names.old committed staged image hash) }
{
    let r = lowest_free(control.rows).ok_or(Code::NO_ROOM)?;
    let k = lowest_free(control.slots).ok_or(Code::NO_ROOM)?;
    new_slot(k, name, control, names);
    Ok(open_row(r, k as u32, flags, 0, clock, control, table))
}

// The name that slot k holds takes the lowest free row, if no session is on it.
fn open_held(
    k: usize,
    flags: u16,
    clock: u32,
    control: &mut Control,
    table: &mut [u32],
    committed: &[u8],
    staged: &mut [u8],
) -> Result<Said, Code>
    requires { (k < slot_count) × ((control.old.next < sixteen_bits) × (TableLent table.old × (RegionsLent committed.now × RegionsLent staged.old))) }
    ensures { (names image hash answer : List ℕ) → after_said result control.new table.new names committed.now staged.new image hash answer ≡ open_held (row_found (OnBlob k) (state_of control.old table.old names committed.now staged.old image hash)) k flags clock (state_of control.old table.old names committed.now staged.old image hash) }
{
    if find_row(table, control.rows, Wanted::OnBlob(k as u32)).is_some() {
        return Err(Code::BUSY);
    }
    let r = lowest_free(control.rows).ok_or(Code::NO_ROOM)?;
    stage_slot(k, flags, control, committed, staged);
    Ok(open_row(r, k as u32, flags, 1, clock, control, table))
}

// Open of a store name: flags (CC), absence (CB), busy (C0), row, then slot (C4).
pub fn open_store(
    name: &[u8],
    flags: u16,
    clock: u32,
    control: &mut Control,
    table: &mut [u32],
    names: &mut [u8],
    committed: &mut [u8],
    staged: &mut [u8],
) -> Result<Said, Code>
    requires { (length name.now ≤ name_most) × ((control.old.next < sixteen_bits) × (TableLent table.old × (NamesLent names.old × (RegionsLent committed.old × (RegionsLent staged.old × FreeZero (store_of control.old names.old committed.old staged.old)))))) }
    ensures { (image hash answer : List ℕ) → after_said result control.new table.new names.new committed.new staged.new image hash answer ≡ open_store name.now flags clock (state_of control.old table.old names.old committed.old staged.old image hash) }
{
    if !store_flags(flags as u32) {
        return Err(Code::INVALID);
    }
    if let Some(k) = find_name(names, control.slots, name) {
        return open_held(k, flags, clock, control, table, committed, staged);
    }
    if !writes_with(flags as u32) {
        return Err(Code::NOT_FOUND);
    }
    open_new(name, flags, clock, control, table, names)
}
