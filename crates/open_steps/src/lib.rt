// The steps of Open: the row of a new session, and the slot of a new or a held name.
#![tactic(auto)]

ghost use Rattle.std.specs.Prelude.{◌≡◌, Ok, List, ℕ, ◌<◌, ◌≤◌, length};
ghost use Rattle.protocol.specs.Numbers.{row_count, slot_count, name_most, sixteen_bits};
ghost use Rattle.state.specs.declared.row.Place.TheVariants.{AtSlot};
ghost use Rattle.state.specs.State.{state_of, in_body};
ghost use Rattle.state.specs.Soundness.{slot_at};
ghost use Rattle.state.specs.Lent.{TableLent, NamesLent, RegionsLent};
ghost use Rattle.response_types.specs.After.{after_said};
ghost use Rattle.open_steps.specs.Steps.{named, row_opened};
ghost use Rattle.rules.specs.Opening.{held_slot};

use lookup::{fresh_id, next_id};
use memory_slots::{copy_region, put_name};
use response_types::Said;
use state::mask::set_bit;
use state::row::{Entry, word_with, write_row, writes_with};
use state::{Control, Status};

// Row r becomes that of a new session on the blob; its identifier is answered, and "next" becomes the identifier's successor.
pub fn open_row(
    r: usize,
    blob: u32,
    flags: u16,
    clean: u32,
    clock: u32,
    control: &mut Control,
    table: &mut [u32],
) -> Said
    requires { (r < row_count) × ((clean < 2) × ((control.old.next < sixteen_bits) × TableLent table.old)) }
    ensures { (names committed staged image hash answer : List ℕ) → after_said (Ok result) control.new table.new names committed staged image hash answer ≡ row_opened r blob flags clean clock (state_of control.old table.old names committed staged image hash) }
{
    let id = fresh_id(table, control.rows, control.next);
    let row = Entry {
        id,
        blob,
        word: word_with(flags as u32, Status::Untried, clean),
        stamp: clock,
    };
    write_row(table, r, row);
    control.rows = set_bit(control.rows, r);
    control.next = next_id(id);
    Said::Session { id: id as u16 }
}

// Slot k takes a new name. An unused slot of a sound state is zero already, so nothing is cleared.
pub fn new_slot(k: usize, name: &[u8], control: &mut Control, names: &mut [u8])
    requires { (k < slot_count) × ((length name.now ≤ name_most) × NamesLent names.old) }
    ensures { (table committed staged image hash : List ℕ) → state_of control.new table names.new committed staged image hash ≡ (in_body (AtSlot k)).put (named name.now (slot_at k (state_of control.old table names.old committed staged image hash))) (state_of control.old table names.old committed staged image hash) }
{
    put_name(names, k, name);
    control.slots = set_bit(control.slots, k);
}

// Slot k of a held name: a writing session's staged region and length become the committed ones.
pub fn stage_slot(k: usize, flags: u16, control: &mut Control, committed: &[u8], staged: &mut [u8])
    requires { (k < slot_count) × (RegionsLent committed.now × RegionsLent staged.old) }
    ensures { (table names image hash : List ℕ) → state_of control.new table names committed.now staged.new image hash ≡ (in_body (AtSlot k)).put (held_slot flags (slot_at k (state_of control.old table names committed.now staged.old image hash))) (state_of control.old table names committed.now staged.old image hash) }
{
    if writes_with(flags as u32) {
        copy_region(staged, committed, k);
        control.staged_len[k] = control.committed_len[k];
    }
}
