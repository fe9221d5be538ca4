// The reader: a store file is judged, and its blobs take the place of the store.
#![tactic(auto)]

ghost use Rattle.std.specs.Prelude.{◌≡◌, ◌≢◌, List, ℕ, ◌*◌, ◌<◌, replicate, IfErr};
ghost use Rattle.protocol.specs.Numbers.{success, row_count, slot_count, slot_size};
ghost use Rattle.state.specs.declared.row.Place.TheVariants.{AtSlot};
ghost use Rattle.state.specs.State.{State, state_of, with_rows, in_store, in_body};
ghost use Rattle.state.specs.Words.{fresh};
ghost use Rattle.state.specs.Lent.{TableLent, NamesLent, RegionsLent};
ghost use Rattle.store_file.specs.Loaded.{on_store, store_open, slot_with, loaded};
ghost use Rattle.store_file.specs.Messages.{scan_at};
ghost use Rattle.store_file.specs.Storable.{Storable};
ghost use Rattle.store_file.specs.Scans.{scans_from};
ghost use Rattle.store_loader.specs.Filling.{Fitting, filling, loaded_of};

use memory_copy::clear_at;
use memory_slots::{put_name, put_region};
use protocol::Code;
use sound::sound;
use state::mask::{has, set_bit};
use state::row::read_row;
use state::{Control, NAME_SIZE, ROWS, SLOT_SIZE, SLOTS};
use store_check::reason_against;
use store_file::{BLOB_DATA, BLOB_NAME, STORE_BLOB};
use wire::Field;
use wire_reader::{Fields, last_field};

// Row r is a store session's.
fn on_store(rows: u32, table: &[u32], r: usize) -> bool
    requires { TableLent table.now × (r < row_count) }
    ensures { (s : State) → result ≡ on_store (with_rows rows table.now s) r }
{
    let e = read_row(table, r);
    has(rows, r) & (e.blob < SLOTS as u32)
}

// Some store session is open.
fn store_open(rows: u32, table: &[u32]) -> bool
    requires { TableLent table.now }
    ensures { (s : State) → result ≡ store_open (with_rows rows table.now s) }
{
    let mut none = true;
    for r in 0..ROWS {
        none &= !on_store(rows, table, r);
    }
    !none
}

// Every slot becomes unused: names, regions, masks and lengths are zeroed.
fn clear_store(control: &mut Control, names: &mut [u8], committed: &mut [u8], staged: &mut [u8])
    requires { NamesLent names.old × (RegionsLent committed.old × RegionsLent staged.old) }
    ensures { (table image hash : List ℕ) → state_of control.new table names.new committed.new staged.new image hash ≡ in_store.put fresh.store (state_of control.old table names.old committed.old staged.old image hash) }
{
    clear_at(names, 0, SLOTS * NAME_SIZE);
    clear_at(committed, 0, SLOTS * SLOT_SIZE);
    clear_at(staged, 0, SLOTS * SLOT_SIZE);
    control.slots = 0;
    control.marks = 0;
    control.committed_len = [0; SLOTS];
    control.staged_len = [0; SLOTS];
}

// A blob of the file becomes slot k. Staged bytes are zero already.
fn fill_slot(
    file: &[u8],
    blob: Field,
    k: usize,
    control: &mut Control,
    names: &mut [u8],
    committed: &mut [u8],
)
    requires { (k < slot_count) × (NamesLent names.old × (RegionsLent committed.old × Fitting file.now blob)) }
    ensures { (table staged image hash : List ℕ) → staged ≡ replicate (slot_count * slot_size) 0 → state_of control.new table names.new committed.new staged image hash ≡ (in_body (AtSlot k)).put (slot_with (scan_at file.now blob)) (state_of control.old table names.old committed.old staged image hash) }
{
    let name = last_field(file, blob.start, blob.next, BLOB_NAME);
    put_name(names, k, name);
    let scan = last_field(file, blob.start, blob.next, BLOB_DATA);
    put_region(committed, k, scan);
    control.slots = set_bit(control.slots, k);
    control.marks = set_bit(control.marks, k);
    control.committed_len[k] = scan.len() as u32;
    control.staged_len[k] = 0;
}

// The file's blobs become the slots, in their order.
fn fill_all(file: &[u8], control: &mut Control, names: &mut [u8], committed: &mut [u8])
    requires { NamesLent names.old × (RegionsLent committed.old × Storable (scans_from file.now 0)) }
    ensures { (table staged image hash : List ℕ) → staged ≡ replicate (slot_count * slot_size) 0 → state_of control.new table names.new committed.new staged image hash ≡ filling 0 (scans_from file.now 0) (state_of control.old table names.old committed.old staged image hash) }
{
    for (k, blob) in Fields::new(file, 0, file.len(), STORE_BLOB).enumerate() {
        fill_slot(file, blob, k, control, names, committed);
    }
}

// Loads a store file into the state that the caller lends. A state that is not sound, an open store session and any fault of the file are
// refused, and all is left as it was.
pub fn load(
    file: &[u8],
    control: &mut Control,
    table: &[u32],
    names: &mut [u8],
    committed: &mut [u8],
    staged: &mut [u8],
    image: &[u8],
    hash: &[u8],
) -> Result<(), Code>
    ensures loads { loaded_of result control.new table.now names.new committed.new staged.new image.now hash.now ≡ loaded file.now (state_of control.old table.now names.old committed.old staged.old image.now hash.now) }
    ensures refused { IfErr result (λ c. c.0 ≢ success) }
{
    if !sound(*control, table, names, committed, staged, image, hash) {
        return Err(Code::NOT_SOUND);
    }
    if store_open(control.rows, table) {
        return Err(Code::SESSION_OPEN);
    }
    reason_against(file)?;
    clear_store(control, names, committed, staged);
    fill_all(file, control, names, committed);
    Ok(())
}
