// Work on lent memory: a slot's regions and name, a slot freed.
#![tactic(auto)]

ghost use Rattle.std.specs.Prelude.{◌≡◌, List, ℕ, ◌≤◌, ◌<◌, length, replicate};
ghost use Rattle.laws.specs.Ranges.{block};
ghost use Rattle.laws.specs.Bytes.{padded};
ghost use Rattle.protocol.specs.Numbers.{slot_count, name_size, slot_size};
ghost use Rattle.state.specs.declared.row.Place.TheVariants.{AtSlot};
ghost use Rattle.state.specs.State.{state_of, in_body};
ghost use Rattle.state.specs.Words.{free_slot};
ghost use Rattle.state.specs.Lent.{NamesLent, RegionsLent};

use memory_copy::{clear_at, copy_at};
use state::mask::clear_bit;
use state::{Control, NAME_SIZE, SLOT_SIZE};

// Slot k's region of dst becomes its region of src.
pub fn copy_region(dst: &mut [u8], src: &[u8], k: usize)
    requires { RegionsLent dst.old × (RegionsLent src.now × (k < slot_count)) }
    ensures { dst.new ≡ (block slot_size k).put ((block slot_size k).get src.now) dst.old }
{
    let at = k * SLOT_SIZE;
    let end = at + SLOT_SIZE;
    copy_at(dst, at, &src[at..end])
}

// Slot k's region of dst becomes zeros.
pub fn clear_region(dst: &mut [u8], k: usize)
    requires { RegionsLent dst.old × (k < slot_count) }
    ensures { dst.new ≡ (block slot_size k).put (replicate slot_size 0) dst.old }
{
    clear_at(dst, k * SLOT_SIZE, SLOT_SIZE)
}

// Slot k's name becomes zeros.
pub fn clear_name(names: &mut [u8], k: usize)
    requires { NamesLent names.old × (k < slot_count) }
    ensures { names.new ≡ (block name_size k).put (replicate name_size 0) names.old }
{
    clear_at(names, k * NAME_SIZE, NAME_SIZE)
}

// Slot k's name becomes this one, padded by zeros.
pub fn put_name(names: &mut [u8], k: usize, name: &[u8])
    requires { NamesLent names.old × ((k < slot_count) × (length name.now ≤ name_size)) }
    ensures { names.new ≡ (block name_size k).put (padded name_size name.now) names.old }
{
    let at = k * NAME_SIZE;
    copy_at(names, at, name);
    clear_at(names, at + name.len(), NAME_SIZE - name.len())
}

// Slot k's region of dst becomes these bytes, padded by zeros.
pub fn put_region(dst: &mut [u8], k: usize, bytes: &[u8])
    requires { RegionsLent dst.old × ((k < slot_count) × (length bytes.now ≤ slot_size)) }
    ensures { dst.new ≡ (block slot_size k).put (padded slot_size bytes.now) dst.old }
{
    let at = k * SLOT_SIZE;
    copy_at(dst, at, bytes);
    clear_at(dst, at + bytes.len(), SLOT_SIZE - bytes.len())
}

// Slot k becomes free: its name, its marks, its lengths and both regions are zeroed.
pub fn free_slot(
    k: usize,
    control: &mut Control,
    names: &mut [u8],
    committed: &mut [u8],
    staged: &mut [u8],
)
    requires { (k < slot_count) × (NamesLent names.old × (RegionsLent committed.old × RegionsLent staged.old)) }
    ensures { (table image hash : List ℕ) → state_of control.new table names.new committed.new staged.new image hash ≡ (in_body (AtSlot k)).put free_slot (state_of control.old table names.old committed.old staged.old image hash) }
{
    clear_name(names, k);
    clear_region(committed, k);
    clear_region(staged, k);
    control.slots = clear_bit(control.slots, k);
    control.marks = clear_bit(control.marks, k);
    control.committed_len[k] = 0;
    control.staged_len[k] = 0;
}
