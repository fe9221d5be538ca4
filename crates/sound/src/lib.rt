// Whether a state is sound, clause by clause in the order of document 01.
#![tactic(auto)]

ghost use Rattle.std.specs.Prelude.{◌≡◌, List, ℕ};
ghost use Rattle.state.specs.State.{state_of};
ghost use Rattle.state.specs.Memory.{state_in};
ghost use Rattle.state.specs.Soundness.{lent_right, values_fit, flash_fits, is_sound};

use sound_rows::{all_apart, rows_ok};
use sound_slots::{all_names_apart, slots_ok};
use state::{
    Control, HASH_SIZE, IMAGE_SIZE, Memory, NAME_SIZE, ROW_WORDS, ROWS, SIXTEEN_BITS, SLOT_SIZE,
    SLOTS,
};

// Lent lengths are exact. Those of the two arrays of `control` need no test: their type gives them.
fn lent_right(
    control: Control,
    table: &[u32],
    names: &[u8],
    committed: &[u8],
    staged: &[u8],
    image: &[u8],
    hash: &[u8],
) -> bool
    ensures { result ≡ lent_right (state_of control table.now names.now committed.now staged.now image.now hash.now) }
{
    (((table.len() == ROWS * ROW_WORDS) & (names.len() == SLOTS * NAME_SIZE))
        & ((committed.len() == SLOTS * SLOT_SIZE) & (staged.len() == SLOTS * SLOT_SIZE)))
        & ((image.len() == IMAGE_SIZE) & (hash.len() == HASH_SIZE))
}

// Masks and next identifier are below 65,536.
#[tactic(auto, unfolding(state::specs::Soundness::values_fit))]
fn values_fit(control: Control) -> bool
    ensures { (t n c g i h : List ℕ) → result ≡ values_fit (state_of control t n c g i h) }
{
    ((control.rows < SIXTEEN_BITS) & (control.slots < SIXTEEN_BITS))
        & ((control.marks < SIXTEEN_BITS) & (control.next < SIXTEEN_BITS))
}

// Lengths of image and hash fit; in Idle both are 0.
#[tactic(auto, unfolding(state::specs::Soundness::flash_fits, protocol::specs::Numbers::image_size, protocol::specs::Numbers::hash_size))]
fn flash_fits(control: Control) -> bool
    ensures { (t n c g i h : List ℕ) → result ≡ flash_fits (state_of control t n c g i h).flash_group }
{
    let phase = control.phase;
    ((control.image_len <= IMAGE_SIZE as u32) & (control.hash_len <= HASH_SIZE as u32))
        & (!phase.is_idle() | ((control.image_len == 0) & (control.hash_len == 0)))
}

// The state that these values and this lent memory make is sound.
pub fn sound(
    control: Control,
    table: &[u32],
    names: &[u8],
    committed: &[u8],
    staged: &[u8],
    image: &[u8],
    hash: &[u8],
) -> bool
    ensures { result ≡ is_sound (state_of control table.now names.now committed.now staged.now image.now hash.now) }
{
    if !lent_right(control, table, names, committed, staged, image, hash) {
        return false;
    }
    (values_fit(control) & flash_fits(control))
        & ((rows_ok(control, table) & all_apart(control.rows, table))
            & (slots_ok(control, table, names, committed, staged)
                & all_names_apart(control.slots, names)))
}

// What is lent makes a sound state.
pub fn is_sound(memory: &Memory<'_>) -> bool
    ensures { result ≡ is_sound (state_in memory.now) }
{
    sound(
        memory.control,
        memory.table,
        memory.names,
        memory.committed,
        memory.staged,
        memory.image,
        memory.hash,
    )
}
