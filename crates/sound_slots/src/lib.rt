// The soundness test's clauses on the slots of the store.
#![tactic(auto)]

ghost use Rattle.std.specs.Prelude.{◌≡◌, List, ℕ, ◌+◌, ◌*◌, ◌≤◌, ◌<◌, length};
ghost use Rattle.laws.specs.All.{all, pairs};
ghost use Rattle.laws.specs.Bytes.{zeros, same};
ghost use Rattle.laws.specs.Ranges.{part, block};
ghost use Rattle.protocol.specs.Numbers.{slot_count, name_size, slot_size};
ghost use Rattle.protocol.specs.Names.{store_field};
ghost use Rattle.state.specs.State.{State, Slot, state_of, with_names};
ghost use Rattle.state.specs.Soundness.{used_slot, unused_slot, slot_ok, names_apart};
ghost use Rattle.state.specs.Lent.{TableLent, NamesLent, RegionsLent};
ghost use Rattle.sound_slots.specs.Slots.{filled, names_same};

use request_names::{first_zero, same_bytes, store_name};
use sound_rows::{has_writer, none_clash};
use state::mask::{bit_of, has};
use state::{Control, NAME_SIZE, SLOT_SIZE, SLOTS};

// Every byte is zero. No early return, so that the loop is vectorised.
fn all_zero(bytes: &[u8]) -> bool
    ensures { result ≡ zeros bytes.now }
{
    let mut ok = true;
    for &b in bytes {
        ok = ok & (b == 0);
    }
    ok
}

// The n bytes from a place on are zero.
#[tactic(auto, using(crate::proofs::Laws::parts))]
fn zero_part(bytes: &[u8], at: usize, n: usize) -> bool
    requires { at + n ≤ length bytes.now }
    ensures { result ≡ zeros (part at n bytes.now) }
{
    let end = at + n;
    all_zero(&bytes[at..end])
}

// The bytes of a region are read by blocks: a loop of this length is unrolled whole, which is quicker than one over the region.
const BLOCK: usize = 1024;

const BLOCKS: usize = SLOT_SIZE / BLOCK;

// A slot's region, from a place on, is zero.
fn zero_region(bytes: &[u8], at: usize) -> bool
    requires { at + slot_size ≤ length bytes.now }
    ensures { result ≡ zeros (part at slot_size bytes.now) }
{
    let mut ok = true;
    for j in 0..BLOCKS {
        ok = ok & zero_part(bytes, at + j * BLOCK, BLOCK);
    }
    ok
}

// The n bytes from one place on and from another are the same.
#[tactic(auto, using(crate::proofs::Laws::parts))]
fn same_part(bytes: &[u8], a: usize, b: usize, n: usize) -> bool
    requires { (a + n ≤ length bytes.now) × (b + n ≤ length bytes.now) }
    ensures { result ≡ same (part a n bytes.now) (part b n bytes.now) }
{
    let a_end = a + n;
    let b_end = b + n;
    same_bytes(&bytes[a..a_end], &bytes[b..b_end])
}

// A name field holds a store name, padded by zeros.
fn store_field(field: &[u8]) -> bool
    requires { length field.now ≡ name_size }
    ensures { result ≡ store_field field.now }
{
    let n = first_zero(field);
    store_name(&field[..n]) & all_zero(&field[n..])
}

// Slot k's name field, and its mark and lengths, are those of a used slot.
fn used_slot(
    names: &[u8],
    k: usize,
    mark: u32,
    committed_len: u32,
    staged_len: u32,
    writer: bool,
) -> bool
    requires { NamesLent names.now × (k < slot_count) }
    ensures { (b : Slot) → result ≡ used_slot (filled ((block name_size k).get names.now) b.committed_bytes b.staged_bytes mark committed_len staged_len b) writer }
{
    let at = k * NAME_SIZE;
    let end = at + NAME_SIZE;
    let most = SLOT_SIZE as u32;
    (store_field(&names[at..end]) & ((committed_len <= most) & (staged_len <= most)))
        & (((mark == 1) | ((committed_len == 0) & writer)) & ((staged_len == 0) | writer))
}

// Slot k's name field and regions, and its mark and lengths, are zero.
fn unused_slot(
    names: &[u8],
    committed: &[u8],
    staged: &[u8],
    k: usize,
    mark: u32,
    committed_len: u32,
    staged_len: u32,
) -> bool
    requires { NamesLent names.now × (RegionsLent committed.now × (RegionsLent staged.now × (k < slot_count))) }
    ensures { (b : Slot) → result ≡ unused_slot (filled ((block name_size k).get names.now) ((block slot_size k).get committed.now) ((block slot_size k).get staged.now) mark committed_len staged_len b) }
{
    let at = k * SLOT_SIZE;
    ((mark == 0) & ((committed_len == 0) & (staged_len == 0)))
        & (zero_part(names, k * NAME_SIZE, NAME_SIZE)
            & (zero_region(committed, at) & zero_region(staged, at)))
}

// Slot k is right, used or not.
fn slot_ok(
    control: Control,
    table: &[u32],
    names: &[u8],
    committed: &[u8],
    staged: &[u8],
    k: usize,
) -> bool
    requires { TableLent table.now × (NamesLent names.now × (RegionsLent committed.now × (RegionsLent staged.now × (k < slot_count)))) }
    ensures { (i h : List ℕ) → result ≡ slot_ok (state_of control table.now names.now committed.now staged.now i h) k }
{
    let committed_lens = control.committed_len;
    let staged_lens = control.staged_len;
    let committed_len = committed_lens[k];
    let staged_len = staged_lens[k];
    let mark = bit_of(control.marks, k);
    if has(control.slots, k) {
        // Committed and nothing staged: such a slot is right with a writer or without, so the rows need not be read.
        if (mark == 1) & (staged_len == 0) {
            return used_slot(names, k, mark, committed_len, staged_len, true);
        }
        let writer = has_writer(control.rows, table, k as u32);
        return used_slot(names, k, mark, committed_len, staged_len, writer);
    }
    unused_slot(names, committed, staged, k, mark, committed_len, staged_len)
}

// Every slot is right. The loop carries the answer: by `all`, which stops early, the test of a fresh state takes half as long again.
pub fn slots_ok(
    control: Control,
    table: &[u32],
    names: &[u8],
    committed: &[u8],
    staged: &[u8],
) -> bool
    requires { TableLent table.now × (NamesLent names.now × (RegionsLent committed.now × RegionsLent staged.now)) }
    ensures { (i h : List ℕ) → result ≡ all (slot_ok (state_of control table.now names.now committed.now staged.now i h)) slot_count }
{
    let mut ok = true;
    for k in 0..SLOTS {
        ok = ok & slot_ok(control, table, names, committed, staged, k);
    }
    ok
}

// Slots k and l have one name.
fn names_same(names: &[u8], k: usize, l: usize) -> bool
    requires { NamesLent names.now × ((k < slot_count) × (l < slot_count)) }
    ensures { (slots : ℕ) (s : State) → result ≡ names_same (with_names slots names.now s) k l }
{
    same_part(names, k * NAME_SIZE, l * NAME_SIZE, NAME_SIZE)
}

// No two used slots have one name.
pub fn all_names_apart(slots: u32, names: &[u8]) -> bool
    requires { NamesLent names.now }
    ensures { (s : State) → result ≡ pairs (names_apart (with_names slots names.now s)) slot_count }
{
    none_clash(slots, SLOTS, |k, l| names_same(names, k, l))
}
