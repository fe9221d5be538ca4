// The soundness test's clauses on the rows of the session table.
#![tactic(auto)]

ghost use Rattle.std.specs.Prelude.{◌≡◌, Bool, not, ◌&&◌, List, ℕ, ◌<◌, ◌≤◌, eqb};
ghost use Rattle.laws.specs.All.{all, pairs};
ghost use Rattle.laws.specs.Bits.{bit};
ghost use Rattle.laws.specs.Bytes.{zeros};
ghost use Rattle.protocol.specs.Numbers.{row_count};
ghost use Rattle.state.specs.State.{State, Slot, state_of, with_rows};
ghost use Rattle.state.specs.Entry.{words_of};
ghost use Rattle.state.specs.Job.{status_number};
ghost use Rattle.state.specs.Soundness.{store_row, job_fits, flash_row, used_row, row_ok, rows_clash, rows_apart, writes_slot, has_writer};
ghost use Rattle.state.specs.Lent.{TableLent};
ghost use Rattle.sound_rows.specs.Clash.{apart_by};

use protocol::FlashKind;
use state::mask::has;
use state::row::{Entry, Place, flash_flags, kind_of, read_row, store_flags};
use state::{Control, Phase, ROWS, SIXTEEN_BITS, SLOTS, Status, WORD_LIMIT};

// A store row whose slot is in use or not, committed or not: flags, status and clean mark.
#[tactic(auto, unfolding(state::specs::Soundness::store_row, state::specs::Soundness::reader_clean, state::specs::Soundness::clean_committed))]
fn store_row(e: Entry, held: bool, mark: bool) -> bool
    ensures { (b : Slot) → held ≡ eqb b.held 1 → mark ≡ eqb b.mark 1 → result ≡ store_row e.word b }
{
    let clean = e.clean();
    (held & e.status().is_untried())
        & (store_flags(e.flags()) & ((e.writes() | (clean == 1)) & ((clean == 0) | mark)))
}

// Status and phase of a flash row.
#[tactic(auto, unfolding(state::specs::Soundness::job_fits))]
fn job_fits(kind: FlashKind, status: Status, phase: Phase) -> bool
    ensures { result ≡ job_fits kind (status_number status) phase }
{
    match kind {
        FlashKind::Image => status.is_untried() & phase.is_uploading(),
        FlashKind::Hash => status.is_untried() & phase.is_uploading(),
        FlashKind::Verify => { !phase.is_idle() & (status.is_untried() | phase.is_uploading()) }
        FlashKind::Update => phase.is_verified(),
        FlashKind::Cleanup => { status.is_untried() | (status.is_succeeded() & phase.is_idle()) }
    }
}

// A flash row: blob, clean mark, flags, status.
#[tactic(auto, unfolding(state::specs::Soundness::flash_row))]
fn flash_row(e: Entry, phase: Phase) -> bool
    ensures { result ≡ flash_row e.blob e.word phase }
{
    ((e.blob <= FlashKind::Cleanup.number()) & (e.clean() == 0))
        & (flash_flags(e.flags()) & job_fits(kind_of(e.blob), e.status(), phase))
}

// A used row.
fn used_row(control: Control, e: Entry) -> bool
    ensures { (u : ℕ) (t n c g i h : List ℕ) → result ≡ used_row (record { words = words_of e; used = u }) (state_of control t n c g i h) }
{
    let fits = (e.id < SIXTEEN_BITS) & (e.word < WORD_LIMIT);
    let place = e.place();
    match place {
        Place::AtSlot(k) => fits & store_row(e, has(control.slots, k), has(control.marks, k)),
        Place::AtFlash => {
            let phase = control.phase;
            fits & flash_row(e, phase)
        }
    }
}

// A row whose words are all zero.
#[tactic(auto, unfolding(laws::specs::Bytes::zeros, laws::specs::All::all))]
fn zero_row(e: Entry) -> bool
    ensures { result ≡ zeros (words_of e) }
{
    (((e.id == 0) & (e.blob == 0)) & (e.word == 0)) & (e.stamp == 0)
}

// Row r is right, used or not.
#[tactic(auto, unfolding(state::specs::Soundness::row_ok))]
fn row_ok(control: Control, table: &[u32], r: usize) -> bool
    requires { TableLent table.now × (r < row_count) }
    ensures { (n c g i h : List ℕ) → result ≡ row_ok (state_of control table.now n c g i h) r }
{
    let e = read_row(table, r);
    if has(control.rows, r) {
        return used_row(control, e);
    }
    zero_row(e)
}

// Every row is right.
pub fn rows_ok(control: Control, table: &[u32]) -> bool
    requires { TableLent table.now }
    ensures { (n c g i h : List ℕ) → result ≡ all (row_ok (state_of control table.now n c g i h)) row_count }
{
    (0..ROWS).all(|r| row_ok(control, table, r))
}

// Rows i and j have one identifier, or one blob, or are both flash.
#[tactic(auto, unfolding(state::specs::Soundness::rows_clash))]
fn rows_clash(table: &[u32], i: usize, j: usize) -> bool
    requires { TableLent table.now × ((i < row_count) × (j < row_count)) }
    ensures { (rows : ℕ) (s : State) → result ≡ rows_clash (with_rows rows table.now s) i j }
{
    let a = read_row(table, i);
    let b = read_row(table, j);
    let both_flash = (SLOTS as u32 <= a.blob) & (SLOTS as u32 <= b.blob);
    (a.id == b.id) | ((a.blob == b.blob) | both_flash)
}

// Place i clashes with no place before it that is in use.
fn clear_of_lower<F: Fn(usize, usize) -> bool>(used: u32, i: usize, clash: &F) -> bool
    requires { (i ≤ 32) × ((j : ℕ) → j < i → F.pre clash.now i j) }
    ensures { (p : ℕ → Bool) → ((j : ℕ) (r : Bool) → j < i → F.post clash.now i j r → r ≡ p j) → result ≡ all (λ j. not (eqb (bit j used) 1 && p j)) i }
{
    for j in 0..i {
        if has(used, j) && clash(i, j) {
            return false;
        }
    }
    true
}

// No two of the first n places that are in use clash.
pub fn none_clash<F: Fn(usize, usize) -> bool>(used: u32, n: usize, clash: F) -> bool
    requires { (n ≤ 32) × ((i j : ℕ) → i < n → j < i → F.pre clash i j) }
    ensures { (p : ℕ → ℕ → Bool) → ((i j : ℕ) (r : Bool) → i < n → j < i → F.post clash i j r → r ≡ p i j) → result ≡ pairs (apart_by used p) n }
{
    for i in 0..n {
        if has(used, i) && !clear_of_lower(used, i, &clash) {
            return false;
        }
    }
    true
}

// No two rows clash.
pub fn all_apart(rows: u32, table: &[u32]) -> bool
    requires { TableLent table.now }
    ensures { (s : State) → result ≡ pairs (rows_apart (with_rows rows table.now s)) row_count }
{
    none_clash(rows, ROWS, |i, j| rows_clash(table, i, j))
}

// Row r is a writing row of slot k.
#[tactic(auto, unfolding(state::specs::Soundness::writes_slot))]
fn writes_slot(rows: u32, table: &[u32], k: u32, r: usize) -> bool
    requires { TableLent table.now × (r < row_count) }
    ensures { (s : State) → result ≡ writes_slot (with_rows rows table.now s) k r }
{
    let e = read_row(table, r);
    has(rows, r) & ((e.blob == k) & e.writes())
}

// Slot k has a writing row.
pub fn has_writer(rows: u32, table: &[u32], k: u32) -> bool
    requires { TableLent table.now }
    ensures { (s : State) → result ≡ has_writer (with_rows rows table.now s) k }
{
    (0..ROWS).any(|r| writes_slot(rows, table, k, r))
}
