// What is looked up: the row of a session, the slot of a store name, the set bit of a number, the identifier for a new session. (Free places: `state::mask::lowest_free`.)
#![tactic(auto)]

ghost use Rattle.std.specs.Prelude.{◌≡◌, ◌≢◌, IfErr, ℕ, ◌<◌, get_or};
ghost use Rattle.std.specs.Int.Count.{ones};
ghost use Rattle.laws.specs.Ranges.{block};
ghost use Rattle.laws.specs.Bytes.{padded, same};
ghost use Rattle.protocol.specs.Numbers.{success, row_count, slot_count, name_size, sixteen_bits};
ghost use Rattle.state.specs.declared.row.Wanted.TheVariants.{Id};
ghost use Rattle.state.specs.Entry.{words_of};
ghost use Rattle.state.specs.State.{State, with_rows};
ghost use Rattle.state.specs.Lent.{TableLent, NamesLent};
ghost use Rattle.rules.specs.Session.{matches, row_found};
ghost use Rattle.visits.specs.Visits.{searched, table_fits, looked_up};
ghost use Rattle.lookup.specs.Search.{is_none, search_of, lookup_of, FoundRow, FoundName, Nth};
ghost use Rattle.rules.specs.Lookup.{after, fresh_from};

use protocol::Code;
use state::mask::{clear_lowest, has};
use state::row::{Entry, Wanted, read_row};
use state::{NAME_SIZE, ROW_WORDS, ROWS, SIXTEEN_BITS, SLOTS};

// The row is the one wanted, if it is used.
fn matches(e: Entry, w: Wanted) -> bool
    ensures { (used : ℕ) → result ≡ matches w (record { words = words_of e; used = used }) }
{
    match w {
        Wanted::Id(id) => e.id == id,
        Wanted::OnBlob(blob) => e.blob == blob,
        Wanted::OnFlash => SLOTS as u32 <= e.blob,
    }
}

// What a search for a row gives: the row, and how many used rows it visited.
#[derive(Clone, Copy)]
pub struct RowSearch {
    pub row: Option<usize>,
    pub visits: u32,
}

// THE SEARCH FOR A ROW: only used rows are visited, the lowest first, each found by the trailing zeros of those that are left.
pub fn search_rows(table: &[u32], rows: u32, w: Wanted) -> RowSearch
    requires { TableLent table.now }
    ensures { (s : State) → search_of result ≡ searched w (with_rows rows table.now s) }
{
    // bits past the last row are no rows
    let mut left = rows % SIXTEEN_BITS;
    let mut visits: u32 = 0;
    while left != 0 {
        let r = u32::trailing_zeros(left) as usize;
        if matches(read_row(table, r), w) {
            return RowSearch {
                row: Some(r),
                visits: visits + 1,
            };
        }
        visits += 1;
        left = clear_lowest(left);
    }
    RowSearch { row: None, visits }
}

// The first used row that is the one wanted.
pub fn find_row(table: &[u32], rows: u32, w: Wanted) -> Option<usize>
    requires { TableLent table.now }
    ensures { FoundRow result w rows table.now }
{
    search_rows(table, rows, w).row
}

// What is said of an identifier: its row, or the completion code that refuses it; and how many used rows were visited.
#[derive(Clone, Copy)]
pub struct Lookup {
    pub row: Result<u32, Code>,
    pub visits: u32,
}

// The table has its length, and the mask no bit past its last row.
fn table_fits(rows: u32, table: &[u32]) -> bool
    ensures { result ≡ table_fits rows table.now }
{
    (table.len() == ROWS * ROW_WORDS) & (rows < SIXTEEN_BITS)
}

// THE LOOKUP OF AN IDENTIFIER by a caller, in any table with any mask of used rows.
pub fn find_session(identifier: u32, rows: u32, table: &[u32]) -> Lookup
    ensures refused { IfErr result.row (λ code. code.0 ≢ success) }
    ensures said { lookup_of result ≡ looked_up identifier rows table.now }
{
    if !table_fits(rows, table) {
        return Lookup {
            row: Err(Code::NOT_SOUND),
            visits: 0,
        };
    }
    let search = search_rows(table, rows, Wanted::Id(identifier));
    let row = match search.row {
        Some(r) => Ok(r as u32),
        None => Err(Code::NOT_FOUND),
    };
    Lookup {
        row,
        visits: search.visits,
    }
}

// Byte i of the padded name.
fn padded_at(name: &[u8], i: usize) -> u8
    requires { i < name_size }
    ensures { result ≡ get_or (padded name_size name.now) i 0 }
{
    if i < name.len() { name[i] } else { 0 }
}

// Slot k's name field is the padded name: every byte counts, the zeros behind the name too.
fn same_name(names: &[u8], k: usize, name: &[u8]) -> bool
    requires { NamesLent names.now × (k < slot_count) }
    ensures { result ≡ same ((block name_size k).get names.now) (padded name_size name.now) }
{
    let at = k * NAME_SIZE;
    let mut ok = true;
    for i in 0..NAME_SIZE {
        let held = names[at + i];
        ok = ok & (held == padded_at(name, i));
    }
    ok
}

// The used slot that holds the name: only used slots are visited, as rows are.
pub fn find_name(names: &[u8], slots: u32, name: &[u8]) -> Option<usize>
    requires { NamesLent names.now }
    ensures { FoundName result name.now slots names.now }
{
    let mut left = slots % SIXTEEN_BITS;
    while left != 0 {
        let k = u32::trailing_zeros(left) as usize;
        if same_name(names, k, name) {
            return Some(k);
        }
        left = clear_lowest(left);
    }
    None
}

// No session has the identifier.
fn is_unused(table: &[u32], rows: u32, id: u32) -> bool
    requires { TableLent table.now }
    ensures { (s : State) → result ≡ is_none (row_found (Id id) (with_rows rows table.now s)) }
{
    find_row(table, rows, Wanted::Id(id)).is_none()
}

// The identifier's successor: "65,535 being followed by 0".
pub fn next_id(id: u32) -> u32
    requires { id < sixteen_bits }
    ensures { (result ≡ after id) × (result < sixteen_bits) }
{
    let next = id + 1;
    if next == SIXTEEN_BITS { 0 } else { next }
}

// The first unused identifier from `next` upward.
pub fn fresh_id(table: &[u32], rows: u32, next: u32) -> u32
    requires { TableLent table.now × (next < sixteen_bits) }
    ensures { ((s : State) → result ≡ fresh_from row_count next (with_rows rows table.now s)) × (result < sixteen_bits) }
{
    let mut id = next;
    for _ in 0..ROWS {
        if is_unused(table, rows, id) {
            break;
        }
        id = next_id(id);
    }
    id
}

// The set bit of a mask that has i set bits below it.
pub fn nth_set(mask: u32, i: u32) -> usize
    requires { (mask < sixteen_bits) × (i < ones mask) }
    ensures { Nth mask i result }
{
    let mut seen: u32 = 0;
    for k in 0..SLOTS - 1 {
        if has(mask, k) {
            if seen == i {
                return k;
            }
            seen += 1;
        }
    }
    SLOTS - 1
}
