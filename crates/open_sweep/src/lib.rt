// The sweep: sessions that were left open too long are closed, at most once a minute.
#![tactic(auto)]

ghost use Rattle.std.specs.Prelude.{◌≡◌, not, ◌&&◌, ◌+◌, ◌<◌, eqb, ltb, leb};
ghost use Rattle.protocol.specs.Numbers.{row_count, sweep_every, session_life, running};
ghost use Rattle.state.specs.State.{state_of};
ghost use Rattle.state.specs.Words.{status_in};
ghost use Rattle.rules.specs.Sweep.{sweep_row, swept};
ghost use Rattle.state.specs.Lent.{TableLent, NamesLent, RegionsLent, ImageLent, HashLent};

use state::mask::has;
use state::row::{Entry, Place, read_row};
use state::{Control, ROWS};

// A sweep is due this many seconds after the last one.
const SWEEP_EVERY: u64 = 60;

// A session that was not used for longer than this many seconds is stale.
const SESSION_LIFE: u64 = 600;

// The row was not used for too long, and no job runs on it. The sum is taken in 64 bits, where it cannot wrap.
fn is_stale(e: Entry, clock: u32) -> bool
    ensures { result ≡ ltb (e.stamp + session_life) clock && not (eqb (status_in e.word) running) }
{
    (u64::from(e.stamp) + SESSION_LIFE < u64::from(clock)) & !e.status().is_running()
}

// A sweep is due.
fn is_due(last: u32, clock: u32) -> bool
    ensures { result ≡ leb (last + sweep_every) clock }
{
    u64::from(last) + SWEEP_EVERY <= u64::from(clock)
}

// Row r is closed if it is stale. Its Close cannot be refused: no job runs on it.
fn sweep_row(
    clock: u32,
    r: usize,
    control: &mut Control,
    table: &mut [u32],
    names: &mut [u8],
    committed: &mut [u8],
    staged: &mut [u8],
    image: &mut [u8],
    hash: &mut [u8],
)
    requires { (r < row_count) × (TableLent table.old × (NamesLent names.old × (RegionsLent committed.old × (RegionsLent staged.old × (ImageLent image.old × HashLent hash.old))))) }
    ensures { state_of control.new table.new names.new committed.new staged.new image.new hash.new ≡ sweep_row clock r (state_of control.old table.old names.old committed.old staged.old image.old hash.old) }
{
    if !has(control.rows, r) {
        return;
    }
    let e = read_row(table, r);
    if !is_stale(e, clock) {
        return;
    }
    let _ = match e.place() {
        Place::AtSlot(k) => session_store::close(control, table, names, committed, staged, r, e, k),
        Place::AtFlash => session_flash::close(control, table, image, hash, r, e),
    };
}

// Every row, one after the other, if a sweep is due; then the clock is noted.
pub fn sweep(
    clock: u32,
    control: &mut Control,
    table: &mut [u32],
    names: &mut [u8],
    committed: &mut [u8],
    staged: &mut [u8],
    image: &mut [u8],
    hash: &mut [u8],
)
    requires { TableLent table.old × (NamesLent names.old × (RegionsLent committed.old × (RegionsLent staged.old × (ImageLent image.old × HashLent hash.old)))) }
    ensures { state_of control.new table.new names.new committed.new staged.new image.new hash.new ≡ swept clock (state_of control.old table.old names.old committed.old staged.old image.old hash.old) }
{
    if !is_due(control.last_sweep, clock) {
        return;
    }
    for r in 0..ROWS {
        sweep_row(
            clock, r, control, table, names, committed, staged, image, hash,
        );
    }
    control.last_sweep = clock;
}
