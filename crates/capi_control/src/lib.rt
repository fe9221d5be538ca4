// The control block as 40 words, for callers in other languages: rows, slots, committed, 16 committed lengths, 16 staged lengths, phase
// (0 Idle, 1 Uploading, 2 Verified), image length, hash length, next identifier, last sweep.
#![tactic(auto)]

ghost use Rattle.std.specs.Prelude.{◌≡◌, ◌+◌, ◌≤◌, length};
ghost use Rattle.laws.specs.Ranges.{part};
ghost use Rattle.protocol.specs.Numbers.{slot_count};
ghost use Rattle.capi_control.specs.Words.{phase_of, phase_number, control_fits, control_of, words_of, control_size};

use memory_copy::copy_at;
use state::{Control, Phase, SLOTS};

// The words of a control block.
const CONTROL_WORDS: usize = 40;

// Where the lengths and the values behind them stand.
const COMMITTED_LENS_AT: usize = 3;

const STAGED_LENS_AT: usize = 19;

const PHASE_AT: usize = 35;

const IMAGE_LEN_AT: usize = 36;

const HASH_LEN_AT: usize = 37;

const NEXT_AT: usize = 38;

const LAST_SWEEP_AT: usize = 39;

// The last phase's number.
const VERIFIED: u32 = 2;

// The phase of a number; a number that is none is taken for the last.
fn phase_of(number: u32) -> Phase
    ensures { result ≡ phase_of number }
{
    match number {
        0 => Phase::Idle,
        1 => Phase::Uploading,
        _ => Phase::Verified,
    }
}

// The number of a phase.
fn phase_number(phase: Phase) -> u32
    ensures { result ≡ phase_number phase }
{
    match phase {
        Phase::Idle => 0,
        Phase::Uploading => 1,
        Phase::Verified => VERIFIED,
    }
}

// The words are a control block: their number is right, and the phase is one.
#[tactic(auto, unfolding(crate::specs::Words::control_fits))]
pub fn control_fits(words: &[u32]) -> bool
    ensures { result ≡ control_fits words.now }
{
    if words.len() != CONTROL_WORDS {
        return false;
    }
    words[PHASE_AT] <= VERIFIED
}

// The lengths of all slots, from a place on.
fn lengths_at(words: &[u32], at: usize) -> [u32; SLOTS]
    requires { at + slot_count ≤ length words.now }
    ensures { result ≡ part at slot_count words.now }
{
    let mut lengths = [0u32; SLOTS];
    lengths.copy_from_slice(&words[at..at + SLOTS]);
    lengths
}

// The control block that the words are.
#[tactic(auto, unfolding(crate::specs::Words::control_of))]
pub fn control_of(words: &[u32]) -> Control
    requires { length words.now ≡ control_size }
    ensures { result ≡ control_of words.now }
{
    let committed_len = lengths_at(words, COMMITTED_LENS_AT);
    let staged_len = lengths_at(words, STAGED_LENS_AT);
    let phase = phase_of(words[PHASE_AT]);
    Control {
        rows: words[0],
        slots: words[1],
        marks: words[2],
        committed_len,
        staged_len,
        phase,
        image_len: words[IMAGE_LEN_AT],
        hash_len: words[HASH_LEN_AT],
        next: words[NEXT_AT],
        last_sweep: words[LAST_SWEEP_AT],
    }
}

// The words become the control block.
pub fn put_control(words: &mut [u32], control: Control)
    requires { length words.old ≡ control_size }
    ensures { words.new ≡ words_of control }
{
    let masks = [control.rows, control.slots, control.marks];
    let committed_len = control.committed_len;
    let staged_len = control.staged_len;
    let phase = control.phase;
    let rest = [
        phase_number(phase),
        control.image_len,
        control.hash_len,
        control.next,
        control.last_sweep,
    ];
    copy_at(words, 0, &masks);
    copy_at(words, COMMITTED_LENS_AT, &committed_len);
    copy_at(words, STAGED_LENS_AT, &staged_len);
    copy_at(words, PHASE_AT, &rest);
}
