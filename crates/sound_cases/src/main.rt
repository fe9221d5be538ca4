// Tests the states that standard input describes and writes a line for each. The state starts fresh. A record is seven bytes: what is stored to (0 the control
// words, 1 the table, 2 the names, 3 the committed and 4 the staged regions; any other: the state is tested), the place and the value, lowest byte first.
// The control words are those of the C interface: masks of rows, slots and slots committed, 16 committed and 16 staged lengths, phase, image length, hash
// length, next identifier, last sweep. tests/sound_cases.py writes the input and the expected output.
#![tactic(auto)]

ghost use Rattle.std.specs.Prelude.{◌≤◌, length};

use sound::sound;
use state::{Control, HASH_SIZE, IMAGE_SIZE, NAME_SIZE, Phase, ROW_WORDS, ROWS, SLOT_SIZE, SLOTS};
use std::io;
use std::io::Read;

// The most of the input that is read.
const INPUT_MOST: u64 = 65536;

const RECORD: usize = 7;

const CONTROL_WORDS: usize = 40;

// A state as the records write it: the control words and the memory that they speak of.
#[derive(Drop)]
struct State {
    words: [u32; CONTROL_WORDS],
    table: [u32; ROWS * ROW_WORDS],
    names: [u8; SLOTS * NAME_SIZE],
    committed: [u8; SLOTS * SLOT_SIZE],
    staged: [u8; SLOTS * SLOT_SIZE],
}

// The lengths of 16 slots, at the front of some words.
fn lengths(words: &[u32]) -> [u32; SLOTS]
    requires { SLOTS ≤ length words.now }
{
    let mut lengths = [0; SLOTS];
    lengths.copy_from_slice(&words[..SLOTS]);
    lengths
}

impl State {
    fn control(&self) -> Control {
        let words = &self.words;
        Control {
            rows: words[0],
            slots: words[1],
            marks: words[2],
            committed_len: lengths(&words[3..]),
            staged_len: lengths(&words[19..]),
            phase: match words[35] {
                0 => Phase::Idle,
                1 => Phase::Uploading,
                _ => Phase::Verified,
            },
            image_len: words[36],
            hash_len: words[37],
            next: words[38],
            last_sweep: words[39],
        }
    }

    fn is_sound(&self) -> bool {
        sound(
            self.control(),
            &self.table,
            &self.names,
            &self.committed,
            &self.staged,
            &[0u8; IMAGE_SIZE],
            &[0u8; HASH_SIZE],
        )
    }

    // One record.
    fn step(&mut self, rt: &impl Print, record: &[u8]) -> io::Result<()> {
        let &[what, at_low, at_high, a, b, c, d] = record else {
            return Ok(());
        };
        let at = usize::from(u16::from_le_bytes([at_low, at_high]));
        let value = u32::from_le_bytes([a, b, c, d]);
        match what {
            0 => put(&mut self.words, at, value),
            1 => put(&mut self.table, at, value),
            2 => put(&mut self.names, at, a),
            3 => put(&mut self.committed, at, a),
            4 => put(&mut self.staged, at, a),
            _ if self.is_sound() => println!(rt; "sound")?,
            _ => println!(rt; "not sound")?,
        }
        Ok(())
    }
}

// A value is stored at a place, if there is such a place.
fn put<T: Copy>(values: &mut [T], at: usize, value: T) {
    if let Some(place) = values.get_mut(at) {
        *place = value;
    }
}

fn main(rt: HostRuntime) -> io::Result<()> {
    let mut state = State {
        words: [0; CONTROL_WORDS],
        table: [0; ROWS * ROW_WORDS],
        names: [0; SLOTS * NAME_SIZE],
        committed: [0; SLOTS * SLOT_SIZE],
        staged: [0; SLOTS * SLOT_SIZE],
    };
    let mut input = Vec::new(rt.alloc());
    rt.reader().take(INPUT_MOST).read_to_end(&mut input)?;
    for record in input.chunks_exact(RECORD) {
        state.step(&rt, record)?;
    }
    Ok(())
}
