// A run over a buffer of records: each is answered by the library, and its line is written into a text buffer.
#![tactic(auto)]

ghost use Rattle.std.specs.Prelude.{◌≡◌, ◌+◌, ◌*◌, ◌≤◌, cond, [], length, drop, replicate};
ghost use Rattle.protocol.specs.Numbers.{row_count, row_words, slot_count, name_size, slot_size, image_size, hash_size};
ghost use Rattle.protocol.specs.Frame.{laid};
ghost use Rattle.state.specs.State.{state_of};
ghost use Rattle.state.specs.Memory.{state_in, SameMemory};
ghost use Rattle.state.specs.Words.{fresh};
ghost use Rattle.rules.specs.Respond.{served};
ghost use Rattle.request_answer.specs.Call.{answerable};
ghost use Rattle.run_lines.specs.Lines.{line_most, cut_line};
ghost use Rattle.run_output.specs.Run.{end_of, ran};
ghost use Rattle.run_buffer.specs.Step.{stepped, stepped_of, written_of};

use protocol::{ANSWER_SIZE, Code};
use records::{Record, record_at};
use run_lines::{LINE_MOST, write_line};
use sound::is_sound;
use state::{Control, Memory, Phase, SLOTS};

// The control block of a fresh state, in which all that is lent is zeros.
pub fn fresh() -> Control
    ensures { state_of result (replicate (row_count * row_words) 0) (replicate (slot_count * name_size) 0) (replicate (slot_count * slot_size) 0) (replicate (slot_count * slot_size) 0) (replicate image_size 0) (replicate hash_size 0) ≡ fresh }
{
    Control {
        rows: 0,
        slots: 0,
        marks: 0,
        committed_len: [0; SLOTS],
        staged_len: [0; SLOTS],
        phase: Phase::Idle,
        image_len: 0,
        hash_len: 0,
        next: 0,
        last_sweep: 0,
    }
}

// One request: it is answered, and its line is written at the place `at` of the text; the place behind the line.
// `able` says whether the state is sound and the answer buffer has its size.
fn answer_one(
    able: bool,
    request: &[u8],
    clock: u32,
    memory: &mut Memory<'_>,
    answer: &mut [u8],
    text: &mut [u8],
    at: usize,
) -> usize
    requires able_value { able ≡ answerable (state_in memory.old) answer.old }
    requires room_for_line { at + line_most ≤ length text.old }
    ensures same_memory { SameMemory memory.old memory.new }
    ensures stepped { stepped_of result memory.new answer.new text.new ≡ stepped (served clock request.now (state_in memory.old) answer.old) text.old at }
{
    match request_answer::answer(able, request, clock, memory, answer) {
        Ok(size) => write_line(Code::SUCCESS, &answer[..size], text, at),
        Err(code) => write_line(code, &[], text, at),
    }
}

// How long the lines are that a run wrote, and how many bytes its records have.
#[derive(Clone, Copy)]
pub struct Ran {
    pub len: usize,
    pub used: usize,
}

// Answers one whole record after another, from the front of `records` on, while a longest line has room in the text. The lines stand at the
// front of the text. What is lent besides is lent to the library. The state is tested once: a request leaves a sound state sound, and an
// unsound one as it is.
pub fn run(records: &[u8], memory: &mut Memory<'_>, answer: &mut [u8], text: &mut [u8]) -> Ran
    ensures same_memory { SameMemory memory.old memory.new }
    ensures text_after { written_of result memory.new answer.new text.new ≡ ran records.now (state_in memory.old) answer.old text.old }
    ensures len_in_bounds { (result.len ≤ length text.new) × (result.used ≤ length records.now) }
{
    let able = is_sound(memory) & (answer.len() == ANSWER_SIZE);
    let mut used: usize = 0;
    let mut end: usize = 0;
    while LINE_MOST <= text.len() - end {
        let Record::Whole {
            clock,
            start,
            len,
            next,
        } = record_at(records, used)
        else {
            break;
        };
        let request = &records[start..start + len];
        end = answer_one(able, request, clock, memory, answer, text, end);
        used = next;
    }
    Ran { len: end, used }
}

// The bytes from `from` on are moved to the front of the buffer; how many they are.
pub fn keep_rest(buffer: &mut [u8], from: usize) -> usize
    ensures { (result ≡ length (drop from buffer.old)) × (buffer.new ≡ laid (drop from buffer.old) buffer.old) }
{
    if buffer.len() <= from {
        return 0;
    }
    buffer.copy_within(from.., 0);
    buffer.len() - from
}

// At the end of the input bytes are left: the last record is cut.
pub fn is_cut(left: &[u8]) -> bool
    ensures { end_of left.now ≡ cond result cut_line [] }
{
    !left.is_empty()
}
