// The messages of a tray, answered one after the other on a state that is known to be sound.
#![tactic(auto)]

ghost use Rattle.std.specs.Prelude.{◌≡◌, Ok, true, ◌+◌, ◌*◌, ◌/◌, ◌%◌, ◌≤◌, ◌<◌, length};
ghost use Rattle.protocol.specs.Numbers.{answer_size};
ghost use Rattle.state.specs.Memory.{state_in, SameMemory};
ghost use Rattle.state.specs.Soundness.{is_sound};
ghost use Rattle.response_types.specs.Sent.{code_of, length_of};
ghost use Rattle.rules.specs.Respond.{respond};
ghost use Rattle.request_answer.specs.Call.{served_of};
ghost use Rattle.tray.specs.Tray.{tray_most, code_unit, messages_in, done_in, tray_done};
ghost use Rattle.tray_messages.specs.Call.{tray_of, served_at, length_limit};

use protocol::{ANSWER_SIZE, Code};
use records::{Record, record_at};
use state::Memory;
use tray_form::TRAY_MOST;

// The completion code fills the lowest byte of a result, the response length stands above it.
pub const CODE_UNIT: u32 = 256;

// How many messages were done, and how long their responses are together.
#[derive(Clone, Copy)]
pub struct Done {
    pub messages: usize,
    pub len: usize,
}

// A result: a completion code, and the length of what was written.
pub fn packed(code: Code, len: usize) -> u32
    requires { len < length_limit }
    ensures value { result ≡ code.0 + code_unit * len }
    ensures code_unit_value { (result % code_unit ≡ code.0) × (result / code_unit ≡ len) }
{
    u32::from(code.0) + CODE_UNIT * (len as u32)
}

// The result of what was sent: its length above the code 00, or the code of a refusal and no length.
pub fn packed_sent(sent: Result<usize, Code>) -> u32
    requires { length_of sent < length_limit }
    ensures value { result ≡ code_of sent + code_unit * length_of sent }
    ensures code_unit_value { (result % code_unit ≡ code_of sent) × (result / code_unit ≡ length_of sent) }
{
    match sent {
        Ok(len) => packed(Code::SUCCESS, len),
        Err(code) => packed(code, 0),
    }
}

// Answers one message. Its response is written at the place `at` of the buffer; all other bytes stay.
fn answer_at(
    message: &[u8],
    clock: u32,
    memory: &mut Memory<'_>,
    responses: &mut [u8],
    at: usize,
) -> Result<usize, Code>
    requires sound { is_sound (state_in memory.old) ≡ true }
    requires in_bounds { at + answer_size ≤ length responses.old }
    ensures same_memory { SameMemory memory.old memory.new }
    ensures served { served_of result memory.new responses.new ≡ served_at (respond clock message.now (state_in memory.old)) responses.old at }
{
    let end = at + ANSWER_SIZE;
    request_answer::answer(true, message, clock, memory, &mut responses[at..end])
}

// Answers the messages of the first 64 records one after the other, while the free bytes are enough for any response.
pub fn answer_all(
    records: &[u8],
    memory: &mut Memory<'_>,
    responses: &mut [u8],
    results: &mut [u32],
) -> Done
    requires sound { is_sound (state_in memory.old) ≡ true }
    requires results_len { length results.old ≡ tray_most }
    ensures same_memory { SameMemory memory.old memory.new }
    ensures answered { tray_of (Ok result) memory.new responses.new results.new ≡ tray_done (done_in (length responses.old) (messages_in records.now) (state_in memory.old)) responses.old results.old }
{
    let mut at: usize = 0;
    let mut done: usize = 0;
    let mut end: usize = 0;
    while (done < TRAY_MOST) & (ANSWER_SIZE <= responses.len() - end) {
        let Record::Whole {
            clock,
            start,
            len,
            next,
        } = record_at(records, at)
        else {
            break;
        };
        let message = &records[start..start + len];
        let sent = answer_at(message, clock, memory, responses, end);
        results[done] = packed_sent(sent);
        at = next;
        done += 1;
        end += sent.unwrap_or(0);
    }
    Done {
        messages: done,
        len: end,
    }
}
