// A tray of requests in one call: state and form are tested once, then the messages are answered.
#![tactic(auto)]

ghost use Rattle.std.specs.Prelude.{◌≡◌, ◌≢◌, IfErr};
ghost use Rattle.protocol.specs.Numbers.{success};
ghost use Rattle.state.specs.Memory.{state_in, SameMemory};
ghost use Rattle.tray.specs.Tray.{tray};
ghost use Rattle.tray_messages.specs.Call.{tray_of};

use protocol::Code;
use sound::is_sound;
use state::Memory;
use tray_form::{TRAY_MOST, form_of};
use tray_messages::{Done, answer_all};

// Answers the messages of a tray, up to 64 records. The caller lends the state as to `respond`, a buffer of any length for the responses, which
// lie there end to end, and 64 words for the results, one for each message done. It stops before a message where fewer than 64 bytes are free.
// A tray that is refused changes nothing.
pub fn answer_tray(
    records: &[u8],
    memory: &mut Memory<'_>,
    responses: &mut [u8],
    results: &mut [u32],
) -> Result<Done, Code>
    ensures same_memory { SameMemory memory.old memory.new }
    ensures refused { IfErr result (λ code. code.0 ≢ success) }
    ensures answered { tray_of result memory.new responses.new results.new ≡ tray records.now (state_in memory.old) responses.old results.old }
{
    let able = is_sound(memory) & (results.len() == TRAY_MOST);
    if !able {
        return Err(Code::NOT_SOUND);
    }
    form_of(records)?;
    Ok(answer_all(records, memory, responses, results))
}
