// The public library: one request, or one job outcome, on the state that the caller lends.
#![tactic(auto)]

ghost use Rattle.std.specs.Prelude.{◌≡◌, ◌≢◌, IfErr};
ghost use Rattle.protocol.specs.Numbers.{success};
ghost use Rattle.state.specs.State.{state_of};
ghost use Rattle.state.specs.Memory.{state_in, SameMemory};
ghost use Rattle.rules.specs.Respond.{job_outcome, served};
ghost use Rattle.request_answer.specs.Call.{served_of};
ghost use Rattle.blobs.specs.Call.{job_effect_of};

use protocol::{ANSWER_SIZE, Code};
use sound::{is_sound, sound};
use state::{Control, Memory};

// Answers one request: how long the response is, or the code of a refusal, which changes nothing. The caller lends the control block, the
// session table (64 words), the names (512 bytes), the committed and staged regions (65,536 bytes each), the image (16,384 bytes) and the hash
// (64 bytes) as one `Memory`, and the answer buffer (64 bytes); anything else, and any state that is not sound, is refused with NOT_SOUND.
pub fn respond(
    request: &[u8],
    clock: u32,
    memory: &mut Memory<'_>,
    answer: &mut [u8],
) -> Result<usize, Code>
    ensures same_memory { SameMemory memory.old memory.new }
    ensures served { served_of result memory.new answer.new ≡ served clock request.now (state_in memory.old) answer.old }
{
    let able = is_sound(memory) & (answer.len() == ANSWER_SIZE);
    request_answer::answer(able, request, clock, memory, answer)
}

// Takes the outcome of the running job, good or failed, or refuses it. The control block stays as it is; of what is lent only the session table
// changes.
pub fn job_outcome(
    good: bool,
    control: Control,
    table: &mut [u32],
    names: &[u8],
    committed: &[u8],
    staged: &[u8],
    image: &[u8],
    hash: &[u8],
) -> Result<(), Code>
    ensures refused { IfErr result (λ code. code.0 ≢ success) }
    ensures taken { job_effect_of result control table.new names.now committed.now staged.now image.now hash.now ≡ job_outcome good (state_of control table.old names.now committed.now staged.now image.now hash.now) }
{
    if !sound(control, table, names, committed, staged, image, hash) {
        return Err(Code::NOT_SOUND);
    }
    session_by_id::end_job(control, table, good)?;
    Ok(())
}
