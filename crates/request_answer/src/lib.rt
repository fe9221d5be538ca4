// One request on a state whose test is behind the caller: decoded, served, and its response written.
#![tactic(auto)]

ghost use Rattle.std.specs.Prelude.{◌≡◌};
ghost use Rattle.state.specs.Memory.{state_in, SameMemory};
ghost use Rattle.rules.specs.Respond.{served};
ghost use Rattle.request_answer.specs.Call.{served_of, answerable};

use protocol::Code;
use request_decode::decode;
use request_serve::serve;
use response_send::finish;
use state::Memory;

// Answers one request: how long the response is, or the code of a refusal. `able` says whether the state is sound and the answer buffer has its
// size. The caller knows it: it tested both, right before or before requests that it had answered here, since none of them makes a sound state
// unsound.
pub fn answer(
    able: bool,
    request: &[u8],
    clock: u32,
    memory: &mut Memory<'_>,
    answer: &mut [u8],
) -> Result<usize, Code>
    requires { able ≡ answerable (state_in memory.old) answer.old }
    ensures same_memory { SameMemory memory.old memory.new }
    ensures served { served_of result memory.new answer.new ≡ served clock request.now (state_in memory.old) answer.old }
{
    if !able {
        return Err(Code::NOT_SOUND);
    }
    let asked = decode(request);
    let said = serve(
        request,
        clock,
        asked,
        &mut memory.control,
        memory.table,
        memory.names,
        memory.committed,
        memory.staged,
        memory.image,
        memory.hash,
        answer,
    );
    finish(asked.number(), said, answer)
}
