// What a command says becomes a response, at the front of the answer buffer.
#![tactic(auto)]

ghost use Rattle.std.specs.Prelude.{◌≡◌, ◌≤◌, length};
ghost use Rattle.protocol.specs.Numbers.{read_most};
ghost use Rattle.protocol.specs.Frame.{framed, answer_after};
ghost use Rattle.state.specs.Lent.{AnswerLent};
ghost use Rattle.response_types.specs.After.{reply_of, fields_length};
ghost use Rattle.response_types.specs.Sent.{code_of, length_of};

use protocol::Code;
use response_frame::{bytes_of_u16, bytes_of_u32, respond_empty, respond_with, seal, stat_bytes};
use response_types::Said;

// What a command says becomes the response, with the rest of the answer buffer kept; how long it is. A refusal changes no byte (section 19).
pub fn finish(sub: u8, said: Result<Said, Code>, answer: &mut [u8]) -> Result<usize, Code>
    requires { AnswerLent answer.old × (fields_length said ≤ read_most) }
    ensures { ((code_of result ≡ (framed sub (reply_of said answer.old)).0) × (length_of result ≡ length (framed sub (reply_of said answer.old)).1)) × (answer.new ≡ answer_after sub (reply_of said answer.old) answer.old) }
{
    let said = said?;
    Ok(match said {
        Said::Done => respond_empty(sub, answer),
        Said::Session { id } => respond_with(sub, &bytes_of_u16(id), answer),
        Said::Number { n } => respond_with(sub, &bytes_of_u32(n), answer),
        Said::Stat { state, size } => respond_with(sub, &stat_bytes(state, size), answer),
        Said::Fields { len } => seal(sub, len, answer),
    })
}
