// One request on a sound state: each command's code is called with the pieces of memory that it touches, and no others.
#![tactic(auto)]

ghost use Rattle.std.specs.Prelude.{◌≡◌, true, ◌≤◌};
ghost use Rattle.protocol.specs.Numbers.{read_most};
ghost use Rattle.protocol.specs.Decode.{decoded};
ghost use Rattle.state.specs.State.{state_of};
ghost use Rattle.state.specs.Soundness.{is_sound};
ghost use Rattle.state.specs.Lent.{AnswerLent};
ghost use Rattle.response_types.specs.After.{after_said, fields_length};
ghost use Rattle.request_serve.specs.Serves.{readied};

use protocol::{Code, Request};
use response_types::Said;
use state::Control;

// What the request comes to: what is said, or a refusal. Read and Enumerate lay their fields into their place in the answer buffer; no other
// byte of it changes.
pub fn serve(
    message: &[u8],
    clock: u32,
    asked: Request,
    control: &mut Control,
    table: &mut [u32],
    names: &mut [u8],
    committed: &mut [u8],
    staged: &mut [u8],
    image: &mut [u8],
    hash: &mut [u8],
    answer: &mut [u8],
) -> Result<Said, Code>
    requires { (is_sound (state_of control.old table.old names.old committed.old staged.old image.old hash.old) ≡ true) × ((asked ≡ decoded message.now) × AnswerLent answer.old) }
    ensures { ((after_said result control.new table.new names.new committed.new staged.new image.new hash.new answer.new, answer.new) ≡ readied asked clock message.now (state_of control.old table.old names.old committed.old staged.old image.old hash.old) answer.old) × (fields_length result ≤ read_most) }
{
    match asked {
        Request::Count => Ok(name_list::count(*control)),
        Request::Enumerate { index } => name_list::enumerate(index, *control, names, answer),
        Request::Open { flags, blob } => open::open(
            blob, flags, clock, message, control, table, names, committed, staged, image, hash,
        ),
        Request::Read {
            session,
            offset,
            count,
        } => session_by_id::read(
            *control,
            table,
            committed,
            staged,
            answer,
            session as u32,
            clock,
            offset,
            count,
        ),
        Request::Write {
            session,
            offset,
            start,
        } => session_by_id::write(
            control,
            table,
            staged,
            image,
            hash,
            session as u32,
            clock,
            offset,
            &message[start..],
        ),
        Request::Commit { session, len, rest } => session_by_id::commit(
            control,
            table,
            committed,
            staged,
            image,
            hash,
            session as u32,
            clock,
            len,
            rest,
        ),
        Request::Close { session } => session_by_id::close(
            control,
            table,
            names,
            committed,
            staged,
            image,
            hash,
            session as u32,
        ),
        Request::Delete { blob } => {
            name_delete::delete(blob, message, control, table, names, committed, staged)
        }
        Request::Stat { blob } => name_stat::stat(blob, message, *control, table, names),
        Request::SessionStat { session } => {
            session_by_id::stat(*control, table, session as u32, clock)
        }
        Request::WriteMeta { session } => {
            session_by_id::write_meta(*control, table, session as u32)
        }
        Request::Refused(code) => Err(code),
    }
}
