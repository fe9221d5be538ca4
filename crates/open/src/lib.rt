// Open: the sweep, then by what the name names. A refusal changes nothing but what the sweep does.
#![tactic(auto)]

ghost use Rattle.std.specs.Prelude.{◌≡◌, true, List, ℕ};
ghost use Rattle.protocol.specs.Inside.{BlobInside};
ghost use Rattle.state.specs.State.{state_of};
ghost use Rattle.state.specs.Soundness.{is_sound};
ghost use Rattle.rules.specs.Open.{open_blob};
ghost use Rattle.rules.specs.Sweep.{swept};
ghost use Rattle.response_types.specs.After.{after_said};

use open_flash::open_flash;
use open_store::open_store;
use open_sweep::sweep;
use protocol::{Blob, Code};
use response_types::Said;
use state::Control;

// Open after the sweep: by what the name names; unknown or base is CB.
fn open_swept(
    blob: Blob,
    flags: u16,
    clock: u32,
    message: &[u8],
    control: &mut Control,
    table: &mut [u32],
    names: &mut [u8],
    committed: &mut [u8],
    staged: &mut [u8],
    image: &mut [u8],
    hash: &mut [u8],
) -> Result<Said, Code>
    requires { BlobInside message.now blob × (is_sound (state_of control.old table.old names.old committed.old staged.old image.old hash.old) ≡ true) }
    ensures { (answer : List ℕ) → after_said result control.new table.new names.new committed.new staged.new image.new hash.new answer ≡ open_blob blob flags clock message.now (state_of control.old table.old names.old committed.old staged.old image.old hash.old) }
{
    match blob {
        Blob::Store { start, len } => {
            let name = &message[start..start + len];
            open_store(name, flags, clock, control, table, names, committed, staged)
        }
        Blob::Flash(kind) => open_flash(kind, flags, clock, control, table, image, hash),
        Blob::Base | Blob::Unknown => Err(Code::NOT_FOUND),
    }
}

// Open: the sweep comes first, if it is due.
pub fn open(
    blob: Blob,
    flags: u16,
    clock: u32,
    message: &[u8],
    control: &mut Control,
    table: &mut [u32],
    names: &mut [u8],
    committed: &mut [u8],
    staged: &mut [u8],
    image: &mut [u8],
    hash: &mut [u8],
) -> Result<Said, Code>
    requires { (is_sound (state_of control.old table.old names.old committed.old staged.old image.old hash.old) ≡ true) × BlobInside message.now blob }
    ensures { (answer : List ℕ) → after_said result control.new table.new names.new committed.new staged.new image.new hash.new answer ≡ open_blob blob flags clock message.now (swept clock (state_of control.old table.old names.old committed.old staged.old image.old hash.old)) }
{
    sweep(clock, control, table, names, committed, staged, image, hash);
    open_swept(
        blob, flags, clock, message, control, table, names, committed, staged, image, hash,
    )
}
