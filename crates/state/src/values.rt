// The control block with the flash's values replaced.
ghost use Rattle.std.specs.Prelude.{◌≡◌};
ghost use Rattle.state.specs.Values.{emptied};

use crate::{Control, Phase};

// Idle, nothing uploaded.
pub fn empty_flash(control: &mut Control)
    ensures { control.new ≡ emptied control.old }
{
    control.phase = Phase::Idle;
    control.image_len = 0;
    control.hash_len = 0;
}
