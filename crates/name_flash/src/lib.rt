// Which flash names are listed.
#![tactic(auto)]

ghost use Rattle.std.specs.Prelude.{◌≡◌};
ghost use Rattle.rules.specs.Opening.{flash_listed};

use protocol::FlashKind;
use state::Phase;

// A flash name is listed: verify if not Idle, update if Verified, the others always.
pub fn flash_listed(kind: FlashKind, phase: Phase) -> bool
    ensures { result ≡ flash_listed kind phase }
{
    match kind {
        FlashKind::Image => true,
        FlashKind::Hash => true,
        FlashKind::Verify => !phase.is_idle(),
        FlashKind::Update => phase.is_verified(),
        FlashKind::Cleanup => true,
    }
}
