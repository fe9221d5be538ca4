// The form of a tray: up to 64 whole records, and nothing behind them.
#![tactic(auto)]

ghost use Rattle.std.specs.Prelude.{◌≡◌};
ghost use Rattle.protocol.specs.Verdict.{verdict};
ghost use Rattle.tray.specs.Tray.{tray_form};

use protocol::Code;
use records::{Record, record_at};

// The most records of a tray.
pub const TRAY_MOST: usize = 64;

// What the bytes alone are refused with: TOO_LONG behind the 64th record, WRONG_LENGTH for a cut one up to there; or nothing, where a tray has its
// form.
pub fn form_of(records: &[u8]) -> Result<(), Code>
    ensures { result ≡ verdict (tray_form records.now) }
{
    let mut at = 0;
    for _count in 0..TRAY_MOST {
        match record_at(records, at) {
            Record::Whole { next, .. } => at = next,
            Record::Cut => return Err(Code::WRONG_LENGTH),
            Record::End => return Ok(()),
        }
    }
    if records.len() <= at {
        Ok(())
    } else {
        Err(Code::TOO_LONG)
    }
}
