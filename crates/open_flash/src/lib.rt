// Open of a flash name, after the sweep. A refusal changes nothing.
#![tactic(auto)]

ghost use Rattle.std.specs.Prelude.{◌≡◌, List, ℕ, ◌<◌};
ghost use Rattle.protocol.specs.Numbers.{sixteen_bits};
ghost use Rattle.state.specs.declared.row.Place.TheVariants.{AtFlash};
ghost use Rattle.state.specs.State.{state_of, in_body};
ghost use Rattle.state.specs.Lent.{TableLent, ImageLent, HashLent};
ghost use Rattle.rules.specs.Open.{open_flash};
ghost use Rattle.response_types.specs.After.{after_said};
ghost use Rattle.rules.specs.Opening.{opened_flash};

use lookup::find_row;
use memory_copy::clear_at;
use name_flash::flash_listed;
use open_steps::open_row;
use protocol::{Code, FlashKind};
use response_types::Said;
use state::mask::lowest_free;
use state::row::{Wanted, flash_flags};
use state::{Control, HASH_SIZE, IMAGE_SIZE, Phase};

// Image and hash begin empty, and the phase is Uploading; the other flash names change nothing (rule 9.13).
fn begin_flash(kind: FlashKind, control: &mut Control, image: &mut [u8], hash: &mut [u8])
    requires { ImageLent image.old × HashLent hash.old }
    ensures { (table names committed staged : List ℕ) → state_of control.new table names committed staged image.new hash.new ≡ (in_body AtFlash).put (opened_flash kind (state_of control.old table names committed staged image.old hash.old).flash_group) (state_of control.old table names committed staged image.old hash.old) }
{
    match kind {
        FlashKind::Image => {
            clear_at(image, 0, IMAGE_SIZE);
            control.image_len = 0;
        }
        FlashKind::Hash => {
            clear_at(hash, 0, HASH_SIZE);
            control.hash_len = 0;
        }
        FlashKind::Verify | FlashKind::Update | FlashKind::Cleanup => return,
    }
    control.phase = Phase::Uploading;
}

// Open of a flash name: flags (CC), absence (CB), any flash session (C0), row (C4).
pub fn open_flash(
    kind: FlashKind,
    flags: u16,
    clock: u32,
    control: &mut Control,
    table: &mut [u32],
    image: &mut [u8],
    hash: &mut [u8],
) -> Result<Said, Code>
    requires { (control.old.next < sixteen_bits) × (TableLent table.old × (ImageLent image.old × HashLent hash.old)) }
    ensures { (names committed staged answer : List ℕ) → after_said result control.new table.new names committed staged image.new hash.new answer ≡ open_flash kind flags clock (state_of control.old table.old names committed staged image.old hash.old) }
{
    if !flash_flags(flags as u32) {
        return Err(Code::INVALID);
    }
    if !flash_listed(kind, control.phase) {
        return Err(Code::NOT_FOUND);
    }
    if find_row(table, control.rows, Wanted::OnFlash).is_some() {
        return Err(Code::BUSY);
    }
    let r = lowest_free(control.rows).ok_or(Code::NO_ROOM)?;
    begin_flash(kind, control, image, hash);
    Ok(open_row(r, kind.number(), flags, 0, clock, control, table))
}
