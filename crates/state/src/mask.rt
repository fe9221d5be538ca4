// Masks: one bit for each row or slot.
ghost use Rattle.std.specs.Prelude.{◌≡◌, ◌<◌, eqb};
ghost use Rattle.std.specs.Int.Count.{count_trailing_zeros};
ghost use Rattle.laws.specs.Bits.{bit, put_bit};
ghost use Rattle.laws.specs.Masks.{clear};
ghost use Rattle.laws.specs.Find.{first};
ghost use Rattle.protocol.specs.Numbers.{slot_count};
ghost use Rattle.state.specs.Answers.{option_of};

use crate::SLOTS;

// Bit i of a mask.
pub fn bit_of(mask: u32, i: usize) -> u32
    requires { i < 32 }
    ensures { result ≡ bit i mask }
{
    (mask >> i) & 1
}

// Bit i is set.
pub fn has(mask: u32, i: usize) -> bool
    requires { i < 32 }
    ensures { result ≡ eqb (bit i mask) 1 }
{
    bit_of(mask, i) == 1
}

// The mask with bit i set.
pub fn set_bit(mask: u32, i: usize) -> u32
    requires { i < 32 }
    ensures { result ≡ put_bit i 1 mask }
{
    mask | (1u32 << i)
}

// The mask with bit i clear.
pub fn clear_bit(mask: u32, i: usize) -> u32
    requires { i < 32 }
    ensures { result ≡ put_bit i 0 mask }
{
    mask & !(1u32 << i)
}

// The mask with its lowest set bit clear.
pub fn clear_lowest(mask: u32) -> u32
    requires { 0 < mask }
    ensures { result ≡ put_bit (count_trailing_zeros 32 mask) 0 mask }
{
    mask & (mask - 1)
}

// The lowest clear bit of a mask of 16 places: "the lowest free row", "the lowest free slot".
pub fn lowest_free(mask: u32) -> Option<usize>
    ensures { option_of result ≡ first (clear mask) slot_count }
{
    let i = u32::trailing_zeros(!mask) as usize;
    if i < SLOTS { Some(i) } else { None }
}
