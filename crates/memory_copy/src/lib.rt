// Values stored into lent memory: copied, or cleared.
#![tactic(auto)]

ghost use Rattle.std.specs.Prelude.{◌≡◌, ◌+◌, ◌≤◌, length, replicate};
ghost use Rattle.std.proofs.lemmas.List.Edits.{sets};

// The values src are stored into dst from `at` on.
pub fn copy_at<T: Copy>(dst: &mut [T], at: usize, src: &[T])
    requires { at + length src.now ≤ length dst.old }
    ensures { dst.new ≡ sets dst.old at src.now }
{
    // Value by value, which becomes a call of memcpy; copy_from_slice becomes one of memmove.
    for i in 0..src.len() {
        dst[at + i] = src[i];
    }
}

// n zeros are stored into dst from `at` on.
pub fn clear_at(dst: &mut [u8], at: usize, n: usize)
    requires { at + n ≤ length dst.old }
    ensures { dst.new ≡ sets dst.old at (replicate n 0) }
{
    dst[at..at + n].fill(0);
}
