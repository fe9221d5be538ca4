// Names: equal bytes, the bytes before the first zero, store names, what a name names.
#![tactic(auto)]

ghost use Rattle.std.specs.Prelude.{◌≡◌, ◌==◌, ◌≤◌, length, drop, position};
ghost use Rattle.std.specs.List.{list_all};
ghost use Rattle.std.specs.Char.{is_ascii_alphanumeric};
ghost use Rattle.laws.specs.Bytes.{same, text, first_zero};
ghost use Rattle.protocol.specs.Names.{store_name, name_form, blob_named};

use protocol::{Blob, FlashKind, NAME_MOST, STORE_NAME_MOST};

// Two slices hold the same bytes. The loop carries the answer, so that it is vectorised: `==` on the slices takes a third longer in the
// soundness test of a full state, which compares each two names.
pub fn same_bytes(a: &[u8], b: &[u8]) -> bool
    ensures { result ≡ same a.now b.now }
{
    if a.len() != b.len() {
        return false;
    }
    let mut ok = true;
    for i in 0..a.len() {
        ok = ok & (a[i] == b[i]);
    }
    ok
}

// Where the first zero stands.
fn zero_place(s: &[u8]) -> Option<usize>
    ensures { result ≡ position (λ b. b == 0) s.now }
{
    s.iter().position(|b| *b == 0)
}

// How many bytes stand before the first zero.
pub fn first_zero(s: &[u8]) -> usize
    ensures { (result ≡ first_zero s.now) × (result ≤ length s.now) }
{
    zero_place(s).unwrap_or(s.len())
}

// Nothing but ASCII letters and digits.
fn all_alnum(s: &[u8]) -> bool
    ensures { result ≡ list_all is_ascii_alphanumeric s.now }
{
    s.iter().all(u8::is_ascii_alphanumeric)
}

// `/scan/` and 1 to 25 letters or digits.
pub fn store_name(n: &[u8]) -> bool
    ensures { result ≡ store_name n.now }
{
    let Some(word) = n.strip_prefix(&protocol::BASE) else {
        return false;
    };
    (1..=STORE_NAME_MOST).contains(&word.len()) && all_alnum(word)
}

// What a name names; it stands in the message from `at` on.
#[tactic(auto, unfolding(protocol::specs::Names::blob_named, protocol::specs::Names::flash_folder, protocol::specs::Names::flash_word, protocol::specs::Names::base))]
pub fn blob_named(at: usize, n: &[u8]) -> Blob
    ensures { result ≡ blob_named at n.now }
{
    if store_name(n) {
        Blob::Store {
            start: at,
            len: n.len(),
        }
    } else if same_bytes(n, &protocol::FLASH_IMAGE) {
        Blob::Flash(FlashKind::Image)
    } else if same_bytes(n, &protocol::FLASH_HASH) {
        Blob::Flash(FlashKind::Hash)
    } else if same_bytes(n, &protocol::FLASH_VERIFY) {
        Blob::Flash(FlashKind::Verify)
    } else if same_bytes(n, &protocol::FLASH_UPDATE) {
        Blob::Flash(FlashKind::Update)
    } else if same_bytes(n, &protocol::FLASH_CLEANUP) {
        Blob::Flash(FlashKind::Cleanup)
    } else if same_bytes(n, &protocol::BASE) {
        Blob::Base
    } else {
        Blob::Unknown
    }
}

// 1 to 31 characters, then the only NUL, to the end of the body.
pub fn name_form(b: &[u8]) -> bool
    ensures { result ≡ name_form b.now }
{
    let n = first_zero(b);
    if NAME_MOST < n {
        return false;
    }
    (1 <= n) & (n + 1 == b.len())
}

// What the name at a place of a message names.
pub fn blob_at(message: &[u8], at: usize) -> Blob
    requires { at ≤ length message.now }
    ensures { result ≡ blob_named at (text (drop at message.now)) }
{
    let rest = &message[at..];
    let n = first_zero(rest);
    blob_named(at, &rest[..n])
}
