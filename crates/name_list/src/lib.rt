// Count and Enumerate.
#![tactic(auto)]

ghost use Rattle.std.specs.Prelude.{◌≡◌, Ok, List, [], ◌∷◌, ◌++◌, ℕ, ◌*◌, ◌<◌, ◌≤◌, length};
ghost use Rattle.laws.specs.Ranges.{block};
ghost use Rattle.laws.specs.Bytes.{text};
ghost use Rattle.protocol.specs.Names.{flash_name};
ghost use Rattle.protocol.specs.Numbers.{slot_count, name_size, sixteen_bits};
ghost use Rattle.protocol.specs.Frame.{reply};
ghost use Rattle.state.specs.State.{state_of};
ghost use Rattle.state.specs.Lent.{NamesLent, AnswerLent};
ghost use Rattle.rules.specs.Counting.{flash_count};
ghost use Rattle.rules.specs.Listing.{counted, enumerated};
ghost use Rattle.response_types.specs.After.{reply_of};
ghost use Rattle.name_list.specs.Listed.{flash_at, InStore, listed_reply, Answers};

use lookup::nth_set;
use memory_copy::copy_at;
use name_flash::flash_listed;
use protocol::{Code, FIELDS_AT, FlashKind};
use request_names::first_zero;
use response_types::Said;
use state::row::kind_of;
use state::{Control, NAME_SIZE, Phase};

// A name in the list.
#[derive(Clone, Copy)]
pub enum Listed {
    Base,
    Slot(usize),
    Flash(FlashKind),
}

// How many flash names are listed.
fn flash_count(phase: Phase) -> u32
    ensures { result ≡ flash_count phase }
{
    let mut n: u32 = 0;
    for blob in FlashKind::Image.number()..FlashKind::Cleanup.number() + 1 {
        if flash_listed(kind_of(blob), phase) {
            n += 1;
        }
    }
    n
}

// Count: the base, the committed slots, the flash names listed.
pub fn count(control: Control) -> Said
    requires { control.marks < sixteen_bits }
    ensures { (table names committed staged image hash a : List ℕ) → reply_of (Ok result) a ≡ counted (state_of control table names committed staged image hash) }
{
    let slots = control.marks.count_ones();
    Said::Number {
        n: 1 + (slots + flash_count(control.phase)),
    }
}

// The listed flash name number i, if there are so many.
fn flash_at(phase: Phase, i: u32) -> Option<Listed>
    ensures { result ≡ flash_at phase i }
{
    let mut left = i;
    for blob in FlashKind::Image.number()..FlashKind::Cleanup.number() + 1 {
        let kind = kind_of(blob);
        if flash_listed(kind, phase) {
            if left == 0 {
                return Some(Listed::Flash(kind));
            }
            left -= 1;
        }
    }
    None
}

// The listed name number `index`, if there are so many.
fn listed_at(index: u32, control: Control) -> Option<Listed>
    requires { control.marks < sixteen_bits }
    ensures { ((table names committed staged image hash : List ℕ) → listed_reply result names ≡ enumerated index (state_of control table names committed staged image hash)) × InStore result }
{
    if index == 0 {
        return Some(Listed::Base);
    }
    let i = index - 1;
    let slots = control.marks.count_ones();
    if i < slots {
        return Some(Listed::Slot(nth_set(control.marks, i)));
    }
    flash_at(control.phase, i - slots)
}

// A name and its NUL become the fields in the answer buffer.
fn lay(name: &[u8], answer: &mut [u8]) -> Said
    requires { (length name.now ≤ name_size) × AnswerLent answer.old }
    ensures { Answers (reply (name.now ++ (0 ∷ []))) (Ok result) answer.old answer.new }
{
    let len = name.len();
    copy_at(answer, FIELDS_AT, name);
    answer[FIELDS_AT + len] = 0;
    Said::Fields { len: len + 1 }
}

// Slot k's name: the bytes of its field up to the NUL.
fn lay_slot(k: usize, names: &[u8], answer: &mut [u8]) -> Said
    requires { (k < slot_count) × (NamesLent names.now × AnswerLent answer.old) }
    ensures { Answers (reply (text ((block name_size k).get names.now) ++ (0 ∷ []))) (Ok result) answer.old answer.new }
{
    let at = k * NAME_SIZE;
    let end = at + NAME_SIZE;
    let nul = at + first_zero(&names[at..end]);
    lay(&names[at..nul], answer)
}

// A flash name. Each is a value of its own here, and no reference to one of them: a table of references would have to be told, when the archive is loaded,
// where it lies.
fn lay_flash(kind: FlashKind, answer: &mut [u8]) -> Said
    requires { AnswerLent answer.old }
    ensures { Answers (reply (flash_name kind ++ (0 ∷ []))) (Ok result) answer.old answer.new }
{
    match kind {
        FlashKind::Image => {
            let name = protocol::FLASH_IMAGE;
            lay(&name, answer)
        }
        FlashKind::Hash => {
            let name = protocol::FLASH_HASH;
            lay(&name, answer)
        }
        FlashKind::Verify => {
            let name = protocol::FLASH_VERIFY;
            lay(&name, answer)
        }
        FlashKind::Update => {
            let name = protocol::FLASH_UPDATE;
            lay(&name, answer)
        }
        FlashKind::Cleanup => {
            let name = protocol::FLASH_CLEANUP;
            lay(&name, answer)
        }
    }
}

// Enumerate: the listed name with its NUL stands in the answer buffer, or the index is not below the count.
pub fn enumerate(
    index: u32,
    control: Control,
    names: &[u8],
    answer: &mut [u8],
) -> Result<Said, Code>
    requires { (control.marks < sixteen_bits) × (NamesLent names.now × AnswerLent answer.old) }
    ensures { (table committed staged image hash : List ℕ) → Answers (enumerated index (state_of control table names.now committed staged image hash)) result answer.old answer.new }
{
    let Some(listed) = listed_at(index, control) else {
        return Err(Code::OUT_OF_RANGE);
    };
    Ok(match listed {
        Listed::Base => lay(&protocol::BASE, answer),
        Listed::Slot(k) => lay_slot(k, names, answer),
        Listed::Flash(kind) => lay_flash(kind, answer),
    })
}
