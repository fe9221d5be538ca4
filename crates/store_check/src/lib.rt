// A store file, judged: the first reason against it.
#![tactic(auto)]

ghost use Rattle.std.specs.Prelude.{◌≡◌, ◌≤◌, length};
ghost use Rattle.laws.specs.Bytes.{same};
ghost use Rattle.protocol.specs.Names.{base};
ghost use Rattle.wire.specs.Fields.{store_keys};
ghost use Rattle.protocol.specs.Verdict.{verdict};
ghost use Rattle.wire.specs.Walk.{walk, last};
ghost use Rattle.store_file.specs.Messages.{scan_at, base_field, store_in, reading};
ghost use Rattle.store_file.specs.Loaded.{reason};
ghost use Rattle.store_check.specs.Tests.{named_right, sized_right, AllTested};

use protocol::Code;
use request_names::store_name;
use state::{SLOT_SIZE, SLOTS};
use store_file::{BLOB_DATA, BLOB_NAME, STORE_BASE, STORE_BLOB};
use store_names::all_different;
use wire::Field;
use wire_reader::{Fields, fault_in, field_at, last_field};

// The first wire fault, inner messages included, if there is one.
pub fn store_fault(file: &[u8]) -> Result<(), Code>
    ensures { result ≡ verdict (store_in file.now).fault }
{
    let len = file.len();
    let mut at: usize = 0;
    while at < len {
        let field = field_at(file, at, len)?;
        if field.number == STORE_BLOB {
            fault_in(file, field.start, field.next)?;
        }
        at = field.next;
    }
    Ok(())
}

// A blob has a store name.
fn named_right(file: &[u8], blob: Field) -> bool
    requires { blob.next ≤ length file.now }
    ensures { result ≡ named_right (scan_at file.now blob) }
{
    store_name(last_field(file, blob.start, blob.next, BLOB_NAME))
}

// A blob fits a slot.
fn sized_right(file: &[u8], blob: Field) -> bool
    requires { blob.next ≤ length file.now }
    ensures { result ≡ sized_right (scan_at file.now blob) }
{
    last_field(file, blob.start, blob.next, BLOB_DATA).len() <= SLOT_SIZE
}

// What is tested of all blobs, and how many there are.
#[derive(Clone, Copy)]
pub struct Tests {
    pub names: bool,
    pub sizes: bool,
    pub count: usize,
}

fn test_all(file: &[u8]) -> Tests
    ensures { AllTested file.now result.names result.sizes result.count }
{
    let mut tests = Tests {
        names: true,
        sizes: true,
        count: 0,
    };
    for blob in Fields::new(file, 0, file.len(), STORE_BLOB) {
        tests.names &= named_right(file, blob);
        tests.sizes &= sized_right(file, blob);
        tests.count += 1;
    }
    tests
}

// The base is `/scan/`.
fn base_right(file: &[u8]) -> bool
    ensures { result ≡ same (last file.now base_field (walk store_keys file.now 0 (length file.now)).items) base }
{
    last_field(file, 0, file.len(), STORE_BASE) == protocol::BASE.as_slice()
}

// The first reason against a file, as a completion code, if there is one.
pub fn reason_against(file: &[u8]) -> Result<(), Code>
    ensures { result ≡ verdict (reason (reading file.now)) }
{
    store_fault(file)?;
    if !base_right(file) {
        return Err(Code::WRONG_BASE);
    }
    let tests = test_all(file);
    if !tests.names {
        return Err(Code::BAD_NAME);
    }
    if !all_different(file, tests.count) {
        return Err(Code::REPEATED_NAME);
    }
    if !tests.sizes {
        return Err(Code::LONG_DATA);
    }
    if SLOTS < tests.count {
        return Err(Code::MANY_BLOBS);
    }
    Ok(())
}
