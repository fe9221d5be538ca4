// Whether a name stands twice in a store file. A file may hold far more blobs than slots, and which code it is refused with depends on this, so
// that no blob may be compared with all others: a filter says for almost every name at once that it did not come before, and only where it does
// not is the file gone through for that name. In a large file the names are divided into classes by their hashes, and the file is gone through
// once for each class, so that a small filter serves.
#![tactic(auto)]

ghost use Rattle.std.specs.Prelude.{◌≡◌, ◌≤◌, ◌<◌, leb, length};
ghost use Rattle.store_file.specs.Loaded.{different};
ghost use Rattle.store_file.specs.Messages.{scan_at};
ghost use Rattle.store_file.specs.Scans.{scans_from};
ghost use Rattle.store_names.specs.Names.{count_named, Judged, ClassTested};

use name_filter::{Filter, hash_name};
use store_file::{BLOB_NAME, STORE_BLOB};
use wire::Field;
use wire_reader::{Fields, last_field};

// So many names are taken in one class: among them the filter is hardly ever wrong.
const NAMES_FEW: usize = 8192;

// More names have at least so many classes, and for each of so many names one, so that a class seldom makes the filter wrong more than once.
const CLASSES_LEAST: usize = 8;

const CLASS_NAMES: usize = 16384;

// At most one blob of the file has this name.
fn stands_once(file: &[u8], name: &[u8]) -> bool
    ensures { result ≡ leb (count_named name.now (scans_from file.now 0)) 1 }
{
    let mut count: usize = 0;
    for blob in Fields::new(file, 0, file.len(), STORE_BLOB) {
        if name == last_field(file, blob.start, blob.next, BLOB_NAME) {
            count += 1;
        }
    }
    count <= 1
}

// One blob: where its name is of the class and the filter does not know it for new, it stands once in the file. The filter then knows the name.
fn blob_apart(file: &[u8], blob: Field, class: u64, classes: u64, filter: &mut Filter) -> bool
    requires { (blob.next ≤ length file.now) × (0 < classes) }
    ensures { Judged (scans_from file.now 0) classes class (scan_at file.now blob) result filter.old.words filter.new.words }
{
    let name = last_field(file, blob.start, blob.next, BLOB_NAME);
    let hash = hash_name(name);
    if u64::from(hash) % classes != class {
        return true;
    }
    let known = filter.seen(hash);
    filter.mark(hash);
    if !known {
        return true;
    }
    stands_once(file, name)
}

// No name of a class stands twice, as found with a filter, which may say of any name that it knows it.
fn class_apart(file: &[u8], class: u64, classes: u64) -> bool
    requires { 0 < classes }
    ensures { ClassTested (scans_from file.now 0) classes class result }
{
    let mut filter = Filter::new();
    for blob in Fields::new(file, 0, file.len(), STORE_BLOB) {
        if !blob_apart(file, blob, class, classes, &mut filter) {
            return false;
        }
    }
    true
}

// How many classes so many names are divided into.
fn class_count(count: usize) -> u64
    ensures { 0 < result }
{
    if count <= NAMES_FEW {
        return 1;
    }
    (count / CLASS_NAMES + 1).max(CLASSES_LEAST) as u64
}

// No name stands twice. `count` is the number of blobs, which decides how the time is spent, and not what is found.
pub fn all_different(file: &[u8], count: usize) -> bool
    ensures { result ≡ different (scans_from file.now 0) }
{
    let classes = class_count(count);
    for class in 0..classes {
        if !class_apart(file, class, classes) {
            return false;
        }
    }
    true
}
