// A run's memory, and the store files that it is filled from and saved to. The functions here only move bytes between the system and the library's
// functions; whoever calls them says what failed.
#![tactic(auto)]

ghost use Rattle.std.specs.Prelude.{◌≤◌, length, IfSome};

use memory_copy::copy_at;
use protocol::Code;
use state::{Control, HASH_SIZE, IMAGE_SIZE, NAME_SIZE, ROW_WORDS, ROWS, SLOT_SIZE, SLOTS};
use std::alloc::AllocError;
use std::fmt::{Display, Formatter};
use std::fs::{OpenFile, OpenOptions, Permissions};
use std::io::{ErrorKind, Write};
use std::os::unix::fs::{OpenOptionsExt, PermissionsExt};
use std::random::RandomSource;
use std::rt::Files;
use std::{fmt, fs, io};
use store_loader::load;
use store_writer::{BUFFER_SIZE, save_part};
use system::{PathBytes, open_to_read, path_text, read_whole};

// The longest store file that is taken. A saved one has less than 67,000 bytes; more is there for fields that are skipped.
const FILE_MOST: usize = 1048576;

// One byte more, so that a longer file is told from one of just that length.
const FILE_SIZE: usize = FILE_MOST + 1;

// Parts of the longest store file: the base and 16 blobs. One number more is asked for, and is past the last.
const PARTS_MOST: u32 = 17;

// The mode of a saved file: its owner writes it, everyone reads it. Until it is whole, its owner alone reads it.
const FILE_MODE: u32 = 0o644;

const NEW_MODE: u32 = 0o600;

// Behind the path of a new file stand a dot and six characters, chosen among the letters and digits, until it takes the place of the old one.
const SUFFIX: [u8; SUFFIX_SIZE] = *b".XXXXXX";

const SUFFIX_SIZE: usize = 1 + CHOSEN_SIZE;

const CHOSEN_SIZE: usize = 6;

const CHOICES: [u8; 62] = *b"ABCDEFGHIJKLMNOPQRSTUVWXYZabcdefghijklmnopqrstuvwxyz0123456789";

// How many names are tried, where files of these names are there already.
const TRIES: u32 = 238328;

// Why a store file is not loaded, or a store is not saved.
#[derive(Clone, Copy)]
pub enum StoreError {
    System(io::Error),
    TooLong,
    Refused(Code),
    PathTooLong,
    NotSound,
}

impl Display for StoreError {
    fn fmt<W: fmt::Write>(&self, f: &mut Formatter<W>) -> fmt::Result {
        match self {
            StoreError::System(error) => write!(f, "{error}"),
            StoreError::TooLong => write!(f, "longer than a store file may be"),
            StoreError::Refused(code) => {
                let number = code.0;
                write!(f, "refused, {number:02X}")
            }
            StoreError::PathTooLong => write!(f, "too long for a path"),
            StoreError::NotSound => write!(f, "Not a sound state"),
        }
    }
}

impl From<io::Error> for StoreError {
    fn from(error: io::Error) -> StoreError {
        StoreError::System(error)
    }
}

impl From<AllocError> for StoreError {
    fn from(error: AllocError) -> StoreError {
        StoreError::System(io::Error::from(error))
    }
}

// The control block and all that it speaks of.
#[derive(Drop)]
pub struct Cabinet {
    pub control: Control,
    pub table: [u32; ROWS * ROW_WORDS],
    pub names: [u8; SLOTS * NAME_SIZE],
    pub committed: [u8; SLOTS * SLOT_SIZE],
    pub staged: [u8; SLOTS * SLOT_SIZE],
    pub image: [u8; IMAGE_SIZE],
    pub hash: [u8; HASH_SIZE],
}

// The file at a path becomes the store.
pub fn load_file<R: Files + Alloc>(
    rt: &R,
    path: &[u8],
    control: &mut Control,
    table: &[u32],
    names: &mut [u8],
    committed: &mut [u8],
    staged: &mut [u8],
    image: &[u8],
    hash: &[u8],
) -> Result<(), StoreError> {
    let mut store = vec![in rt.alloc(); 0u8; FILE_SIZE]?;
    let mut file = open_to_read(rt, path)?;
    let len = read_whole(&mut file, &mut store)?.ok_or(StoreError::TooLong)?;
    load(
        &store[..len],
        control,
        table,
        names,
        committed,
        staged,
        image,
        hash,
    )
    .map_err(StoreError::Refused)
}

// The parts of the store are written to a new file, one behind the other.
fn write_parts(
    file: &mut impl Write,
    control: Control,
    table: &[u32],
    names: &[u8],
    committed: &[u8],
    staged: &[u8],
    image: &[u8],
    hash: &[u8],
) -> Result<(), StoreError> {
    let mut buffer = [0u8; BUFFER_SIZE];
    for part in 0..=PARTS_MOST {
        match save_part(
            part,
            control,
            table,
            names,
            committed,
            staged,
            image,
            hash,
            &mut buffer,
        ) {
            Ok(len) => file.write_all(&buffer[..len])?,
            Err(Code::OUT_OF_RANGE) => return Ok(()),
            Err(_) => return Err(StoreError::NotSound),
        }
    }
    Err(StoreError::NotSound)
}

// The store is saved at a path: into a new file beside it, which then takes its place. Where that fails the old file stays; so does the new one, if `new`
// has its path, until whoever called has said what failed and calls `remove`.
pub fn save_file<R: Files + RandomSource>(
    rt: &R,
    path: &[u8],
    new: &mut PathBytes,
    control: Control,
    table: &[u32],
    names: &[u8],
    committed: &[u8],
    staged: &[u8],
    image: &[u8],
    hash: &[u8],
) -> Result<(), StoreError> {
    new.len = 0;
    let len = name_beside(path, &mut new.bytes).ok_or(StoreError::PathTooLong)?;
    let mut file = create_chosen(rt, &mut new.bytes[..len])?;
    new.len = len;
    write_parts(
        &mut file, control, table, names, committed, staged, image, hash,
    )?;
    take_place(rt, file, new.path(), path)?;
    Ok(())
}

// The new file that a store could not be saved into is removed, if there is one.
pub fn remove<R: Files>(rt: &R, new: &PathBytes) -> io::Result<()> {
    if new.len == 0 {
        return Ok(());
    }
    fs::remove_file(rt, path_text(new.path())?)
}

impl Cabinet {
    // The file at a path becomes the store.
    pub fn load_file<R: Files + Alloc>(&mut self, rt: &R, path: &[u8]) -> Result<(), StoreError> {
        load_file(
            rt,
            path,
            &mut self.control,
            &self.table,
            &mut self.names,
            &mut self.committed,
            &mut self.staged,
            &self.image,
            &self.hash,
        )
    }

    // The store is saved at a path; `new` is for the path of the new file.
    pub fn save_file<R: Files + RandomSource>(
        &self,
        rt: &R,
        path: &[u8],
        new: &mut PathBytes,
    ) -> Result<(), StoreError> {
        save_file(
            rt,
            path,
            new,
            self.control,
            &self.table,
            &self.names,
            &self.committed,
            &self.staged,
            &self.image,
            &self.hash,
        )
    }
}

// The new file's bytes reach its device.
fn settle(file: &impl OpenFile) -> io::Result<()> {
    file.set_permissions(Permissions::from_mode(FILE_MODE))?;
    file.sync_all()
}

// The new file takes the place of the old one, once all of it has reached its device.
fn take_place<R: Files>(rt: &R, file: R::File, name: &[u8], path: &[u8]) -> io::Result<()> {
    settle(&file)?;
    drop(file);
    fs::rename(rt, path_text(name)?, path_text(path)?)
}

// The path of a new file beside the one at `path`, in which the last characters are to be chosen: how long it is, if it fits.
fn name_beside(path: &[u8], name: &mut [u8]) -> Option<usize>
    ensures { IfSome result (λ len. len ≤ length name.new) }
{
    let len = path.len();
    if name.len() <= len {
        return None;
    }
    if name.len() - len <= SUFFIX_SIZE {
        return None;
    }
    copy_at(name, 0, path);
    copy_at(name, len, &SUFFIX);
    Some(len + SUFFIX_SIZE)
}

// The characters at the end of a new file's path are chosen at random.
fn choose(rt: &impl RandomSource, chosen: &mut [u8]) -> io::Result<()> {
    let mut random = [0u8; CHOSEN_SIZE];
    rt.fill_bytes(&mut random)?;
    for (to, from) in chosen.iter_mut().zip(&random) {
        *to = CHOICES[usize::from(*from % 62)];
    }
    Ok(())
}

// A new file, which was not there before, at a path whose last characters are chosen.
fn create_chosen<R: Files + RandomSource>(rt: &R, name: &mut [u8]) -> io::Result<R::File> {
    for _ in 0..TRIES {
        if CHOSEN_SIZE <= name.len() {
            let from = name.len() - CHOSEN_SIZE;
            choose(rt, &mut name[from..])?;
        }
        let opened = OpenOptions::new()
            .write(true)
            .create_new(true)
            .mode(NEW_MODE)
            .open(rt, path_text(name)?);
        match opened {
            Err(error) if error.kind() == ErrorKind::AlreadyExists => {}
            other => return other,
        }
    }
    Err(io::Error::from(ErrorKind::AlreadyExists))
}
