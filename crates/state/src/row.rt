// Rows of the session table: four words each, read and written whole.
ghost use Rattle.std.specs.Prelude.{◌≡◌, ◌+◌, ◌*◌, ◌<◌, get_or, eqb};
ghost use Rattle.laws.specs.Ranges.{block};
ghost use Rattle.protocol.specs.Names.{kind_of};
ghost use Rattle.protocol.specs.Numbers.{row_count, row_words, status_unit};
ghost use Rattle.state.specs.Words.{flags_in, status_in, clean_in, writing_in, writes_with, store_flags, flash_flags, word_with, free_row};
ghost use Rattle.state.specs.Job.{status_number};
ghost use Rattle.state.specs.State.{place_of};
ghost use Rattle.state.specs.Entry.{words_of, lifted, status_set, clean_set};
ghost use Rattle.state.specs.Lent.{TableLent};

use crate::{CLEAN_UNIT, ROW_WORDS, SLOTS, STATUS_UNIT, Status};
use protocol::{Flags, FlashKind};

// A row by value: identifier; blob; flags, job status and clean mark in one word; stamp.
#[derive(Clone, Copy)]
pub struct Entry {
    pub id: u32,
    pub blob: u32,
    pub word: u32,
    pub stamp: u32,
}

// What a session is on: a slot of the store, or the flash.
#[derive(Clone, Copy)]
pub enum Place {
    AtSlot(usize),
    AtFlash,
}

// The row that is looked for: the session of an identifier, the session on a blob, or the flash session.
#[derive(Clone, Copy)]
pub enum Wanted {
    Id(u32),
    OnBlob(u32),
    OnFlash,
}

impl Entry {
    // An unused row.
    pub const FREE: Entry = Entry {
        id: 0,
        blob: 0,
        word: 0,
        stamp: 0,
    };

    // What the session of the row is on.
    pub fn place(self) -> Place
        ensures { result ≡ place_of self.blob }
    {
        if self.blob < SLOTS as u32 {
            return Place::AtSlot(self.blob as usize);
        }
        Place::AtFlash
    }

    pub fn flags(self) -> u32
        ensures { result ≡ flags_in self.word }
    {
        self.word % STATUS_UNIT
    }

    pub fn status(self) -> Status
        ensures { status_number result ≡ status_in self.word }
    {
        match self.word / STATUS_UNIT % Status::COUNT {
            0 => Status::Untried,
            1 => Status::Running,
            2 => Status::Succeeded,
            _ => Status::Failed,
        }
    }

    pub fn clean(self) -> u32
        ensures { result ≡ clean_in self.word }
    {
        self.word / CLEAN_UNIT % 2
    }

    // The session writes.
    pub fn writes(self) -> bool
        ensures { result ≡ eqb (writing_in self.word) 1 }
    {
        writes_with(self.flags())
    }

    // The stamp lifted to the clock if that is later.
    pub fn lifted(self, clock: u32) -> Entry
        ensures { result ≡ lifted self clock }
    {
        Entry {
            stamp: self.stamp.max(clock),
            ..self
        }
    }

    // Another job status.
    pub fn with_status(self, status: Status) -> Entry
        ensures { result ≡ status_set self (status_number status) }
    {
        Entry {
            word: word_with(self.flags(), status, self.clean()),
            ..self
        }
    }

    // Another clean mark.
    pub fn with_clean(self, clean: u32) -> Entry
        requires { clean < 2 }
        ensures { result ≡ clean_set self clean }
    {
        Entry {
            word: word_with(self.flags(), self.status(), clean),
            ..self
        }
    }
}

// A session with these flags writes: WRITE is among them.
pub fn writes_with(flags: u32) -> bool
    ensures { result ≡ writes_with flags }
{
    flags / Flags::WRITE.0 as u32 % 2 == 1
}

// The flags that a store name allows.
pub fn store_flags(flags: u32) -> bool
    ensures { result ≡ store_flags flags }
{
    (flags == Flags::READ.0 as u32) | (flags == Flags::READ_WRITE.0 as u32)
}

// The flags that a flash name allows.
pub fn flash_flags(flags: u32) -> bool
    ensures { result ≡ flash_flags flags }
{
    flags == Flags::WRITE.0 as u32
}

// The third word with these flags, this job status and this clean mark.
pub fn word_with(flags: u32, status: Status, clean: u32) -> u32
    requires { (flags < status_unit) × (clean < 2) }
    ensures { result ≡ word_with flags (status_number status) clean }
{
    flags + status.number() * STATUS_UNIT + clean * CLEAN_UNIT
}

// The flash name of a blob number that is no slot's. A number above cleanup's is taken for cleanup; no sound row has one.
pub fn kind_of(blob: u32) -> FlashKind
    ensures { result ≡ kind_of blob }
{
    if blob == FlashKind::Image.number() {
        return FlashKind::Image;
    }
    if blob == FlashKind::Hash.number() {
        return FlashKind::Hash;
    }
    if blob == FlashKind::Verify.number() {
        return FlashKind::Verify;
    }
    if blob == FlashKind::Update.number() {
        return FlashKind::Update;
    }
    FlashKind::Cleanup
}

// Word j of row r.
fn word_of(table: &[u32], r: usize, j: usize) -> u32
    requires { TableLent table.now × ((r < row_count) × (j < row_words)) }
    ensures { result ≡ get_or table.now (r * row_words + j) 0 }
{
    table[r * ROW_WORDS + j]
}

// Row r of the table.
pub fn read_row(table: &[u32], r: usize) -> Entry
    requires { TableLent table.now × (r < row_count) }
    ensures { (block row_words r).get table.now ≡ words_of result }
{
    Entry {
        id: word_of(table, r, 0),
        blob: word_of(table, r, 1),
        word: word_of(table, r, 2),
        stamp: word_of(table, r, 3),
    }
}

// Row r of the table becomes e.
pub fn write_row(table: &mut [u32], r: usize, e: Entry)
    requires { TableLent table.old × (r < row_count) }
    ensures { table.new ≡ (block row_words r).put (words_of e) table.old }
{
    let at = r * ROW_WORDS;
    table[at] = e.id;
    table[at + 1] = e.blob;
    table[at + 2] = e.word;
    table[at + 3] = e.stamp;
}

// Row r of the table becomes that of an unused row.
pub fn clear_row(table: &mut [u32], r: usize)
    requires { TableLent table.old × (r < row_count) }
    ensures { table.new ≡ (block row_words r).put free_row.words table.old }
{
    write_row(table, r, Entry::FREE)
}
