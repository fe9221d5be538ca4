// What the cabinet keeps by value, the sizes of what is lent to it, and small code on rows, masks and the control block.
#![tactic(auto)]

ghost use Rattle.std.specs.Prelude.{◌≡◌, eqb};
ghost use Rattle.protocol.specs.Numbers.{untried, running, succeeded, failed};
ghost use Rattle.state.specs.Job.{status_number};
ghost use Rattle.state.specs.Soundness.{is_idle, is_uploading, is_verified};

pub mod mask;
pub mod row;
pub mod values;

// Rows of the session table, and the words of each.
pub const ROWS: usize = 16;

pub const ROW_WORDS: usize = 4;

// Slots of the store; blobs below this number are slots.
pub const SLOTS: usize = 16;

// Bytes of a slot's name, of each of its two regions, of the image and of the hash.
pub const NAME_SIZE: usize = 32;

pub const SLOT_SIZE: usize = 4096;

pub const IMAGE_SIZE: usize = 16384;

pub const HASH_SIZE: usize = 64;

// Masks, identifiers and the next identifier are below this.
pub const SIXTEEN_BITS: u32 = 0x10000;

// Where the job status starts in a row's third word, where the clean mark, and what the word is below.
pub const STATUS_UNIT: u32 = 0x10000;

pub const CLEAN_UNIT: u32 = 0x40000;

pub const WORD_LIMIT: u32 = 0x80000;

// The status of a row's job.
#[derive(Clone, Copy, PartialEq, Eq)]
pub enum Status {
    Untried,
    Running,
    Succeeded,
    Failed,
}

impl Status {
    // How many there are.
    pub const COUNT: u32 = 4;

    // Its number in a row's third word.
    pub fn number(self) -> u32
        ensures { result ≡ status_number self }
    {
        match self {
            Status::Untried => 0,
            Status::Running => 1,
            Status::Succeeded => 2,
            Status::Failed => 3,
        }
    }

    pub fn is_untried(self) -> bool
        ensures { result ≡ eqb (status_number self) untried }
    {
        matches!(self, Status::Untried)
    }

    pub fn is_running(self) -> bool
        ensures { result ≡ eqb (status_number self) running }
    {
        matches!(self, Status::Running)
    }

    pub fn is_succeeded(self) -> bool
        ensures { result ≡ eqb (status_number self) succeeded }
    {
        matches!(self, Status::Succeeded)
    }

    pub fn is_failed(self) -> bool
        ensures { result ≡ eqb (status_number self) failed }
    {
        matches!(self, Status::Failed)
    }
}

// How far an update of the flash has come.
#[derive(Clone, Copy, PartialEq, Eq)]
pub enum Phase {
    Idle,
    Uploading,
    Verified,
}

impl Phase {
    pub fn is_idle(self) -> bool
        ensures { result ≡ is_idle self }
    {
        matches!(self, Phase::Idle)
    }

    pub fn is_uploading(self) -> bool
        ensures { result ≡ is_uploading self }
    {
        matches!(self, Phase::Uploading)
    }

    pub fn is_verified(self) -> bool
        ensures { result ≡ is_verified self }
    {
        matches!(self, Phase::Verified)
    }
}

// Masks of rows used, slots used and slots committed; lengths of each slot; phase and lengths of the flash; next identifier; last sweep
#[derive(Clone, Copy)]
pub struct Control {
    pub rows: u32,
    pub slots: u32,
    pub marks: u32,
    pub committed_len: [u32; SLOTS],
    pub staged_len: [u32; SLOTS],
    pub phase: Phase,
    pub image_len: u32,
    pub hash_len: u32,
    pub next: u32,
    pub last_sweep: u32,
}

// All that a caller lends for a request, beside the message and the answer buffer: the control block by value, and the session table, the names,
// the committed and staged regions, the image and the hash where they lie.
#[derive(Drop)]
pub struct Memory<'a> {
    pub control: Control,
    pub table: &'a mut [u32],
    pub names: &'a mut [u8],
    pub committed: &'a mut [u8],
    pub staged: &'a mut [u8],
    pub image: &'a mut [u8],
    pub hash: &'a mut [u8],
}
