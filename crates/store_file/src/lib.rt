// The messages of a store file. What they mean stands in specs/.
#![tactic(auto)]

// Field numbers: of a store its base id and a blob, of a blob its name and its data.
pub const STORE_BASE: u64 = 1;

pub const STORE_BLOB: u64 = 2;

pub const BLOB_NAME: u64 = 1;

pub const BLOB_DATA: u64 = 2;
