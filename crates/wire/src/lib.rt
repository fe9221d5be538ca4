// What stands at a place of a message in the Protocol Buffers wire encoding, as values. The definitions stand in specs/; the code that reads
// stands in a crate above.
#![tactic(auto)]

// A base-128 number: its value and the place behind it.
#[derive(Clone, Copy)]
pub struct Number {
    pub value: u64,
    pub next: usize,
}

// A field: its number, its wire type, where its value starts, and the place behind it, where the next field starts.
#[derive(Clone, Copy)]
pub struct Field {
    pub number: u64,
    pub kind: u8,
    pub start: usize,
    pub next: usize,
}
