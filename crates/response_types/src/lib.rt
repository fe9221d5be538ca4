// What the code of a command hands back.
#![tactic(auto)]

// What a command answers where it is not refused: a success without fields; the fields of Open, of Count, of Stat and SessionStat; or `len`
// bytes of fields that stand in the answer buffer already, behind the place of header and CRC. A refusal is an `Err` with its completion code.
#[derive(Clone, Copy)]
pub enum Said {
    Done,
    Session { id: u16 },
    Number { n: u32 },
    Stat { state: u16, size: u32 },
    Fields { len: usize },
}
