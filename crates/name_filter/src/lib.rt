// A filter of the names seen so far. Each name sets 8 of 262,144 bits, chosen by its hash. Where one of a name's bits is clear, the name is
// new; where all are set, it may be one of those seen, and the caller compares it with them.
#![tactic(auto)]

ghost use Rattle.std.specs.Prelude.{◌≡◌, ◌<◌, replicate};
ghost use Rattle.name_filter.specs.Hash.{hash_step, name_hash};
ghost use Rattle.name_filter.specs.Filter.{filter_words, bit_at, with_bit, place_of, seen_in, Marked};

// Words of a filter.
pub const FILTER_WORDS: usize = 8192;

const WORD_BITS: usize = 32;

// Bits of a filter.
const FILTER_PLACES: u64 = FILTER_WORDS as u64 * WORD_BITS as u64;

// Places of each name.
pub const PROBES: u32 = 8;

// Two to the 32nd, which every hash is below. Divided by it, a number of 64 bits gives its upper 32 bits, and the remainder is the lower 32.
pub const HASH_LIMIT: u64 = 4294967296;

// What the hash of no bytes is, and what a hash is multiplied by before a byte is added.
const HASH_START: u32 = 2166136261;

const HASH_FACTOR: u32 = 16777619;

// A hash is multiplied by this, so that hashes that differ little have places far apart.
const SPREAD_FACTOR: u64 = 2654435769;

// The distance of the places comes from bits 15 to 31 of the product: the lower ones depend on few bits of the hash.
const STRIDE_UNIT: u64 = 32768;

// The hash after one byte more.
fn hash_step(hash: u32, byte: u8) -> u32
    ensures { result ≡ hash_step hash byte }
{
    hash.wrapping_mul(HASH_FACTOR).wrapping_add(u32::from(byte))
}

// The hash of a name.
pub fn hash_name(name: &[u8]) -> u32
    ensures { result ≡ name_hash name.now }
{
    let mut hash = HASH_START;
    for &byte in name {
        hash = hash_step(hash, byte);
    }
    hash
}

// Place number i of a hash. The places are an odd distance apart, so that the eight differ.
fn place(hash: u32, i: u32) -> usize
    ensures { (result ≡ place_of hash i) × (result < 262144) }
{
    let spread = u64::from(hash) * SPREAD_FACTOR;
    let stride = spread % HASH_LIMIT / STRIDE_UNIT * 2 + 1;
    ((spread / HASH_LIMIT + u64::from(i) * stride) % FILTER_PLACES) as usize
}

// A filter: bit number n is bit n % 32 of word n / 32.
#[derive(Clone, Copy)]
pub struct Filter {
    pub words: [u32; FILTER_WORDS],
}

impl Filter {
    // A filter that knows no name.
    pub fn new() -> Filter
        ensures { result.words ≡ replicate filter_words 0 }
    {
        Filter {
            words: [0; FILTER_WORDS],
        }
    }

    // The bit at a place is set.
    fn is_set(&self, place: usize) -> bool
        requires { place < 262144 }
        ensures { result ≡ bit_at self.now.words place }
    {
        (self.words[place / WORD_BITS] >> (place % WORD_BITS)) & 1 == 1
    }

    // All places of the hash are set: so it is for every hash that was marked, and by chance for some that were not.
    pub fn seen(&self, hash: u32) -> bool
        ensures { result ≡ seen_in self.now.words hash }
    {
        let mut ok = true;
        for i in 0..PROBES {
            ok &= self.is_set(place(hash, i));
        }
        ok
    }

    // The bit at a place becomes set; all others stay.
    fn set_bit(&mut self, place: usize)
        requires { place < 262144 }
        ensures { self.new.words ≡ with_bit self.old.words place }
    {
        self.words[place / WORD_BITS] |= 1u32 << (place % WORD_BITS);
    }

    // All places of the hash become set.
    pub fn mark(&mut self, hash: u32)
        ensures { Marked self.old.words self.new.words hash }
    {
        for i in 0..PROBES {
            self.set_bit(place(hash, i));
        }
    }
}
