// The sizes of a category, as plain numbers. The code of the scheme takes them as an argument, so that another
// category is another set of numbers: a constant here, and the same in specs/Categories, which the contracts cite.

#![tactic(auto)]

pub mod category;

pub use category::Category;

#[derive(Clone, Copy)]
pub struct Params {
    // places of a vector, and how many of them the matrix V covers
    pub n: usize,
    pub k: usize,
    // rounds, and how many of them have the second challenge 1
    pub t: usize,
    pub w: usize,
    // bytes of a digest; also of salt, private, secret and public seed
    pub digest: usize,
    // bytes of the master seed and of a round's seed
    pub seed: usize,
    // SHAKE's rate in bytes
    pub rate: usize,
    // bytes of the blocks that are drawn from
    pub matrix: usize,
    pub exponents: usize,
    pub mask: usize,
    pub first: usize,
    pub second: usize,
}

// Category 1 of document CROSS 1.1, R-SDP fast.
pub const CATEGORY1: Params = Params {
    n: 127,
    k: 76,
    t: 163,
    w: 85,
    digest: 32,
    seed: 16,
    rate: 168,
    matrix: 3500,
    exponents: 96,
    mask: 140,
    first: 196,
    second: 400,
};

// Categories 3 and 5, with SHAKE256's rate.
pub const CATEGORY3: Params = Params {
    n: 187,
    k: 111,
    t: 245,
    w: 127,
    digest: 48,
    seed: 24,
    rate: 136,
    matrix: 7616,
    exponents: 144,
    mask: 210,
    first: 280,
    second: 600,
};

pub const CATEGORY5: Params = Params {
    n: 251,
    k: 150,
    t: 327,
    w: 169,
    digest: 64,
    seed: 32,
    rate: 136,
    matrix: 13664,
    exponents: 192,
    mask: 280,
    first: 350,
    second: 800,
};

// The greatest sizes that code is used at (specs/Sound): local arrays have these lengths.
pub const PLACES: usize = 256;

pub const ROUNDS: usize = 512;

pub const DIGEST: usize = 64;

pub const TWO_DIGESTS: usize = 2 * DIGEST;

// A drawn vector, with room for the rest of its last group.
pub const DRAWN_PLACES: usize = PLACES + 8;

pub const DRAWN_ROUNDS: usize = ROUNDS + 8;

// Packed vectors.
pub const PACKED_VALUES: usize = PLACES * 7 / 8;

pub const PACKED_EXPONENTS: usize = PLACES * 3 / 8;

pub const PACKED_CHALLENGES: usize = ROUNDS * 7 / 8;

// The block of a draw of exponents; of these, mask values or first challenges; and that of the second challenge.
pub const EXPONENTS_BLOCK: usize = 256;

pub const BLOCK: usize = 384;

pub const SECOND_BLOCK: usize = 1024;
