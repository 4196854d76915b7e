// Sampling: the draws over a lent block, for every width, limit, addend and count, and the shuffle of the second
// challenge. Document 01 calls sampling a draw.
#![tactic(auto)]

pub mod entry;
pub mod sample;
pub mod shuffle;

ghost use Rattle.std.specs.Prelude.{◌+◌, ◌^◌, ◌<◌, ◌≤◌};

// A draw: the fields of `width` bits of a block of `bytes` bytes, of which those below `limit` are kept, each plus
// `added`, until there are `count`.
#[derive(Clone, Copy)]
pub struct Draw {
    pub width: usize,
    pub limit: u8,
    pub added: u8,
    pub count: usize,
    pub bytes: usize,
    pub ghost some: { 0 < width },
    pub ghost narrow: { width ≤ 8 },
    // a field with the addend is a byte
    pub ghost fits: { 2 ^ width + added ≤ 256 },
}
