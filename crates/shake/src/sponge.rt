// A sponge takes a string in part by part, and fills a lent buffer with what comes out of it.
ghost use Rattle.std.specs.Prelude.{◌≡◌, [], ◌∷◌, length};
ghost use Rattle.shake.specs.InnerFold.{Rate, Holds, Absorbs, Squeezes};

use std::marker::Model;

// The state, the place of the next byte in the block, and the size of a block in bytes.
#[derive(Drop)]
pub struct Sponge {
    pub lanes: [u64; 25],
    pub at: usize,
    pub rate: usize,
}

// Seen as these three, with room for a byte in the block.
impl Model for Sponge {
    ghost use Rattle.shake.specs.InnerFold.{Sponge as Fold, Ready, sponge};

    ghost Value = { Fold };

    ghost view = { λ s. sponge s.lanes s.at s.rate };

    ghost invariant = { λ s. Ready (sponge s.lanes s.at s.rate) };
}

impl Sponge {
    // A sponge that holds the empty string.
    pub fn new(rate: usize) -> Sponge
        requires { Rate rate }
        ensures { Holds result rate [] }
    {
        Sponge {
            lanes: [0u64; 25],
            at: 0,
            rate,
        }
    }

    // The part goes in after what the sponge holds.
    pub fn absorb(&mut self, part: &[u8])
        ensures { Absorbs self.old part.now self.new }
    {
        self.at = crate::absorb_part(&mut self.lanes, self.at, self.rate, part);
    }

    // One byte, as the tag that a string begins with.
    pub fn absorb_byte(&mut self, b: u8)
        ensures { Absorbs self.old (b ∷ []) self.new }
    {
        crate::xor_byte(&mut self.lanes, self.at, b);
        self.at = crate::turn(&mut self.lanes, self.at + 1, self.rate);
    }

    // Pads, and fills the buffer with what comes out of the string that the sponge holds.
    pub fn squeeze(mut self, out: &mut [u8])
        ensures { Squeezes self (length out.old) out.new }
    {
        crate::finish(&mut self.lanes, self.at, self.rate);
        crate::squeeze_blocks(&mut self.lanes, self.rate, out);
    }
}
