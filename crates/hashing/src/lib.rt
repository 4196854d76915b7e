// Hashing tagged strings that are given in parts: the tag byte, then the parts in order. No string is put together.
#![tactic(auto)]

ghost use Rattle.std.specs.Prelude.{◌≡◌, [], ◌∷◌, length};
ghost use Rattle.shake.specs.InnerFold.{Rate, Holds};
ghost use Rattle.shake.specs.Shake.{shake, behind};

use shake::Sponge;

// A sponge that holds the tag alone.
pub fn tagged(rate: usize, tag: u8) -> Sponge
    requires { Rate rate }
    ensures { Holds result rate (tag ∷ []) }
{
    let mut sponge = Sponge::new(rate);
    sponge.absorb_byte(tag);
    sponge
}

// The digest of the tag and the parts, as long as the buffer.
pub fn hash(rate: usize, tag: u8, parts: &[&[u8]], out: &mut [u8])
    requires { Rate rate }
    ensures { out.new ≡ shake rate (behind (tag ∷ []) parts.now) (length out.old) }
{
    shake::hash(rate, tag, parts, out);
}
