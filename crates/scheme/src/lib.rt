// The scheme on paper: its definitions stand in specs/, the theorems about them in proofs/. The code here gives the
// sizes that the definitions derive from those of a category, and the tags of the hashed strings.
#![tactic(auto)]

pub mod tag;

ghost use Rattle.std.specs.Prelude.{◌≡◌};
ghost use Rattle.scheme.specs.Key.{key_size};
ghost use Rattle.scheme.specs.Round.{reply_size};
ghost use Rattle.scheme.specs.Sign.{part_size, signature_size};

use packing::{EXPONENT, VALUE};
use parameters::Category;

// The longest message.
pub const MESSAGE_MAX: usize = 65536;

// Bytes of a public key.
pub fn key_size(p: Category) -> usize
    ensures { result ≡ key_size p.sizes }
{
    p.sizes.digest + packing::packed_size(p.sizes.n - p.sizes.k, VALUE)
}

// Bytes of the reply to a second challenge.
pub fn reply_size(p: Category, b: u8) -> usize
    ensures { result ≡ reply_size p.sizes b }
{
    if b == 1 {
        p.sizes.seed
    } else {
        packing::packed_size(p.sizes.n, VALUE) + packing::packed_size(p.sizes.n, EXPONENT)
    }
}

// Bytes of a round's part of the signature under its second challenge.
pub fn part_size(p: Category, b: u8) -> usize
    ensures { result ≡ part_size p.sizes b }
{
    reply_size(p, b) + p.sizes.digest
}

// Bytes of a signature.
pub fn signature_size(p: Category) -> usize
    ensures { result ≡ signature_size p.sizes }
{
    let ones = p.sizes.w;
    let zeros = p.sizes.t - ones;
    3 * p.sizes.digest + ones * part_size(p, 1) + zeros * part_size(p, 0)
}
