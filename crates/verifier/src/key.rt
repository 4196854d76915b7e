// A key that is given.
ghost use Rattle.std.specs.Prelude.{◌≡◌, ◌-◌, length};
ghost use Rattle.outcome.specs.Answer.{Answers};
ghost use Rattle.outcome.specs.Result.{number_in};
ghost use Rattle.scheme.specs.Key.{key_size, key_fields, syndrome_of};

use outcome::Refusal;
use packing::VALUE;
use parameters::Category;

// The syndrome of a key of the right size, or the refusal of its fields.
pub fn syndrome(p: Category, key: &[u8], s: &mut [u8]) -> Result<(), Refusal>
    requires { (length key.now ≡ key_size p.sizes) × (length s.old ≡ p.sizes.n - p.sizes.k) }
    ensures { Answers (key_fields p.sizes key.now) (syndrome_of p.sizes key.now) s.old
        (number_in result) s.new }
{
    let d = p.sizes.digest;
    packing::unpack::<VALUE>(&key[d..], s)
}
