// What is given against what was made: a commitment, and a hash beside it.
ghost use Rattle.std.specs.Prelude.{◌≡◌, [], ◌∷◌};
ghost use Rattle.outcome.specs.Answer.{◌unless◌, mismatch, first_refusal};
ghost use Rattle.outcome.specs.Lists.{same};
ghost use Rattle.outcome.specs.Result.{number_in};

use outcome::Refusal;

pub fn agree(commitment: &[u8], made: &[u8], hash: &[u8], hashed: &[u8]) -> Result<(), Refusal>
    ensures { number_in result ≡ first_refusal
        (mismatch unless same commitment.now made.now ∷ mismatch unless same hash.now hashed.now ∷ []) }
{
    if commitment != made || hash != hashed {
        return Err(Refusal::Mismatch);
    }
    Ok(())
}
