// Sizes: that of a round's state, and those that signing tests first.
ghost use Rattle.std.specs.Prelude.{◌≡◌};
ghost use Rattle.outcome.specs.Answer.{first_refusal};
ghost use Rattle.outcome.specs.Result.{number_in};
ghost use Rattle.scheme.specs.Sign.{sign_sizes};
ghost use Rattle.signer.specs.InnerState.{state_size};

use outcome::Refusal;
use parameters::Category;

// Bytes of the state of a round: two vectors and two digests.
pub fn state_size(p: Category) -> usize
    ensures { result ≡ state_size p.sizes }
{
    2 * p.sizes.n + 2 * p.sizes.digest
}

// The sizes of what is given and lent.
#[tactic(auto, using(std::proofs::lemmas::Bool::Decides::nat_tests), unfolding(scheme::specs::Sign::sign_sizes))]
pub fn check_sizes(
    p: Category,
    private: &[u8],
    master: &[u8],
    salt: &[u8],
    msg: &[u8],
    lent: usize,
) -> Result<(), Refusal>
    ensures { number_in result ≡ first_refusal (sign_sizes p.sizes private.now master.now salt.now
        msg.now lent) }
{
    let d = p.sizes.digest;
    if private.len() != d {
        return Err(Refusal::BadSize);
    }
    if master.len() != p.sizes.seed {
        return Err(Refusal::BadSize);
    }
    if salt.len() != d {
        return Err(Refusal::BadSize);
    }
    if scheme::MESSAGE_MAX < msg.len() {
        return Err(Refusal::BadSize);
    }
    if lent != scheme::signature_size(p) {
        return Err(Refusal::BadSize);
    }
    Ok(())
}
