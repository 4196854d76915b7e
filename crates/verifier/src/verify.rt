// Verifying a signature, as Figure 5 of CROSS 1.1 recomputes it.
ghost use Rattle.std.specs.Prelude.{◌≡◌, length, IfOk};
ghost use Rattle.outcome.specs.Answer.{first_refusal};
ghost use Rattle.outcome.specs.Result.{number_in};
ghost use Rattle.scheme.specs.Key.{key_size};
ghost use Rattle.scheme.specs.Sign.{signature_size};
ghost use Rattle.scheme.specs.Verify.{verify_sizes, piece_checks, salt_of, c_of, h_of, rounds_of};
ghost use Rattle.scheme.specs.Entries.{Verifies};

use crate::public_key::PublicKey;
use crate::{key, rounds};
use expand::scratch::Scratch;
use outcome::Refusal;
use parameters::{Category, DRAWN_ROUNDS, PLACES, ROUNDS};

fn sizes(p: Category, key: usize, msg: usize, sig: usize) -> Result<(), Refusal>
    ensures answer { number_in result ≡ first_refusal (verify_sizes p.sizes key msg sig) }
    ensures sized { IfOk result (λ _. (key ≡ key_size p.sizes) × (sig ≡ signature_size p.sizes)) }
{
    if key != scheme::key_size(p) || msg > scheme::MESSAGE_MAX || sig != scheme::signature_size(p) {
        return Err(Refusal::BadSize);
    }
    Ok(())
}

// Under V and s: both draws of challenges, the rounds, then c and h.
fn pieces(key: PublicKey<'_>, msg: &[u8], sig: &[u8]) -> Result<(), Refusal>
    requires { length sig.now ≡ signature_size key.category.sizes }
    ensures { let p = key.entry.category.sizes in number_in result ≡ first_refusal (piece_checks p key.entry.vs.now
        key.entry.s.now (salt_of p sig.now) (c_of p sig.now) (h_of p sig.now) (rounds_of p sig.now) msg.now) }
{
    let p = key.category;
    let t = p.sizes.t;
    let d = p.sizes.digest;
    let salt = &sig[..d];
    let c = &sig[d..2 * d];
    let h = &sig[2 * d..3 * d];
    let mut betas = [0u8; DRAWN_ROUNDS];
    expand::first_challenges(p, c, salt, msg, &mut betas)?;
    let mut bs = [0u8; ROUNDS];
    expand::second_challenges(p, c, &betas[..t], h, salt, msg, &mut bs[..t])?;
    let sponges = rounds::run(key, salt, &betas[..t], &bs[..t], &sig[3 * d..])?;
    rounds::compare(p, sponges, c, h)
}

pub fn verify(key: &[u8], msg: &[u8], sig: &[u8], scratch: &mut Scratch<'_>) -> Result<(), Refusal>
    ensures answer { Verifies scratch.old.category.sizes key.now msg.now sig.now (number_in result) }
    ensures category { scratch.new.category ≡ scratch.old.category }
{
    let p = scratch.category;
    sizes(p, key.len(), msg.len(), sig.len())?;
    let m = p.sizes.n - p.sizes.k;
    let mut s = [0u8; PLACES];
    key::syndrome(p, key, &mut s[..m])?;
    expand::matrix(
        p,
        &key[..p.sizes.digest],
        &mut *scratch.block,
        &mut *scratch.vs,
    )?;
    let count = m * p.sizes.k;
    let public = PublicKey {
        category: p,
        vs: &scratch.vs[..count],
        s: &s[..m],
    };
    pieces(public, msg, sig)
}
