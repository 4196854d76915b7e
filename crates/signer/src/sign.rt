// Signing: sizes, the key's draws, then the rounds step by step.
ghost use Rattle.std.specs.Prelude.{◌≡◌, ◌*◌, length};
ghost use Rattle.outcome.specs.Result.{number_in};
ghost use Rattle.scheme.specs.Sign.{signature_size, round_seed};
ghost use Rattle.scheme.specs.Entries.{Signs};
ghost use Rattle.signer.specs.InnerState.{state_size, Replied, SignedWith};

use crate::challenged::{Challenged, ChallengedRounds};
use crate::key::SigningKey;
use crate::rounds::Rounds;
use crate::scratch::SignScratch;
use crate::{commit, respond, sizes, write};
use outcome::Refusal;
use parameters::{DIGEST, DRAWN_PLACES, DRAWN_ROUNDS, ROUNDS, TWO_DIGESTS};
use scheme::tag;

// From c and the first challenges on: h, the second challenges, and the signature.
fn reply(
    given: &Challenged<'_>,
    c: &[u8],
    salt: &[u8],
    msg: &[u8],
    sig: &mut [u8],
) -> Result<(), Refusal>
    requires { let p = given.now.category.sizes in
        (length c.now ≡ p.digest) × (length salt.now ≡ p.digest) × (length sig.old ≡ signature_size p) }
    ensures { let p = given.now.category.sizes in
        Replied p given.now.states.now given.now.betas.now given.now.es.now given.now.seeds.now
        salt.now msg.now c.now sig.old (number_in result) sig.new }
{
    let p = given.category;
    let t = p.sizes.t;
    let d = p.sizes.digest;
    let mut h = [0u8; DIGEST];
    let mut bs = [0u8; ROUNDS];
    let rounds = ChallengedRounds {
        category: p,
        states: given.states,
        betas: given.betas,
    };
    respond::respond_all(&rounds, &mut h[..d]);
    expand::second_challenges(p, c, given.betas, &h[..d], salt, msg, &mut bs[..t])?;
    write::write_signature(given, salt, c, &h[..d], &bs[..t], sig);
    Ok(())
}

// The signature under V and the key exponents. Master seed and salt are hashed as parts of one array, and so have one lifetime.
fn sign_with<'a>(
    key: &SigningKey<'_>,
    master: &'a [u8],
    salt: &'a [u8],
    msg: &[u8],
    seeds: &mut [u8],
    states: &mut [u8],
    sig: &mut [u8],
) -> Result<(), Refusal>
    requires salt_len { length salt.now ≡ key.now.category.sizes.digest }
    requires seeds_len { let p = key.now.category.sizes in
        (length seeds.old ≡ p.t * p.seed) × (length states.old ≡ p.t * state_size p)
        × (length sig.old ≡ signature_size p) }
    ensures { let p = key.now.category.sizes in
        SignedWith p key.now.vs.now key.now.es.now (round_seed p master.now salt.now) salt.now msg.now
        sig.old (number_in result) sig.new }
{
    let p = key.category;
    let t = p.sizes.t;
    let d = p.sizes.digest;
    let mut root = [0u8; DIGEST];
    let mut c = [0u8; DIGEST];
    let mut betas = [0u8; DRAWN_ROUNDS];
    hashing::hash(p.sizes.rate, tag::ROUND_SEEDS, &[master, salt], seeds);
    commit::commit_all(key, seeds, salt, states)?;
    let rounds = Rounds {
        category: p,
        states,
    };
    commit::aggregate_states(&rounds, &mut root[..d]);
    commit::join_states(&root[..d], &rounds, &mut c[..d]);
    expand::first_challenges(p, &c[..d], salt, msg, &mut betas)?;
    let given = Challenged {
        category: p,
        es: key.es,
        seeds,
        states,
        betas: &betas[..t],
    };
    reply(&given, &c[..d], salt, msg, sig)
}

// The signature of a message. Lent besides: a block for V, V, the seeds and the states of the rounds.
#[tactic(auto, using(crate::proofs::Ranges::keys), unfolding(scheme::specs::Sign::sign_checks, scheme::specs::Sign::sign_sizes))]
pub fn sign(
    private: &[u8],
    master: &[u8],
    salt: &[u8],
    msg: &[u8],
    scratch: &mut SignScratch<'_>,
    sig: &mut [u8],
) -> Result<(), Refusal>
    ensures signature { Signs scratch.old.category.sizes private.now master.now salt.now msg.now
        sig.old (number_in result) sig.new }
    ensures category { scratch.new.category ≡ scratch.old.category }
{
    let p = scratch.category;
    let n = p.sizes.n;
    sizes::check_sizes(p, private, master, salt, msg, sig.len())?;
    let both = 2 * p.sizes.digest;
    let count = (n - p.sizes.k) * p.sizes.k;
    let mut both_seeds = [0u8; TWO_DIGESTS];
    let mut es = [0u8; DRAWN_PLACES];
    keygen::material(
        p,
        private,
        &mut both_seeds[..both],
        &mut *scratch.block,
        &mut *scratch.vs,
        &mut es,
    )?;
    let key = SigningKey {
        category: p,
        vs: &scratch.vs[..count],
        es: &es[..n],
    };
    sign_with(
        &key,
        master,
        salt,
        msg,
        &mut *scratch.seeds,
        &mut *scratch.states,
        sig,
    )
}
