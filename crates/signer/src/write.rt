// The last step: the signature's bytes. Each round writes its own part alone.
ghost use Rattle.std.specs.Prelude.{◌≡◌, ◌++◌, ◌+◌, ◌*◌, ◌<◌, length, get_or};
ghost use Rattle.outcome.specs.Lists.{flat};
ghost use Rattle.packing.specs.Packing.{pack};
ghost use Rattle.packing.specs.InnerVector.{Vector};
ghost use Rattle.linear.specs.Linear.{transformation};
ghost use Rattle.scheme.specs.Sign.{part_size};
ghost use Rattle.scheme.specs.Verify.{offset};
ghost use Rattle.signer.specs.InnerState.{seed_at, state_at, exponents_of, c0_of, c1_of, response_of, part_of, part_at};

use crate::challenged::{Challenged, ChallengedRounds};
use crate::respond;
use crate::state::RoundState;
use field::Value;
use packing::{EXPONENT, VALUE};
use parameters::PLACES;

// Under 1: the seed, and c0(i).
fn write_seed(seed: &[u8], state: &RoundState<'_>, part: &mut [u8])
    requires { let p = state.now.category.sizes in (length seed.now ≡ p.seed) × (length part.old ≡ part_size p 1) }
    ensures { part.new ≡ seed.now ++ c0_of state.now.category.sizes state.now.bytes.now }
{
    let cut = seed.len();
    buffers::copy(&mut part[..cut], seed);
    buffers::copy(&mut part[cut..], state.c0());
}

// Under 0: y, σ, and c1(i).
#[tactic(auto, using(crate::proofs::Ranges::ranges))]
fn write_opening(key: &[u8], beta: Value, state: &RoundState<'_>, part: &mut [u8])
    requires { let p = state.now.category.sizes in Vector 7 p.n key.now × (length part.old ≡ part_size p 0) }
    ensures { let p = state.now.category.sizes in
        part.new ≡ pack 7 (response_of p beta state.now.bytes.now)
        ++ pack 3 (transformation key.now (exponents_of p state.now.bytes.now)) ++ c1_of p state.now.bytes.now }
{
    let n = state.category.sizes.n;
    let cut = packing::packed_size(n, VALUE);
    let last = cut + packing::packed_size(n, EXPONENT);
    let mut sigma = [0u8; PLACES];
    linear::transform(key, state.exponents(), &mut sigma[..n]);
    respond::pack_response(beta, state, &mut part[..cut]);
    expand::pack::<EXPONENT>(&sigma[..n], &mut part[cut..last]);
    buffers::copy(&mut part[last..], state.c1());
}

// The part of round j under the second challenge b.
#[tactic(auto, using(std::proofs::lemmas::Bool::Decides::nat_tests), unfolding(crate::specs::InnerState::part_of))]
fn write_part(given: &Challenged<'_>, j: usize, b: u8, part: &mut [u8])
    requires { let p = given.now.category.sizes in (j < p.t) × (length part.old ≡ part_size p b) }
    ensures { let p = given.now.category.sizes in
        part.new ≡ part_of p given.now.es.now (get_or given.now.betas.now j 0) b
        (seed_at p given.now.seeds.now j) (state_at p given.now.states.now j) }
{
    let rounds = ChallengedRounds {
        category: given.category,
        states: given.states,
        betas: given.betas,
    };
    let state = rounds.state(j);
    if b == 1 {
        write_seed(given.seed(j), &state, part);
    } else {
        write_opening(given.es, rounds.beta(j), &state, part);
    }
}

// The parts of all rounds, one behind the other.
#[tactic(auto, using(crate::proofs::Loops::turns), unfolding(crate::specs::InnerState::part_at))]
fn write_parts(given: &Challenged<'_>, bs: &[u8], parts: &mut [u8])
    requires { let p = given.now.category.sizes in
        (length bs.now ≡ p.t) × (length parts.old ≡ offset p bs.now p.t) }
    ensures { let p = given.now.category.sizes in
        parts.new ≡ flat (part_at p given.now.states.now given.now.betas.now given.now.es.now
        given.now.seeds.now bs.now) p.t }
{
    let p = given.category;
    let mut start = 0;
    for j in 0..p.sizes.t {
        let b = bs[j];
        let stop = start + scheme::part_size(p, b);
        write_part(given, j, b, &mut parts[start..stop]);
        start = stop;
    }
}

// The signature: salt, c, h, then the parts.
pub fn write_signature(
    given: &Challenged<'_>,
    salt: &[u8],
    c: &[u8],
    h: &[u8],
    bs: &[u8],
    sig: &mut [u8],
)
    requires salt_len { let d = given.now.category.sizes.digest in
        (length salt.now ≡ d) × (length c.now ≡ d) × (length h.now ≡ d) }
    requires bs_len { let p = given.now.category.sizes in
        (length bs.now ≡ p.t) × (length sig.old ≡ 3 * p.digest + offset p bs.now p.t) }
    ensures { let p = given.now.category.sizes in
        sig.new ≡ salt.now ++ c.now ++ h.now
        ++ flat (part_at p given.now.states.now given.now.betas.now given.now.es.now given.now.seeds.now bs.now) p.t }
{
    let d = given.category.sizes.digest;
    let two = d + d;
    let three = two + d;
    buffers::copy(&mut sig[..d], salt);
    buffers::copy(&mut sig[d..two], c);
    buffers::copy(&mut sig[two..three], h);
    write_parts(given, bs, &mut sig[three..]);
}
