// The first step of every round: its masks and its two commitments; and the commitment to all rounds.
ghost use Rattle.std.specs.Prelude.{◌≡◌, ◌∷◌, ◌++◌, ◌+◌, ◌*◌, ◌<◌, ◌≤◌, T, length};
ghost use Rattle.outcome.specs.Lists.{flat};
ghost use Rattle.outcome.specs.Result.{number_in};
ghost use Rattle.shake.specs.Shake.{shake};
ghost use Rattle.packing.specs.Packing.{all_below, pack, digits};
ghost use Rattle.packing.specs.InnerVector.{Vector};
ghost use Rattle.scheme.specs.Strings.{digest, aggregate, joined};
ghost use Rattle.scheme.specs.Round.{round_draws};
ghost use Rattle.scheme.specs.Sign.{seed_draws};
ghost use Rattle.signer.specs.InnerState.{state_size, seed_at, syndrome_string, state_from, round_state, Drawn};
ghost use Rattle.signer.specs.InnerState.{digests_at, c0s, c1s};

use crate::key::SigningKey;
use crate::rounds::{Rounds, round_part};
use crate::sizes;
use outcome::Refusal;
use packing::{EXPONENT, VALUE};
use parameters::{Category, DIGEST, DRAWN_PLACES, PACKED_EXPONENTS, PACKED_VALUES, PLACES};
use scheme::tag;

// A commitment of round i: values and exponents are packed where the string needs them.
fn commit(p: Category, tag: u8, xs: &[u8], es: &[u8], salt: &[u8], i: usize, out: &mut [u8])
    requires { T (all_below 127 xs.now) × (length xs.now ≤ p.sizes.n) × Vector 7 p.sizes.n es.now }
    ensures { out.new ≡ shake p.sizes.rate (tag ∷ pack 7 xs.now ++ pack 3 es.now
        ++ salt.now ++ digits 8 2 i) (length out.old) }
{
    let number = expand::round_number(i);
    let a = packing::packed_size(xs.len(), VALUE);
    let b = packing::packed_size(es.len(), EXPONENT);
    let mut values = [0u8; PACKED_VALUES];
    let mut exponents = [0u8; PACKED_EXPONENTS];
    expand::pack::<VALUE>(xs, &mut values[..a]);
    expand::pack::<EXPONENT>(es, &mut exponents[..b]);
    hashing::hash(
        p.sizes.rate,
        tag,
        &[&values[..a], &exponents[..b], salt, &number],
        out,
    );
}

// c0(i): the syndrome of the scaled mask values, and the transformation.
#[tactic(auto, using(crate::proofs::Digests::digests))]
fn commit_syndrome(
    key: &SigningKey<'_>,
    us: &[u8],
    es: &[u8],
    salt: &[u8],
    i: usize,
    out: &mut [u8],
)
    requires { let p = key.now.category.sizes in Vector 127 p.n us.now × Vector 7 p.n es.now
        × (length out.old ≡ p.digest) }
    ensures { let p = key.now.category.sizes in
        out.new ≡ digest p (syndrome_string p key.now.vs.now key.now.es.now us.now es.now salt.now i) }
{
    let p = key.category;
    let n = p.sizes.n;
    let k = p.sizes.k;
    let rows = n - k;
    let mut sigma = [0u8; PLACES];
    let mut x = [0u8; PLACES];
    let mut s = [0u8; PLACES];
    linear::transform(key.es, es, &mut sigma[..n]);
    linear::scale(&sigma[..n], us, &mut x[..n]);
    linear::syndrome(k, key.vs, &x[..n], &mut s[..rows]);
    linear::normalize(&mut s[..rows]);
    commit(p, tag::COMMITMENT_0, &s[..rows], &sigma[..n], salt, i, out);
}

// The state of round i from its masks.
fn write_state(key: &SigningKey<'_>, us: &[u8], es: &[u8], salt: &[u8], i: usize, state: &mut [u8])
    requires { let p = key.now.category.sizes in Vector 127 p.n us.now × Vector 7 p.n es.now
        × (length state.old ≡ state_size p) }
    ensures { let p = key.now.category.sizes in
        state.new ≡ state_from p key.now.vs.now key.now.es.now us.now es.now salt.now i }
{
    let p = key.category;
    let n = p.sizes.n;
    let both = n + n;
    let last = both + p.sizes.digest;
    state[..n].copy_from_slice(us);
    state[n..both].copy_from_slice(es);
    commit_syndrome(key, us, es, salt, i, &mut state[both..last]);
    commit(p, tag::COMMITMENT_1, us, es, salt, i, &mut state[last..]);
}

// The state of round j from its seed, unless a mask is short.
#[tactic(auto, using(crate::proofs::Ranges::masks), unfolding(scheme::specs::Round::round_draws))]
fn commit_round(
    key: &SigningKey<'_>,
    seed: &[u8],
    salt: &[u8],
    j: usize,
    state: &mut [u8],
) -> Result<(), Refusal>
    requires { (j ≤ key.now.category.sizes.t) × (length state.old ≡ state_size key.now.category.sizes) }
    ensures { let p = key.now.category.sizes in
        Drawn (round_draws p seed.now salt.now (j + 1))
        (round_state p key.now.vs.now key.now.es.now (λ _. seed.now) salt.now j) (number_in result) state.new }
{
    let p = key.category;
    let n = p.sizes.n;
    let i = j + 1;
    let mut es = [0u8; DRAWN_PLACES];
    let mut us = [0u8; DRAWN_PLACES];
    expand::mask_exponents(p, seed, salt, i, &mut es)?;
    expand::mask_values(p, seed, salt, i, &mut us)?;
    write_state(key, &us[..n], &es[..n], salt, i, state);
    Ok(())
}

// The states of all rounds, unless a round is short.
#[tactic(auto, unfolding(outcome::specs::Lists::flat))]
pub fn commit_all(
    key: &SigningKey<'_>,
    seeds: &[u8],
    salt: &[u8],
    states: &mut [u8],
) -> Result<(), Refusal>
    requires { let p = key.now.category.sizes in
        (length seeds.now ≡ p.t * p.seed) × (length states.old ≡ p.t * state_size p) }
    ensures { let p = key.now.category.sizes in let seed = seed_at p seeds.now in
        Drawn (seed_draws p seed salt.now)
        (flat (round_state p key.now.vs.now key.now.es.now seed salt.now) p.t) (number_in result) states.new }
{
    let p = key.category;
    let size = sizes::state_size(p);
    // no chunks_exact_mut: after its loop a proof knows the length of the states and not what they hold
    for j in 0..p.sizes.t {
        let seed = round_part(seeds, p.sizes.seed, j);
        let at = size * j;
        let end = at + size;
        commit_round(key, seed, salt, j, &mut states[at..end])?;
    }
    Ok(())
}

// The digest of a tag and the digests at an offset of all states.
#[tactic(auto, unfolding(outcome::specs::Lists::flat))]
fn hash_digests(tag: u8, rounds: &Rounds<'_>, offset: usize, out: &mut [u8])
    requires { let p = rounds.now.category.sizes in offset + p.digest ≤ state_size p }
    ensures { let p = rounds.now.category.sizes in
        out.new ≡ shake p.rate (tag ∷ digests_at p offset rounds.now.states.now) (length out.old) }
{
    let p = rounds.category;
    let end = offset + p.sizes.digest;
    let mut sponge = hashing::tagged(p.sizes.rate, tag);
    for j in 0..p.sizes.t {
        sponge.absorb(&rounds.at(j)[offset..end]);
    }
    sponge.squeeze(out);
}

// The aggregate of all c0(i).
#[tactic(auto, using(crate::proofs::Digests::digests))]
pub fn aggregate_states(rounds: &Rounds<'_>, root: &mut [u8])
    requires { length root.old ≡ rounds.now.category.sizes.digest }
    ensures { let p = rounds.now.category.sizes in root.new ≡ aggregate p (c0s p rounds.now.states.now) }
{
    hash_digests(
        tag::ALL_COMMITMENTS_0,
        rounds,
        2 * rounds.category.sizes.n,
        root,
    );
}

// c from an aggregate of the c0(i) and all c1(i).
#[tactic(auto, using(crate::proofs::Digests::digests))]
pub fn join_states(root: &[u8], rounds: &Rounds<'_>, c: &mut [u8])
    requires { length c.old ≡ rounds.now.category.sizes.digest }
    ensures { let p = rounds.now.category.sizes in c.new ≡ joined p root.now (c1s p rounds.now.states.now) }
{
    let p = rounds.category;
    let d = p.sizes.digest;
    let mut c1 = [0u8; DIGEST];
    hash_digests(
        tag::ALL_COMMITMENTS_1,
        rounds,
        2 * p.sizes.n + d,
        &mut c1[..d],
    );
    hashing::hash(p.sizes.rate, tag::COMMITMENTS, &[root, &c1[..d]], c);
}
