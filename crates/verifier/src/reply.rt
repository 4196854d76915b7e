// One round recomputed from its reply: the commitment that the reply gives, then h(i).
ghost use Rattle.std.specs.Prelude.{◌≡◌, [], ◌∷◌, ◌++◌, ◌-◌, length};
ghost use Rattle.packing.specs.Packing.{pack};
ghost use Rattle.linear.specs.Linear.{scaled, less_times, response, syndrome as syndrome_of};
ghost use Rattle.scheme.specs.Strings.{digest, commitment1_string, response_string, round_number};
ghost use Rattle.scheme.specs.Round.{reply_size};
ghost use Rattle.packing.specs.InnerVector.{Vector};
ghost use Rattle.verifier.specs.InnerRecomputed.{Made, Recomputed};

use crate::public_key::PublicKey;
use field::Value;
use outcome::Refusal;
use packing::{EXPONENT, VALUE};
use parameters::{Category, DIGEST, DRAWN_PLACES, PACKED_EXPONENTS, PACKED_VALUES, PLACES};
use scheme::tag;

// A round: its number from 1, its first and its second challenge.
#[derive(Clone, Copy)]
pub struct Round {
    pub i: usize,
    pub beta: Value,
    pub b: u8,
}

// What a reply gives: its commitment and h(i), each in the first places.
#[derive(Clone, Copy)]
pub struct Digests {
    pub commitment: [u8; DIGEST],
    pub hash: [u8; DIGEST],
}

// c1(i): mask values and mask exponents, packed.
fn commit_mask(p: Category, us: &[u8], es: &[u8], salt: &[u8], i: usize, out: &mut [u8])
    requires { Vector 127 p.sizes.n us.now × Vector 7 p.sizes.n es.now × (length out.old ≡ p.sizes.digest) }
    ensures { out.new ≡ digest p.sizes (commitment1_string us.now es.now salt.now i) }
{
    let u = packing::packed_size(p.sizes.n, VALUE);
    let e = packing::packed_size(p.sizes.n, EXPONENT);
    let mut values = [0u8; PACKED_VALUES];
    expand::pack::<VALUE>(us, &mut values[..u]);
    let mut exponents = [0u8; PACKED_EXPONENTS];
    expand::pack::<EXPONENT>(es, &mut exponents[..e]);
    let number = expand::round_number(i);
    hashing::hash(
        p.sizes.rate,
        tag::COMMITMENT_1,
        &[&values[..u], &exponents[..e], salt, &number],
        out,
    );
}

// h(i) of a response.
fn commit_response(p: Category, ys: &[u8], out: &mut [u8])
    requires { Vector 127 p.sizes.n ys.now × (length out.old ≡ p.sizes.digest) }
    ensures { out.new ≡ digest p.sizes (response_string ys.now) }
{
    let y = packing::packed_size(p.sizes.n, VALUE);
    let mut values = [0u8; PACKED_VALUES];
    expand::pack::<VALUE>(ys, &mut values[..y]);
    hashing::hash(p.sizes.rate, tag::RESPONSE, &[&values[..y]], out);
}

// Both digests from the mask values u' and the mask exponents e'.
fn from_mask(p: Category, us: &[u8], es: &[u8], salt: &[u8], round: Round) -> Digests
    requires { Vector 127 p.sizes.n us.now × Vector 7 p.sizes.n es.now }
    ensures { Made p.sizes (commitment1_string us.now es.now salt.now round.i)
        (response_string (response round.beta us.now es.now)) result }
{
    let n = p.sizes.n;
    let d = p.sizes.digest;
    let mut commitment = [0u8; DIGEST];
    commit_mask(p, us, es, salt, round.i, &mut commitment[..d]);
    let mut ys = [0u8; PLACES];
    linear::respond(round.beta, us, es, &mut ys[..n]);
    linear::normalize(&mut ys[..n]);
    let mut hash = [0u8; DIGEST];
    commit_response(p, &ys[..n], &mut hash[..d]);
    Digests { commitment, hash }
}

// Under the second challenge 1: the reply is the round's seed.
fn from_seed(p: Category, salt: &[u8], round: Round, seed: &[u8]) -> Result<Digests, Refusal>
    ensures { Recomputed p.sizes [] [] 1 round.beta seed.now salt.now round.i result }
{
    let n = p.sizes.n;
    let mut es = [0u8; DRAWN_PLACES];
    expand::mask_exponents(p, seed, salt, round.i, &mut es)?;
    let mut us = [0u8; DRAWN_PLACES];
    expand::mask_values(p, seed, salt, round.i, &mut us)?;
    Ok(from_mask(p, &us[..n], &es[..n], salt, round))
}

// s̃ = (2^σ times y) H transposed − β s.
fn reply_syndrome(key: PublicKey<'_>, beta: Value, es: &[u8], ys: &[u8], out: &mut [u8])
    requires { Vector 7 key.category.sizes.n es.now × Vector 127 key.category.sizes.n ys.now
        × (length out.old ≡ key.category.sizes.n - key.category.sizes.k) }
    ensures { out.new ≡
        less_times beta (syndrome_of key.entry.category.sizes.k key.entry.vs.now (scaled es.now ys.now))
        key.entry.s.now }
{
    let n = key.category.sizes.n;
    let k = key.category.sizes.k;
    let m = n - k;
    let mut scaled = [0u8; PLACES];
    linear::scale(es, ys, &mut scaled[..n]);
    let mut product = [0u8; PLACES];
    linear::syndrome(k, key.vs, &scaled[..n], &mut product[..m]);
    linear::subtract(beta, &product[..m], key.s, out);
    linear::normalize(out);
}

// c0(i): s̃, and σ as it came packed.
fn commit_syndrome(p: Category, xs: &[u8], exponents: &[u8], salt: &[u8], i: usize, out: &mut [u8])
    requires { Vector 127 (p.sizes.n - p.sizes.k) xs.now × (length out.old ≡ p.sizes.digest) }
    ensures { out.new ≡
        digest p.sizes (0 ∷ pack 7 xs.now ++ exponents.now ++ salt.now ++ round_number i) }
{
    let x = packing::packed_size(p.sizes.n - p.sizes.k, VALUE);
    let mut values = [0u8; PACKED_VALUES];
    expand::pack::<VALUE>(xs, &mut values[..x]);
    let number = expand::round_number(i);
    hashing::hash(
        p.sizes.rate,
        tag::COMMITMENT_0,
        &[&values[..x], exponents, salt, &number],
        out,
    );
}

// Both digests from y and σ, whose packed forms are the reply's own bytes.
fn from_fields(
    p: Category,
    xs: &[u8],
    values: &[u8],
    exponents: &[u8],
    salt: &[u8],
    i: usize,
) -> Digests
    requires { Vector 127 (p.sizes.n - p.sizes.k) xs.now }
    ensures { Made p.sizes (0 ∷ pack 7 xs.now ++ exponents.now ++ salt.now ++ round_number i) (2 ∷ values.now) result }
{
    let d = p.sizes.digest;
    let mut commitment = [0u8; DIGEST];
    commit_syndrome(p, xs, exponents, salt, i, &mut commitment[..d]);
    let mut hash = [0u8; DIGEST];
    hashing::hash(p.sizes.rate, tag::RESPONSE, &[values], &mut hash[..d]);
    Digests { commitment, hash }
}

// Under the second challenge 0: the reply is y and σ, packed.
fn from_values(
    key: PublicKey<'_>,
    salt: &[u8],
    round: Round,
    reply: &[u8],
) -> Result<Digests, Refusal>
    requires { length reply.now ≡ reply_size key.category.sizes 0 }
    ensures { Recomputed key.entry.category.sizes key.entry.vs.now key.entry.s.now 0 round.beta reply.now salt.now
        round.i result }
{
    let p = key.category;
    let n = p.sizes.n;
    let m = n - p.sizes.k;
    let (values, exponents) = reply.split_at(packing::packed_size(n, VALUE));
    let mut ys = [0u8; PLACES];
    packing::unpack::<VALUE>(values, &mut ys[..n])?;
    let mut es = [0u8; PLACES];
    packing::unpack::<EXPONENT>(exponents, &mut es[..n])?;
    let mut xs = [0u8; PLACES];
    reply_syndrome(key, round.beta, &es[..n], &ys[..n], &mut xs[..m]);
    Ok(from_fields(p, &xs[..m], values, exponents, salt, round.i))
}

// Both digests that a reply gives, or its refusal.
pub fn recompute(
    key: PublicKey<'_>,
    salt: &[u8],
    round: Round,
    reply: &[u8],
) -> Result<Digests, Refusal>
    requires { length reply.now ≡ reply_size key.category.sizes round.b }
    ensures { Recomputed key.entry.category.sizes key.entry.vs.now key.entry.s.now round.b round.beta reply.now
        salt.now round.i result }
{
    if round.b == 1 {
        from_seed(key.category, salt, round, reply)
    } else {
        from_values(key, salt, round, reply)
    }
}
