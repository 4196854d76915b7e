// The round examiner: one round, given its challenges and its commitments.
ghost use Rattle.std.specs.Prelude.{◌≡◌, ◌≤◌, length, IfOk};
ghost use Rattle.outcome.specs.Answer.{first_refusal};
ghost use Rattle.outcome.specs.Result.{number_in};
ghost use Rattle.scheme.specs.Key.{key_size};
ghost use Rattle.scheme.specs.Round.{reply_size};
ghost use Rattle.scheme.specs.VerifyRound.{reply_sized, verify_round_sizes, verify_round_numbers, verify_round_reply};
ghost use Rattle.scheme.specs.Entries.{VerifiesRound};

use crate::public_key::PublicKey;
use crate::reply::Round;
use crate::{compare, key, reply};
use expand::scratch::Scratch;
use field::Value;
use outcome::Refusal;
use parameters::{Category, PLACES};

// Whether the reply has its size, which only the challenges 0 and 1 give.
fn reply_sized(p: Category, challenge: u32, reply: &[u8]) -> bool
    ensures { result ≡ reply_sized p.sizes challenge reply.now }
{
    challenge > 1 || reply.len() == scheme::reply_size(p, challenge as u8)
}

fn sizes(
    p: Category,
    key: &[u8],
    salt: &[u8],
    c0: &[u8],
    c1: &[u8],
    h: &[u8],
    challenge: u32,
    reply: &[u8],
) -> Result<(), Refusal>
    ensures answer { number_in result ≡ first_refusal (verify_round_sizes p.sizes key.now salt.now c0.now
        c1.now h.now challenge reply.now) }
    ensures sized { IfOk result (λ _. (length key.now ≡ key_size p.sizes)
        × (challenge ≤ 1 → length reply.now ≡ reply_size p.sizes challenge)) }
{
    let d = p.sizes.digest;
    if key.len() != scheme::key_size(p)
        || salt.len() != d
        || c0.len() != d
        || c1.len() != d
        || h.len() != d
        || !reply_sized(p, challenge, reply)
    {
        return Err(Refusal::BadSize);
    }
    Ok(())
}

// A round: i from 1 to t, β from 1 to 126, the challenge 0 or 1.
fn numbers(p: Category, i: u32, beta: u32, challenge: u32) -> Result<Round, Refusal>
    ensures answer { number_in result ≡ first_refusal (verify_round_numbers p.sizes i beta challenge) }
    ensures round { IfOk result (λ round. (round.i ≡ i) × (round.beta ≡ beta) × (round.b ≡ challenge)
        × (round.b ≤ 1)) }
{
    if i < 1 || i as usize > p.sizes.t || beta < 1 || beta > 126 || challenge > 1 {
        return Err(Refusal::BadField);
    }
    Ok(Round {
        i: i as usize,
        beta: Value(beta as u8),
        b: challenge as u8,
    })
}

// The reply, then the matching commitment and h(i).
fn round(
    key: PublicKey<'_>,
    salt: &[u8],
    round: Round,
    reply: &[u8],
    matching: &[u8],
    h: &[u8],
) -> Result<(), Refusal>
    requires { length reply.now ≡ reply_size key.category.sizes round.b }
    ensures { number_in result ≡ first_refusal (verify_round_reply key.entry.category.sizes key.entry.vs.now
        key.entry.s.now salt.now round.i round.beta round.b reply.now matching.now h.now) }
{
    let d = key.category.sizes.digest;
    let made = reply::recompute(key, salt, round, reply)?;
    compare::agree(matching, &made.commitment[..d], h, &made.hash[..d])
}

pub fn verify_round(
    key: &[u8],
    salt: &[u8],
    i: u32,
    c0: &[u8],
    c1: &[u8],
    beta: u32,
    h: &[u8],
    challenge: u32,
    reply: &[u8],
    scratch: &mut Scratch<'_>,
) -> Result<(), Refusal>
    ensures answer { VerifiesRound scratch.old.category.sizes key.now salt.now i c0.now c1.now beta
        h.now challenge reply.now (number_in result) }
    ensures category { scratch.new.category ≡ scratch.old.category }
{
    let p = scratch.category;
    sizes(p, key, salt, c0, c1, h, challenge, reply)?;
    let m = p.sizes.n - p.sizes.k;
    let mut s = [0u8; PLACES];
    key::syndrome(p, key, &mut s[..m])?;
    let given = numbers(p, i, beta, challenge)?;
    expand::matrix(
        p,
        &key[..p.sizes.digest],
        &mut *scratch.block,
        &mut *scratch.vs,
    )?;
    let count = m * p.sizes.k;
    let public = PublicKey {
        category: p,
        vs: &scratch.vs[..count],
        s: &s[..m],
    };
    let matching = if challenge == 1 { c1 } else { c0 };
    round(public, salt, given, reply, matching, h)
}
