// The rounds of a signature, upward: each is recomputed from its reply, and its three digests go into sponges.
ghost use Rattle.std.specs.Prelude.{◌≡◌, [], length};
ghost use Rattle.outcome.specs.Result.{number_in};
ghost use Rattle.shake.specs.InnerFold.{Absorbs};
ghost use Rattle.scheme.specs.Sign.{part_size};
ghost use Rattle.scheme.specs.Verify.{offset};
ghost use Rattle.packing.specs.InnerVector.{Vector};
ghost use Rattle.verifier.specs.InnerRounds.{Stepped, HoldAll, Compared, Ran};

use crate::public_key::PublicKey;
use crate::reply::Round;
use crate::{compare, reply};
use field::Value;
use outcome::Refusal;
use parameters::{Category, DIGEST};
use scheme::tag;
use shake::Sponge;

// What goes in: all c0(i), all c1(i), all h(i).
#[derive(Drop)]
pub struct Sponges {
    pub c0: Sponge,
    pub c1: Sponge,
    pub h: Sponge,
}

// The two commitments of a round, in the order c0(i), c1(i), and h(i).
fn absorb_round(sponges: &mut Sponges, c0: &[u8], c1: &[u8], h: &[u8])
    ensures { Absorbs sponges.old.c0 c0.now sponges.new.c0
        × Absorbs sponges.old.c1 c1.now sponges.new.c1 × Absorbs sponges.old.h h.now sponges.new.h }
{
    sponges.c0.absorb(c0);
    sponges.c1.absorb(c1);
    sponges.h.absorb(h);
}

// One round, from its part of the signature.
fn step(
    key: PublicKey<'_>,
    salt: &[u8],
    round: Round,
    part: &[u8],
    sponges: &mut Sponges,
) -> Result<(), Refusal>
    requires { length part.now ≡ part_size key.category.sizes round.b }
    ensures { Stepped key.entry.category.sizes key.entry.vs.now key.entry.s.now salt.now round.i round.beta
        round.b part.now sponges.old (number_in result) sponges.new }
{
    let d = key.category.sizes.digest;
    let b = round.b;
    let (reply, brought) = part.split_at(scheme::reply_size(key.category, b));
    let made = reply::recompute(key, salt, round, reply)?;
    let given = &made.commitment[..d];
    let h = &made.hash[..d];
    if b == 1 {
        absorb_round(sponges, brought, given, h);
    } else {
        absorb_round(sponges, given, brought, h);
    }
    Ok(())
}

// The three sponges with their tags.
fn begin(p: Category) -> Sponges
    ensures { HoldAll result p.sizes.rate [] [] [] }
{
    Sponges {
        c0: hashing::tagged(p.sizes.rate, tag::ALL_COMMITMENTS_0),
        c1: hashing::tagged(p.sizes.rate, tag::ALL_COMMITMENTS_1),
        h: hashing::tagged(p.sizes.rate, tag::ALL_RESPONSES),
    }
}

// All rounds, up to the lowest that refuses.
pub fn run(
    key: PublicKey<'_>,
    salt: &[u8],
    betas: &[u8],
    bs: &[u8],
    rounds: &[u8],
) -> Result<Sponges, Refusal>
    requires { Vector 127 key.category.sizes.t betas.now × (length bs.now ≡ key.category.sizes.t)
        × (offset key.category.sizes bs.now key.category.sizes.t ≡ length rounds.now) }
    ensures { Ran key.entry.category.sizes key.entry.vs.now key.entry.s.now salt.now rounds.now
        betas.now bs.now result }
{
    let mut sponges = begin(key.category);
    let mut at = 0;
    for j in 0..key.category.sizes.t {
        let round = Round {
            i: j + 1,
            beta: Value(betas[j]),
            b: bs[j],
        };
        let end = at + scheme::part_size(key.category, round.b);
        step(key, salt, round, &rounds[at..end], &mut sponges)?;
        at = end;
    }
    Ok(sponges)
}

// c and h against what the sponges give.
pub fn compare(p: Category, sponges: Sponges, c: &[u8], h: &[u8]) -> Result<(), Refusal>
    ensures { Compared p.sizes sponges c.now h.now (number_in result) }
{
    let d = p.sizes.digest;
    let mut c0 = [0u8; DIGEST];
    sponges.c0.squeeze(&mut c0[..d]);
    let mut c1 = [0u8; DIGEST];
    sponges.c1.squeeze(&mut c1[..d]);
    let mut commitment = [0u8; DIGEST];
    hashing::hash(
        p.sizes.rate,
        tag::COMMITMENTS,
        &[&c0[..d], &c1[..d]],
        &mut commitment[..d],
    );
    let mut hash = [0u8; DIGEST];
    sponges.h.squeeze(&mut hash[..d]);
    compare::agree(c, &commitment[..d], h, &hash[..d])
}
