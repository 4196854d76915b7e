// The second step: the responses to the first challenges, and their digest h.
ghost use Rattle.std.specs.Prelude.{◌≡◌, ◌<◌, length};
ghost use Rattle.shake.specs.InnerFold.{Absorbs};
ghost use Rattle.packing.specs.Packing.{pack};
ghost use Rattle.scheme.specs.Strings.{digest, response_string};
ghost use Rattle.scheme.specs.Round.{values_size};
ghost use Rattle.signer.specs.InnerState.{response_of, h_of};

use crate::challenged::ChallengedRounds;
use crate::state::RoundState;
use field::Value;
use packing::VALUE;
use parameters::{DIGEST, PACKED_VALUES, PLACES};
use scheme::tag;
use shake::Sponge;

// y of a round, packed.
#[tactic(auto, using(crate::proofs::Ranges::ranges), unfolding(crate::specs::InnerState::response_of))]
pub fn pack_response(beta: Value, state: &RoundState<'_>, out: &mut [u8])
    requires { length out.old ≡ values_size state.now.category.sizes }
    ensures { out.new ≡ pack 7 (response_of state.now.category.sizes beta state.now.bytes.now) }
{
    let n = state.category.sizes.n;
    let mut y = [0u8; PLACES];
    linear::respond(beta, state.values(), state.exponents(), &mut y[..n]);
    linear::normalize(&mut y[..n]);
    expand::pack::<VALUE>(&y[..n], out);
}

// h(i) of a round goes in.
#[tactic(auto, using(crate::proofs::Digests::digests))]
fn absorb_response(sponge: &mut Sponge, beta: Value, state: &RoundState<'_>)
    ensures { let p = state.now.category.sizes in
        Absorbs sponge.old (digest p (response_string (response_of p beta state.now.bytes.now))) sponge.new }
{
    let p = state.category;
    let d = p.sizes.digest;
    let size = packing::packed_size(p.sizes.n, VALUE);
    let mut packed = [0u8; PACKED_VALUES];
    let mut hashed = [0u8; DIGEST];
    pack_response(beta, state, &mut packed[..size]);
    hashing::hash(
        p.sizes.rate,
        tag::RESPONSE,
        &[&packed[..size]],
        &mut hashed[..d],
    );
    sponge.absorb(&hashed[..d]);
}

// h: all h(i).
#[tactic(auto, unfolding(outcome::specs::Lists::flat))]
pub fn respond_all(given: &ChallengedRounds<'_>, h: &mut [u8])
    requires { length h.old ≡ given.now.category.sizes.digest }
    ensures { let p = given.now.category.sizes in h.new ≡ h_of p given.now.states.now given.now.betas.now }
{
    let p = given.category;
    let mut sponge = hashing::tagged(p.sizes.rate, tag::ALL_RESPONSES);
    for j in 0..p.sizes.t {
        absorb_response(&mut sponge, given.beta(j), &given.state(j));
    }
    sponge.squeeze(h);
}
