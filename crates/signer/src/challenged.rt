// What replying rests on: the states of the rounds with their first challenges, and, for the signature, the key exponents
// and the seeds.
ghost use Rattle.std.specs.Prelude.{◌≡◌, ◌*◌, ◌<◌, length, get_or};
ghost use Rattle.packing.specs.InnerVector.{Vector};
ghost use Rattle.signer.specs.InnerState.{States, seed_at, state_at};

use crate::rounds::{Rounds, round_part};
use crate::state::RoundState;
use field::Value;
use parameters::Category;

// The states of all rounds, and the first challenge of each.
#[derive(Clone, Copy)]
pub struct ChallengedRounds<'a> {
    pub category: Category,
    pub states: &'a [u8],
    pub betas: &'a [u8],
    pub ghost states_sound: { States category.sizes states.now },
    pub ghost challenges: { Vector 127 category.sizes.t betas.now },
}

// The same, with the key exponents and the seeds.
#[derive(Clone, Copy)]
pub struct Challenged<'a> {
    pub category: Category,
    pub es: &'a [u8],
    pub seeds: &'a [u8],
    pub states: &'a [u8],
    pub betas: &'a [u8],
    pub ghost exponents: { Vector 7 category.sizes.n es.now },
    pub ghost seeds_size: { length seeds.now ≡ category.sizes.t * category.sizes.seed },
    pub ghost rounds: { States category.sizes states.now },
    pub ghost challenges: { Vector 127 category.sizes.t betas.now },
}

impl<'a> ChallengedRounds<'a> {
    // The state of round j.
    pub(crate) fn state(&self, j: usize) -> RoundState<'a>
        requires { j < self.now.category.sizes.t }
        ensures bytes { result.bytes.now ≡ state_at self.now.category.sizes self.now.states.now j }
        ensures category { result.category ≡ self.now.category }
    {
        let category = self.category;
        let rounds = Rounds {
            category,
            states: self.states,
        };
        RoundState {
            category,
            bytes: rounds.at(j),
        }
    }

    // The first challenge of round j.
    #[tactic(auto, using(linear::proofs::Kept::place_below))]
    pub(crate) fn beta(&self, j: usize) -> Value
        requires { j < self.now.category.sizes.t }
        ensures { result ≡ get_or self.now.betas.now j 0 }
    {
        Value(self.betas[j])
    }
}

impl<'a> Challenged<'a> {
    // The seed of round j.
    pub(crate) fn seed(&self, j: usize) -> &'a [u8]
        requires { j < self.now.category.sizes.t }
        ensures { result.now ≡ seed_at self.now.category.sizes self.now.seeds.now j }
    {
        round_part(self.seeds, self.category.sizes.seed, j)
    }
}
