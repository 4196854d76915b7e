// Lent scratch of signing: a block for V, V, the seeds and the states of the rounds.
ghost use Rattle.std.specs.Prelude.{◌≡◌, ◌+◌, ◌*◌, length};
ghost use Rattle.scheme.specs.Key.{matrix_count};
ghost use Rattle.signer.specs.InnerState.{state_size};

use parameters::Category;

#[derive(Drop)]
pub struct SignScratch<'a> {
    pub category: Category,
    pub block: &'a mut [u8],
    pub vs: &'a mut [u8],
    pub seeds: &'a mut [u8],
    pub states: &'a mut [u8],
    pub ghost block_size: { length block.now ≡ category.sizes.matrix },
    pub ghost vs_size: { length vs.now ≡ matrix_count category.sizes + 8 },
    pub ghost seeds_size: { length seeds.now ≡ category.sizes.t * category.sizes.seed },
    pub ghost states_size: { length states.now ≡ category.sizes.t * state_size category.sizes },
}
