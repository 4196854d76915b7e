// The states of all rounds, one behind the other.
ghost use Rattle.std.specs.Prelude.{◌≡◌, ◌+◌, ◌*◌, ◌<◌, ◌≤◌, length, take, drop};
ghost use Rattle.signer.specs.InnerState.{state_size, state_at};

use crate::sizes;
use parameters::Category;

#[derive(Clone, Copy)]
pub struct Rounds<'a> {
    pub category: Category,
    pub states: &'a [u8],
    pub ghost size: { length states.now ≡ category.sizes.t * state_size category.sizes },
}

// The part of round j among parts of one size. No chunks_exact: it asks for a size above 0, which a category does not promise.
pub(crate) fn round_part(all: &[u8], size: usize, j: usize) -> &[u8]
    requires { size * j + size ≤ length all.now }
    ensures { result.now ≡ take size (drop (size * j) all.now) }
{
    let at = size * j;
    &all[at..at + size]
}

impl<'a> Rounds<'a> {
    // The state of round j.
    pub(crate) fn at(&self, j: usize) -> &'a [u8]
        requires { j < self.now.category.sizes.t }
        ensures { result.now ≡ state_at self.now.category.sizes self.now.states.now j }
    {
        round_part(self.states, sizes::state_size(self.category), j)
    }
}
