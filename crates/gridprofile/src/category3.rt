// The entries at category 3. Another category is this file with its own number in the next two lines.
ghost use Rattle.parameters.specs.Categories.{category3 as p};
ghost use Rattle.std.specs.Prelude.{◌≡◌};

use crate::entries::Entries;
use parameters::{CATEGORY3 as P, Category};

pub const BLOCK: usize = P.matrix;

pub const MATRIX: usize = (P.n - P.k) * P.k + 8;

pub const SEEDS: usize = P.t * P.seed;

pub const STATES: usize = P.t * (2 * P.n + 2 * P.digest);

pub const KEY: usize = P.digest + (7 * (P.n - P.k) + 7) / 8;

pub fn entries() -> Entries<BLOCK, MATRIX, SEEDS, STATES, KEY>
    ensures { result.category.sizes ≡ p }
{
    Entries {
        category: Category { sizes: P },
    }
}
