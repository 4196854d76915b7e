// The numbers of each draw of the scheme, for the sizes of a category.
ghost use Rattle.std.specs.Prelude.{◌≡◌};
ghost use Rattle.expand.specs.InnerNumbers.{matrix_draw, exponents_draw, mask_draw, first_draw};

use parameters::{Category, Params};
use sampling::Draw;

// V: n - k rows of k values.
pub fn matrix(p: Category) -> Draw
    ensures { result ≡ matrix_draw p.sizes }
{
    let n = p.sizes.n;
    let k = p.sizes.k;
    Draw {
        width: 7,
        limit: 127,
        added: 0,
        count: (n - k) * k,
        bytes: p.sizes.matrix,
    }
}

// The exponents of the key, and e' of a round.
pub fn exponents(p: Params) -> Draw
    ensures { result ≡ exponents_draw p }
{
    Draw {
        width: 3,
        limit: 7,
        added: 0,
        count: p.n,
        bytes: p.exponents,
    }
}

// The mask values u' of a round.
pub fn mask_values(p: Params) -> Draw
    ensures { result ≡ mask_draw p }
{
    Draw {
        width: 7,
        limit: 127,
        added: 0,
        count: p.n,
        bytes: p.mask,
    }
}

// The first challenges, 1 to 126.
pub fn first_challenges(p: Params) -> Draw
    ensures { result ≡ first_draw p }
{
    Draw {
        width: 7,
        limit: 126,
        added: 1,
        count: p.t,
        bytes: p.first,
    }
}
