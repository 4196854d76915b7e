// An expanded public key: the matrix V and the syndrome s, in range and of the sizes of a category.
ghost use Rattle.std.specs.Prelude.{◌-◌};
ghost use Rattle.scheme.specs.Key.{matrix_count};
ghost use Rattle.packing.specs.InnerVector.{Vector};

use parameters::Category;

#[derive(Clone, Copy)]
pub struct PublicKey<'a> {
    pub category: Category,
    pub vs: &'a [u8],
    pub s: &'a [u8],
    pub ghost matrix: { Vector 127 (matrix_count category.sizes) vs.now },
    pub ghost syndrome: { Vector 127 (category.sizes.n - category.sizes.k) s.now },
}
