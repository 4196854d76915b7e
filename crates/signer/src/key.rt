// What signing rests on of a key: V and the key exponents.
ghost use Rattle.packing.specs.InnerVector.{Vector};
ghost use Rattle.scheme.specs.Key.{matrix_count};

use parameters::Category;

#[derive(Clone, Copy)]
pub struct SigningKey<'a> {
    pub category: Category,
    pub vs: &'a [u8],
    pub es: &'a [u8],
    pub ghost matrix: { Vector 127 (matrix_count category.sizes) vs.now },
    pub ghost exponents: { Vector 7 category.sizes.n es.now },
}
