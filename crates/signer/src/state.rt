// The state of a round: mask values, mask exponents, and its two commitments.
ghost use Rattle.std.specs.Prelude.{◌≡◌};
ghost use Rattle.signer.specs.InnerState.{State, values_of, exponents_of, c0_of, c1_of};

use parameters::Category;

#[derive(Clone, Copy)]
pub struct RoundState<'a> {
    pub category: Category,
    pub bytes: &'a [u8],
    pub ghost state: { State category.sizes bytes.now },
}

impl<'a> RoundState<'a> {
    pub(crate) fn values(&self) -> &'a [u8]
        ensures { result.now ≡ values_of self.now.category.sizes self.now.bytes.now }
    {
        &self.bytes[..self.category.sizes.n]
    }

    pub(crate) fn exponents(&self) -> &'a [u8]
        ensures { result.now ≡ exponents_of self.now.category.sizes self.now.bytes.now }
    {
        let n = self.category.sizes.n;
        &self.bytes[n..n + n]
    }

    pub(crate) fn c0(&self) -> &'a [u8]
        ensures { result.now ≡ c0_of self.now.category.sizes self.now.bytes.now }
    {
        let at = 2 * self.category.sizes.n;
        &self.bytes[at..at + self.category.sizes.digest]
    }

    pub(crate) fn c1(&self) -> &'a [u8]
        ensures { result.now ≡ c1_of self.now.category.sizes self.now.bytes.now }
    {
        let at = 2 * self.category.sizes.n + self.category.sizes.digest;
        &self.bytes[at..at + self.category.sizes.digest]
    }
}
