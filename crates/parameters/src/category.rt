// A category whose sizes the code can be used at.
ghost use Rattle.parameters.specs.Sound.{Sound};

use crate::Params;

#[derive(Clone, Copy)]
pub struct Category {
    pub sizes: Params,
    pub ghost sound: { Sound sizes },
}
