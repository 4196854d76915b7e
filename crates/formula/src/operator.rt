// The operators of a formula, and the bytes that they are.
ghost use Rattle.std.specs.Prelude.{◌≡◌, drop};
ghost use Rattle.formula.specs.Grammar.{is_additive, additive, is_multiplicative, multiplicative};
ghost use Rattle.formula.specs.InnerReader.{operator_in};

#[derive(Clone, Copy)]
pub enum Additive {
    Plus,
    Minus,
}

#[derive(Clone, Copy)]
pub enum Multiplicative {
    Times,
    Over,
}

// The operator of a sum that stands at place `at`, if one does.
pub fn additive_at(text: &[u8], at: usize) -> Option<Additive>
    ensures { result ≡ operator_in is_additive additive (drop at text.now) }
{
    match *text.get(at)? {
        b'+' => Some(Additive::Plus),
        b'-' => Some(Additive::Minus),
        _ => None,
    }
}

// The operator of a product that stands at place `at`, if one does.
pub fn multiplicative_at(text: &[u8], at: usize) -> Option<Multiplicative>
    ensures { result ≡ operator_in is_multiplicative multiplicative (drop at text.now) }
{
    match *text.get(at)? {
        b'*' => Some(Multiplicative::Times),
        b'/' => Some(Multiplicative::Over),
        _ => None,
    }
}
