// The steps of a formula, in signed numbers. Where a step cannot be taken there is no amount, and reading goes on without.
ghost use Rattle.std.specs.Prelude.{◌≡◌};
ghost use Rattle.formula.specs.Grammar.{step, sum_step, product_step, summed, scaled};
ghost use Rattle.formula.specs.InnerReader.{worth_of};

use super::amount::Amount;
use super::operator::{Additive, Multiplicative};

// The greatest result of a step; the least is its negative.
pub const MOST_STEP: i64 = 2000000000;

// A number that a step has as its result, where it may have it.
fn within(z: i64) -> Option<Amount>
    ensures { worth_of result ≡ step z }
{
    if !(-MOST_STEP..=MOST_STEP).contains(&z) {
        return None;
    }
    Some(Amount { value: z })
}

// a + b or a - b.
fn sum_step(op: Additive, a: Amount, b: Amount) -> Option<Amount>
    ensures { worth_of result ≡ sum_step op a.value b.value }
{
    match op {
        Additive::Plus => within(a.value + b.value),
        Additive::Minus => within(a.value - b.value),
    }
}

// a * b or a / b, which drops the remainder towards zero.
fn product_step(op: Multiplicative, a: Amount, b: Amount) -> Option<Amount>
    ensures { worth_of result ≡ product_step op a.value b.value }
{
    match op {
        Multiplicative::Times => within(a.value * b.value),
        Multiplicative::Over if b.value == 0 => None,
        Multiplicative::Over => within(a.value / b.value),
    }
}

// A sum's next step, where both sides have an amount.
pub fn add(op: Additive, left: Option<Amount>, right: Option<Amount>) -> Option<Amount>
    ensures { worth_of result ≡ summed op (worth_of left) (worth_of right) }
{
    sum_step(op, left?, right?)
}

// A product's next step, where both sides have an amount.
pub fn scale(op: Multiplicative, left: Option<Amount>, right: Option<Amount>) -> Option<Amount>
    ensures { worth_of result ≡ scaled op (worth_of left) (worth_of right) }
{
    product_step(op, left?, right?)
}
