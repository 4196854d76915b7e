// Limits written as formulas: read by the grammar, and worked out in the same pass.
#![tactic(auto)]

mod amount;
mod operator;
mod reader;
mod steps;
pub mod volts;

ghost use Rattle.formula.specs.InnerReader.{NegativeOf, SumOf};
ghost use Rattle.formula.specs.Meaning.{Evaluates};

use outcome::Refusal;
use reader::{Reader, number_at};
pub use volts::Volts;

// The greatest length of a formula.
pub const LONGEST_FORMULA: usize = 64;

// How many pairs of parentheses may stand around each other.
pub const DEEPEST: usize = 8;

// The negative of a number that is not 0, whose digits are these.
fn negative(digits: &[u8]) -> Result<i64, Refusal>
    ensures { NegativeOf digits.now result }
{
    let number = number_at(digits, 0).ok_or(Refusal::BadFormula)?;
    if number.end != digits.len() {
        return Err(Refusal::BadFormula);
    }
    if number.value == 0 {
        return Err(Refusal::BadFormula);
    }
    Ok(-i64::from(number.value))
}

// A sum that is the whole field.
fn whole_sum(field: &[u8], volts: Volts) -> Result<i64, Refusal>
    ensures { SumOf volts.volts field.now result }
{
    let reader = Reader { text: field, volts };
    let sum = reader.sum(0, DEEPEST).ok_or(Refusal::BadFormula)?;
    if sum.end != field.len() {
        return Err(Refusal::BadFormula);
    }
    let worth = sum.worth.ok_or(Refusal::BadStep)?;
    Ok(worth.value)
}

// What a field is worth at these nominal volts.
pub fn evaluate(field: &[u8], volts: Volts) -> Result<i64, Refusal>
    ensures { Evaluates volts.volts field.now result }
{
    if field.len() > LONGEST_FORMULA {
        return Err(Refusal::BadFormula);
    }
    if let Some(digits) = field.strip_prefix(b"-") {
        return negative(digits);
    }
    whole_sum(field, volts)
}
