// The readers of sum, product and atom, which call each other in a cycle: each pair of parentheses holds a whole
// formula again. What is not yet read gets shorter from call to call.
ghost use Rattle.std.specs.Prelude.{◌≤◌, length, IfSome};
ghost use Rattle.formula.specs.Grammar.{most_number};
ghost use Rattle.formula.specs.InnerReader.{part_of, number_of, SumAt, ProductAt, AtomAt, NumberPart};

use super::amount::Amount;
use super::operator::{additive_at, multiplicative_at};
use super::steps::{add, scale};
use super::volts::Volts;
use decimal::{Number, read_decimal};

// The greatest number in a formula.
pub const MOST_NUMBER: u32 = 1000000;

// A part that was read: what it is worth, if its steps can be taken, and the place behind it.
#[derive(Clone, Copy)]
pub struct Part {
    pub worth: Option<Amount>,
    pub end: usize,
}

// A number without leading zeros, at most the greatest.
pub fn number_at(s: &[u8], at: usize) -> Option<Number>
    requires { at ≤ length s.now }
    ensures part { NumberPart s.now at (number_of result) }
    ensures small { IfSome result (λ n. n.value ≤ most_number) }
{
    let number = read_decimal(s, at);
    if number.end == at {
        return None;
    }
    if number.value > MOST_NUMBER {
        return None;
    }
    if s[at] == b'0' && number.end != at + 1 {
        return None;
    }
    Some(number)
}

// What the three readers read, and the volts that N stands for.
#[derive(Clone, Copy)]
pub struct Reader<'a> {
    pub text: &'a [u8],
    pub volts: Volts,
}

impl Reader<'_> {
    // A number, N, or a sum in parentheses, of which `depth` pairs may still open.
    #[cycle(atom_product_sum)]
    fn atom(&self, at: usize, depth: usize) -> Option<Part>
        ensures { AtomAt self.now.volts.volts depth self.now.text.now at (part_of result) }
    {
        let first = *self.text.get(at)?;
        if first == b'N' {
            let worth = Some(Amount::of(self.volts.volts));
            return Some(Part { worth, end: at + 1 });
        }
        if first != b'(' {
            let number = number_at(self.text, at)?;
            return Some(Part {
                worth: Some(Amount::of(number.value)),
                end: number.end,
            });
        }
        let Part { worth, end } = self.sum(at + 1, depth.checked_sub(1)?)?;
        if *self.text.get(end)? != b')' {
            return None;
        }
        Some(Part {
            worth,
            end: end + 1,
        })
    }

    // Atoms with * and / between them, from left to right. No `for` fits: how far a turn goes, the atom says.
    #[cycle(atom_product_sum)]
    fn product(&self, at: usize, depth: usize) -> Option<Part>
        ensures { ProductAt self.now.volts.volts depth self.now.text.now at (part_of result) }
    {
        let mut total = self.atom(at, depth)?;
        while let Some(op) = multiplicative_at(self.text, total.end) {
            let next = self.atom(total.end + 1, depth)?;
            total = Part {
                worth: scale(op, total.worth, next.worth),
                end: next.end,
            };
        }
        Some(total)
    }

    // Products with + and - between them, from left to right.
    #[cycle(atom_product_sum)]
    pub fn sum(&self, at: usize, depth: usize) -> Option<Part>
        ensures { SumAt self.now.volts.volts depth self.now.text.now at (part_of result) }
    {
        let mut total = self.product(at, depth)?;
        while let Some(op) = additive_at(self.text, total.end) {
            let next = self.product(total.end + 1, depth)?;
            total = Part {
                worth: add(op, total.worth, next.worth),
                end: next.end,
            };
        }
        Some(total)
    }
}
