// Lines whose limits are written as formulas, and the plain lines that they stand for.
#![tactic(auto)]

mod fields;
mod rewrite;

ghost use Rattle.std.specs.Prelude.{ℕ};
ghost use Rattle.outcome.specs.Result.{number_in, length_in};
ghost use Rattle.profile.specs.Table.{table_of};
ghost use Rattle.evaluate.specs.Evaluate.{EvaluatesLine};
ghost use Rattle.evaluate.specs.InnerText.{IsShort, IsLent, FinishesLine, FinishesText};

use fields::is_closed;
use formula::Volts;
use outcome::Refusal;
use profile::table::TABLE_SIZE;
use profile::{LONGEST, read_line};
use rewrite::rewrite;

// The greatest length of an input.
pub const LONGEST_INPUT: usize = 400;

// An input with numbers in place of its limits has room in this many bytes.
pub const ROOM: usize = 576;

// Hands out the text where it is a line.
fn finish_line(table: &[u8], text: &[u8], out: &mut [u8]) -> Result<usize, Refusal>
    requires { IsLent out.old }
    ensures { (before : ℕ) → FinishesLine (table_of table.now) text.now out.old before (number_in result)
        out.new (length_in before result) }
{
    let Ok(_) = read_line(table, text) else {
        return Err(Refusal::BadProfile);
    };
    let n = text.len();
    out[..n].copy_from_slice(text);
    Ok(n)
}

// Works the formulas out, from left to right, and hands out the line with their numbers.
fn finish(table: &[u8], input: &[u8], volts: Volts, out: &mut [u8]) -> Result<usize, Refusal>
    requires short { IsShort input.now }
    requires lent { IsLent out.old }
    ensures { (before : ℕ) → FinishesText (table_of table.now) volts.volts input.now out.old before (number_in result)
        out.new (length_in before result) }
{
    let mut text = [0u8; ROOM];
    let n = rewrite(input, Some(volts), &mut text)?;
    finish_line(table, &text[..n], out)
}

// Writes the line that a line with formulas stands for at the front of 84 lent bytes, and returns its length.
pub fn evaluate_line(table: &[u8], input: &[u8], out: &mut [u8]) -> Result<usize, Refusal>
    ensures { (before : ℕ) → EvaluatesLine table.now input.now out.old before (number_in result)
        out.new (length_in before result) }
{
    if table.len() != TABLE_SIZE {
        return Err(Refusal::BadSize);
    }
    if input.len() > LONGEST_INPUT {
        return Err(Refusal::BadSize);
    }
    if out.len() != LONGEST {
        return Err(Refusal::BadSize);
    }
    if !is_closed(input) {
        return Err(Refusal::BadProfile);
    }
    let mut text = [0u8; ROOM];
    let Ok(n) = rewrite(input, None, &mut text) else {
        return Err(Refusal::BadProfile);
    };
    let Ok(p) = read_line(table, &text[..n]) else {
        return Err(Refusal::BadProfile);
    };
    finish(table, input, Volts { volts: p.volts }, out)
}
