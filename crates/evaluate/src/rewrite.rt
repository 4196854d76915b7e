// A line with numbers in place of its limits.
ghost use Rattle.std.specs.Prelude.{◌≡◌, ◌+◌, ◌≤◌, length, nat_abs};
ghost use Rattle.decimal.specs.Decimal.{Room, Appended};
ghost use Rattle.formula.specs.Grammar.{most_step};
ghost use Rattle.formula.specs.Meaning.{Answered};
ghost use Rattle.evaluate.specs.Evaluate.{is_limit, sound_limit, numeral};
ghost use Rattle.evaluate.specs.InnerText.{IsShort, room, number_at, PutsField, Rewrites};

use decimal::write_decimal;
use formula::{Volts, evaluate};
use outcome::Refusal;

// Whether field k, counted from 0, is a limit.
fn is_limit(k: usize) -> bool
    ensures { result ≡ is_limit k }
{
    matches!(k, 6 | 8 | 10 | 12 | 14)
}

// A limit that every line may have as its field k.
fn sound_limit(k: usize) -> i64
    ensures { result ≡ sound_limit k }
{
    match k {
        6 => 1001,
        8 => 1,
        10 => 1,
        12 => -1,
        _ => 100,
    }
}

// The number of field k: what the formula is worth at these volts, or without volts the sound limit.
fn limit_number(field: &[u8], k: usize, volts: Option<Volts>) -> Result<i64, Refusal>
    ensures { Answered (number_at volts k field.now) result }
{
    match volts {
        Some(volts) => evaluate(field, volts),
        None => Ok(sound_limit(k)),
    }
}

// Stores a whole number in decimal from place `at`, and returns the place after it.
fn append_numeral(z: i64, out: &mut [u8], at: usize) -> usize
    requires z_bound { nat_abs z ≤ most_step }
    requires room { Room out.old at (numeral z) }
    ensures { Appended out.old at (numeral z) out.new result }
{
    let digits = z.unsigned_abs() as u32;
    if z >= 0 {
        return write_decimal(digits, out, at);
    }
    out[at] = b'-';
    write_decimal(digits, out, at + 1)
}

// Stores a field as it is.
fn append_field(field: &[u8], out: &mut [u8], at: usize) -> usize
    requires { Room out.old at field.now }
    ensures { Appended out.old at field.now out.new result }
{
    let end = at + field.len();
    buffers::copy(&mut out[at..end], field);
    end
}

// Stores what stands in the place of field k, and returns the place after it.
fn put_field(
    field: &[u8],
    k: usize,
    volts: Option<Volts>,
    out: &mut [u8],
    at: usize,
) -> Result<usize, Refusal>
    requires { at + length field.now + 11 ≤ length out.old }
    ensures { PutsField volts k field.now out.old at result out.new }
{
    if !is_limit(k) {
        return Ok(append_field(field, out, at));
    }
    let number = limit_number(field, k, volts)?;
    Ok(append_numeral(number, out, at))
}

// Stores the input with a number in place of each limit, field after field, and returns its length.
pub fn rewrite(input: &[u8], volts: Option<Volts>, out: &mut [u8]) -> Result<usize, Refusal>
    requires short { IsShort input.now }
    requires out_len { length out.old ≡ room }
    ensures { Rewrites volts input.now out.old result out.new }
{
    let mut next = 0;
    for (k, field) in input.split(|b| *b == b',').enumerate() {
        if k > 0 {
            out[next] = b',';
            next += 1;
        }
        next = put_field(field, k, volts, out, next)?;
    }
    Ok(next)
}
