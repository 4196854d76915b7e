// Values modulo 127, values inside sums, and exponents modulo 7, as three types: none is taken where another is meant.
// Every product with a power of 2 is read from one table, by times_power_with. Sums are folded, not divided: 128 is 1
// modulo 127, so that a number's lowest seven bits and the rest of it have a smaller sum with the same remainder.
#![tactic(auto)]

pub mod table;

ghost use Rattle.std.specs.Prelude.{ℕ, ◌≡◌, ◌+◌, ◌*◌, ◌/◌, ◌%◌, ◌<◌, ◌≤◌};
ghost use Rattle.field.specs.Field.{times_power, less as less_of, minus as minusOf};
ghost use Rattle.field.specs.InnerProducts.{Products, Multiples};

use crate::table::PRODUCTS;
use std::marker::Model;

// A value modulo 127, from 0 to 126. Contracts see the number.
#[derive(Clone, Copy)]
pub struct Value(pub u8);

impl Model for Value {
    ghost Value = { ℕ };

    ghost view = { λ x. x.0 };

    ghost invariant = { λ x. x.0 < 127 };

    ghost inverse = { λ n. record { 0 = n } };
}

// A value modulo 127 inside sums, from 0 to 127: zero has two spellings, 0 and 127.
#[derive(Clone, Copy)]
pub struct Loose(pub u8);

impl Model for Loose {
    ghost Value = { ℕ };

    ghost view = { λ x. x.0 };

    ghost invariant = { λ x. x.0 ≤ 127 };

    ghost inverse = { λ n. record { 0 = n } };
}

// An exponent modulo 7, from 0 to 6; it stands for a power of 2.
#[derive(Clone, Copy)]
pub struct Exponent(pub u8);

impl Model for Exponent {
    ghost Value = { ℕ };

    ghost view = { λ x. x.0 };

    ghost invariant = { λ x. x.0 < 7 };

    ghost inverse = { λ n. record { 0 = n } };
}

// The table of products. A constant is copied where it is used: a vector asks for the table once and lends it.
pub fn product_table() -> [u8; 889]
    ensures { Products result }
{
    PRODUCTS
}

// 2^a times x, from a lent table.
#[tactic(auto, unfolding(crate::specs::InnerProducts::Products))]
pub fn times_power_with(table: &[u8; 889], a: Exponent, x: Value) -> Value
    requires { Products table.now }
    ensures { result ≡ times_power a x }
{
    let place = (a.0 as usize) * 127 + x.0 as usize;
    Value(table[place])
}

// x times each of the seven powers, the first with exponent 0.
#[tactic(auto, unfolding(crate::specs::InnerProducts::Multiples))]
pub fn multiples(x: Value) -> [u8; 7]
    ensures { Multiples x result }
{
    let table = product_table();
    let mut products = [0u8; 7];
    for exponent in 0..7 {
        products[exponent as usize] = times_power_with(&table, Exponent(exponent), x).0;
    }
    products
}

// The lowest seven bits and the rest, added up: the same number modulo 127.
pub fn fold(x: u16) -> u16
    ensures { result ≡ x % 128 + x / 128 }
{
    x % 128 + x / 128
}

// A sum modulo 127. Which spelling of zero comes out is the program's choice; promised is what both have in common.
// Any sum folds to at most 638, that to at most 131, and that to at most 127.
pub fn reduce(sum: u16) -> Loose
    ensures { result % 127 ≡ sum % 127 }
{
    let once = fold(sum);
    let twice = fold(once);
    Loose(fold(twice) as u8)
}

// a + b, with either spelling of zero. The sum is at most 254, which one fold brings to at most 127.
pub fn plus(a: Loose, b: Loose) -> Loose
    ensures { result % 127 ≡ (a + b) % 127 }
{
    let sum = a.0 + b.0;
    Loose(sum % 128 + sum / 128)
}

// x − b · s, with either spelling of zero.
pub fn less(b: Value, x: Loose, s: Value) -> Loose
    ensures { result % 127 ≡ less_of b x s }
{
    reduce(x.0 as u16 + (b.0 as u16) * (127 - s.0 as u16))
}

// 127 becomes 0, and every other value stays. No branch: the value may be secret.
pub fn normalize(x: Loose) -> Value
    ensures { result ≡ x % 127 }
{
    Value((x.0 + (x.0 + 1) / 128) % 128)
}

// a − b
pub fn minus(a: Exponent, b: Exponent) -> Exponent
    ensures { result ≡ minusOf a b }
{
    Exponent((a.0 + (7 - b.0)) % 7)
}
