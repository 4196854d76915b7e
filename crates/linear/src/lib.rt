// Vectors place by place, and the syndrome. A vector is a slice of bytes; each place goes through field's functions, or
// reads what they looked up before the loop. The table of products is copied once for a vector. Sums come out loose, with
// 127 as well as 0 for zero: normalize gives them the one spelling that is hashed, compared or written.
#![tactic(auto)]

ghost use Rattle.std.specs.Prelude.{◌≡◌, ◌+◌, ◌*◌, ◌%◌, ◌<◌, ◌≤◌, T, length, take, drop};
ghost use Rattle.packing.specs.Packing.{all_below};
ghost use Rattle.linear.specs.Linear.{powers as powersOf, scaled, response, transformation, less_times};
ghost use Rattle.linear.specs.Linear.{dot, rows_times, syndrome as syndrome_of};
ghost use Rattle.linear.specs.InnerSteps.{multiplied, added};
ghost use Rattle.linear.specs.InnerLoose.{Loose as LooseOf, residues};

use field::{Exponent, Loose, Value};

// b times the powers of exponents; all seven products are looked up first.
#[tactic(auto, using(crate::proofs::Kept::place_below))]
fn multiply(b: Value, es: &[u8], out: &mut [u8])
    requires { (length out.old ≡ length es.now) × T (all_below 7 es.now) }
    ensures { out.new ≡ multiplied b es.now }
{
    let products = field::multiples(b);
    for (i, &exponent) in es.iter().enumerate() {
        out[i] = products[exponent as usize];
    }
}

// The sums of two vectors, in place of the second.
#[tactic(auto, using(crate::proofs::Kept::place_below))]
fn add(u: &[u8], out: &mut [u8])
    requires { (length out.old ≡ length u.now) × T (all_below 128 u.now) × T (all_below 128 out.old) }
    ensures { LooseOf (added u.now out.old) out.new }
{
    for (i, &value) in u.iter().enumerate() {
        out[i] = field::plus(Loose(value), Loose(out[i])).0;
    }
}

// The powers of exponents.
#[tactic(auto, using(crate::proofs::Steps::powers_multiplied))]
pub fn powers(es: &[u8], out: &mut [u8])
    requires { (length out.old ≡ length es.now) × T (all_below 7 es.now) }
    ensures { out.new ≡ powersOf es.now }
{
    multiply(Value(1), es, out);
}

// 2^a times x.
#[tactic(auto, using(crate::proofs::Kept::place_below))]
pub fn scale(a: &[u8], x: &[u8], out: &mut [u8])
    requires { (length out.old ≡ length a.now) × (length x.now ≡ length a.now) × T (all_below 7 a.now)
        × T (all_below 127 x.now) }
    ensures { out.new ≡ scaled a.now x.now }
{
    let table = field::product_table();
    for i in 0..a.len() {
        let exponent = Exponent(a[i]);
        out[i] = field::times_power_with(&table, exponent, Value(x[i])).0;
    }
}

// u + b · 2^e.
pub fn respond(b: Value, u: &[u8], e: &[u8], out: &mut [u8])
    requires { (length out.old ≡ length u.now) × (length e.now ≡ length u.now)
        × T (all_below 127 u.now) × T (all_below 7 e.now) }
    ensures { LooseOf (response b u.now e.now) out.new }
{
    multiply(b, e, out);
    add(u, out);
}

// The key exponents minus the mask exponents.
#[tactic(auto, using(crate::proofs::Kept::place_below))]
pub fn transform(a: &[u8], e: &[u8], out: &mut [u8])
    requires { (length out.old ≡ length a.now) × (length e.now ≡ length a.now) × T (all_below 7 a.now)
        × T (all_below 7 e.now) }
    ensures { out.new ≡ transformation a.now e.now }
{
    for i in 0..a.len() {
        out[i] = field::minus(Exponent(a[i]), Exponent(e[i])).0;
    }
}

// x − b · s, where x may be loose.
#[tactic(auto, using(crate::proofs::Kept::place_below))]
pub fn subtract(b: Value, x: &[u8], s: &[u8], out: &mut [u8])
    requires { (length out.old ≡ length x.now) × (length s.now ≡ length x.now)
        × T (all_below 128 x.now) × T (all_below 127 s.now) }
    ensures { LooseOf (less_times b x.now s.now) out.new }
{
    for i in 0..x.len() {
        out[i] = field::less(b, Loose(x[i]), Value(s[i])).0;
    }
}

// a times x plus b times y, up to a multiple of 127; all four have h places. Two products fit 16 bits, and the sum of 128
// such pairs does where each is folded: so eight places go at once, where a sum of 32 bits lets four go.
#[tactic(auto, using(crate::proofs::Kept::place_below))]
fn pair_sum(a: &[u8], x: &[u8], b: &[u8], y: &[u8], h: usize) -> u16
    requires a_len { (length a.now ≡ h) × (length x.now ≡ h) × (length b.now ≡ h) × (length y.now ≡ h) × (h ≤ 128) }
    requires t { T (all_below 127 a.now) × T (all_below 127 x.now) × T (all_below 127 b.now) × T (all_below 127 y.now) }
    ensures { (result % 127 ≡ (dot a.now x.now + dot b.now y.now) % 127)
        × (result ≤ 48000) }
{
    let mut sum = 0u16;
    for i in 0..h {
        sum += field::fold((a[i] as u16) * (x[i] as u16) + (b[i] as u16) * (y[i] as u16));
    }
    sum
}

// A row of V times the first places of a vector, up to a multiple of 127; both have k places.
#[tactic(auto, using(crate::proofs::Kept::front_below, crate::proofs::Kept::rest_below))]
fn row_sum_of(row: &[u8], x: &[u8], k: usize) -> u16
    requires { (length row.now ≡ k) × (length x.now ≡ k) × (k ≤ 256) × T (all_below 127 row.now)
        × T (all_below 127 x.now) }
    ensures { (result % 127 ≡ dot row.now x.now % 127) × (result ≤ 65000) }
{
    let h = k / 2;
    let even = h + h;
    let pairs = pair_sum(&row[..h], &x[..h], &row[h..even], &x[h..even], h);
    if even < k {
        pairs + (row[even] as u16) * (x[even] as u16)
    } else {
        pairs
    }
}

// The same for every length. Those in use, of categories 1, 3 and 5 as row_width gives them, are named, so that each has a
// loop with its constant. The length is no const parameter: the other lengths, known at run time alone, would need the code
// a second time.
pub fn row_sum(row: &[u8], x: &[u8]) -> u16
    requires row_len { (length row.now ≡ length x.now) × (length x.now ≤ 256) }
    requires t { T (all_below 127 row.now) × T (all_below 127 x.now) }
    ensures { (result % 127 ≡ dot row.now x.now % 127) × (result ≤ 65000) }
{
    match x.len() {
        80 => row_sum_of(row, x, 80),
        112 => row_sum_of(row, x, 112),
        160 => row_sum_of(row, x, 160),
        k => row_sum_of(row, x, k),
    }
}

// How many places a row's sum takes, where so many of V are left: the row's own k, and on into the next row up to a
// multiple of 16, so that whole groups of eight go at once in both halves.
fn row_width(k: usize, left: usize) -> usize
    requires { (k ≤ 256) × (k ≤ left) }
    ensures { (k ≤ result) × (result ≤ left) × (result ≤ 256) }
{
    let wide = k.div_ceil(16) * 16;
    if wide <= left { wide } else { k }
}

// Each row of V times the first k places of x, plus the place of b. After these k places x has zeros: what a sum takes of
// the next row counts nothing.
#[tactic(auto, using(crate::proofs::Kept::front_below, crate::proofs::Kept::rest_below))]
fn rows_times(k: usize, vs: &[u8], x: &[u8], b: &[u8], out: &mut [u8])
    requires b_len { (length b.now ≡ length out.old) × (length vs.now ≡ k * length out.old) × (k ≤ 256)
        × (length x.now ≡ 256) }
    requires t { T (all_below 127 vs.now) × T (all_below 127 x.now) × T (all_below 1 (drop k x.now)) }
    ensures { LooseOf (rows_times k vs.now (take k x.now) b.now)
        out.new }
{
    for i in 0..out.len() {
        let rest = &vs[k * i..];
        let width = row_width(k, rest.len());
        let sum = row_sum(&rest[..width], &x[..width]);
        out[i] = field::reduce(sum + b[i] as u16).0;
    }
}

// x times H transposed.
#[tactic(auto, using(crate::proofs::Kept::front_below, crate::proofs::Kept::rest_below))]
pub fn syndrome(k: usize, vs: &[u8], x: &[u8], out: &mut [u8])
    requires { (length x.now ≡ k + length out.old) × (length vs.now ≡ k * length out.old)
        × (length x.now ≤ 256) × T (all_below 127 vs.now) × T (all_below 127 x.now) }
    ensures { LooseOf (syndrome_of k vs.now x.now) out.new }
{
    let mut covered = [0u8; 256];
    covered[..k].copy_from_slice(&x[..k]);
    rows_times(k, vs, &covered, &x[k..], out);
}

// The step ahead of everything that is hashed, compared or written: each place that reads 127 becomes 0.
#[tactic(auto, using(crate::proofs::Kept::place_below))]
pub fn normalize(xs: &mut [u8])
    requires { T (all_below 128 xs.old) }
    ensures { xs.new ≡ residues xs.old }
{
    for x in xs.iter_mut() {
        *x = field::normalize(Loose(*x)).0;
    }
}
