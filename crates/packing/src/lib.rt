// Packing: fields of a fixed width laid into bytes, from the lowest bit of the first byte upward.
//
// It is a change of base: eight fields of w bits are the same number as w bytes. So packing and unpacking are one
// code: `regroup` reads each whole group as a number and writes that number in the other base, and `finish` does
// the same with what is left over. The width is a const parameter: each width in use has its own loops.
#![tactic(auto)]

ghost use Rattle.std.specs.Prelude.{◌≡◌, true, false, ◌++◌, ℕ, ◌+◌, ◌-◌, ◌*◌, ◌/◌, ◌^◌, ◌<◌, ◌≤◌, ltb, length, take, drop};
ghost use Rattle.outcome.specs.Answer.{first_refusal, pick};
ghost use Rattle.outcome.specs.Result.{number_in};
ghost use Rattle.packing.specs.Packing.{number, digits, size, all_below, pack_checks, unpack_checks, Packs, Unpacks};

use outcome::Refusal;

// Bits of a value, which is below 127, and of an exponent, which is below 7: a field of w bits is below 2^w - 1.
pub const VALUE: usize = 7;

pub const EXPONENT: usize = 3;

// A base of fields, and a remainder by it is a mask.
pub fn pow2(k: usize) -> u64
    requires { k < 64 }
    ensures { result ≡ 2 ^ k }
{
    1 << k
}

// How many bytes n fields of width w take, whole groups first: so no length overflows.
pub fn packed_size(n: usize, w: usize) -> usize
    requires { w ≤ 8 }
    ensures { result ≡ size w n }
{
    n / 8 * w + (n % 8 * w + 7) / 8
}

// The number of the n fields of width a from `at` on, the first field lowest.
pub fn gather(src: &[u8], at: usize, a: usize, n: usize) -> u64
    requires { (at + n ≤ length src.now) × (a ≤ 8) × (a * n ≤ 64) × (all_below (2 ^ a) src.now ≡ true) }
    ensures { result ≡ number a (take n (drop at src.now)) }
{
    let mut v: u64 = 0;
    for k in (0..n).rev() {
        v = (v << a) + u64::from(src[at + k]);
    }
    v
}

// Writes the lowest n digits of v in base 2 ^ b from `at` on.
pub fn scatter(v: u64, dst: &mut [u8], at: usize, b: usize, n: usize)
    requires { (at + n ≤ length dst.old) × (b ≤ 8) }
    ensures { dst.new ≡ take at dst.old ++ digits b n v ++ drop (at + n) dst.old }
{
    let mut left = v;
    for k in 0..n {
        dst[at + k] = (left % pow2(b)) as u8;
        left >>= b;
    }
}

// Whole groups: b fields of width a are a fields of width b. By index, since a proof does not know what is written
// through `chunks_exact_mut`.
fn regroup(src: &[u8], dst: &mut [u8], groups: usize, a: usize, b: usize)
    requires in_bounds { (groups * b ≤ length src.now) × (groups * a ≤ length dst.old) }
    requires widths { (a ≤ 8) × (b ≤ 8) × (all_below (2 ^ a) src.now ≡ true) }
    ensures { take (groups * a) dst.new ≡ digits b (groups * a) (number a src.now) }
{
    for g in 0..groups {
        let v = gather(src, g * b, a, b);
        scatter(v, dst, g * a, b, a);
    }
}

// The last group, behind the whole ones: with it the whole of `dst` is made.
fn finish(src: &[u8], dst: &mut [u8], groups: usize, a: usize, b: usize)
    requires in_bounds { (groups * b ≤ length src.now) × (groups * a ≤ length dst.old) }
    requires widths { (a ≤ 8) × (b ≤ 8) × (all_below (2 ^ a) src.now ≡ true) × (a * (length src.now - groups * b) ≤ 64) }
    requires begun { take (groups * a) dst.old ≡ digits b (groups * a) (number a src.now) }
    ensures { dst.new ≡ digits b (length dst.old) (number a src.now) }
{
    let v = gather(src, groups * b, a, src.len() - groups * b);
    let n = dst.len() - groups * a;
    scatter(v, dst, groups * a, b, n);
}

// The largest field, or 0 of none.
fn largest(xs: &[u8]) -> u8
    ensures { (m : ℕ) → 0 < m → ltb result m ≡ all_below m xs.now }
{
    let mut best: u8 = 0;
    for &x in xs {
        best = best.max(x);
    }
    best
}

// The largest field's successor: below 2 ^ w where no field is 2 ^ w - 1 or more.
fn see_fields(fields: &[u8]) -> u64
    ensures { (result < 512) × ((w : ℕ) → 0 < w → ltb result (2 ^ w) ≡ all_below (2 ^ w - 1) fields.now) }
{
    u64::from(largest(fields)) + 1
}

// The tests of packing fields into some bytes.
fn pack_refusal<const W: usize>(xs: &[u8], bytes: usize) -> Result<(), Refusal>
    requires { (0 < W) × (W ≤ 8) }
    ensures { number_in result ≡ first_refusal (pack_checks W (2 ^ W - 1) xs.now bytes) }
{
    if bytes != packed_size(xs.len(), W) {
        return Err(Refusal::BadSize);
    }
    if pow2(W) <= see_fields(xs) {
        return Err(Refusal::BadField);
    }
    Ok(())
}

// What was seen so far, joined with the lowest n fields of v: below 2 ^ w where no field was 2 ^ w - 1. What is
// joined is each field's successor, which has bit w just where the field is 2 ^ w - 1.
fn see(v: u64, w: usize, n: usize, seen: u64) -> u64
    requires { (w ≤ 8) × (seen < 512) }
    ensures { (result < 512) × (ltb result (2 ^ w) ≡ pick (ltb seen (2 ^ w)) (all_below (2 ^ w - 1) (digits w n v)) false) }
{
    let mut all = seen;
    let mut left = v;
    for _ in 0..n {
        all |= left % pow2(w) + 1;
        left >>= w;
    }
    all
}

// The same of the fields of whole groups, of w bytes each; by index, as `regroup` reads them.
fn see_groups(packed: &[u8], groups: usize, w: usize) -> u64
    requires { (groups * w ≤ length packed.now) × (w ≤ 8) }
    ensures { (result < 512)
        × (ltb result (2 ^ w) ≡ all_below (2 ^ w - 1) (digits w (groups * 8) (number 8 packed.now))) }
{
    let mut seen = 0;
    for g in 0..groups {
        seen = see(gather(packed, g * w, 8, w), w, 8, seen);
    }
    seen
}

// The tests of unpacking n fields below 2 ^ w - 1 from a string of the right size, whose whole groups were seen.
fn unpack_refusal<const W: usize>(packed: &[u8], n: usize, seen: u64) -> Result<(), Refusal>
    requires sizes { (length packed.now ≡ size W n) × (W ≤ 8) × (seen < 512) }
    requires groups_seen { ltb seen (2 ^ W) ≡ all_below (2 ^ W - 1) (digits W (n / 8 * 8) (number 8 packed.now)) }
    ensures { number_in result ≡ first_refusal (unpack_checks W (2 ^ W - 1) n packed.now) }
{
    let at = n / 8 * W;
    let v = gather(packed, at, 8, packed.len() - at);
    if pow2(W) <= see(v, W, n % 8, seen) {
        return Err(Refusal::BadField);
    }
    if pow2(n % 8 * W) <= v {
        return Err(Refusal::BadField);
    }
    Ok(())
}

// Unpacking at most 256 fields from a string of their size: the groups are read once, into scratch, are tested there and
// copied where nothing is refused.
fn unpack_few<const W: usize>(packed: &[u8], fields: &mut [u8]) -> Result<(), Refusal>
    requires { (length packed.now ≡ size W (length fields.old)) × (0 < W) × (W ≤ 8) × (length fields.old ≤ 256) }
    ensures { Unpacks W (2 ^ W - 1) packed.now fields.old (number_in result) fields.new }
{
    let mut scratch = [0u8; 256];
    let n = fields.len();
    let groups = n / 8;
    regroup(packed, &mut scratch, groups, 8, W);
    let seen = see_fields(&scratch[..groups * 8]);
    unpack_refusal::<W>(packed, n, seen)?;
    fields.copy_from_slice(&scratch[..n]);
    finish(packed, fields, groups, 8, W);
    Ok(())
}

// The entries, for any count of fields: values have 7 bits and are below 127, exponents 3 bits and below 7. Since a
// refusal leaves the buffer as it was, at most 256 fields are unpacked into scratch first, and more are read twice.

pub fn pack<const W: usize>(fields: &[u8], packed: &mut [u8]) -> Result<(), Refusal>
    requires { (0 < W) × (W ≤ 8) }
    ensures { Packs W (2 ^ W - 1) fields.now packed.old (number_in result) packed.new }
{
    pack_refusal::<W>(fields, packed.len())?;
    let groups = fields.len() / 8;
    regroup(fields, packed, groups, W, 8);
    finish(fields, packed, groups, W, 8);
    Ok(())
}

pub fn unpack<const W: usize>(packed: &[u8], fields: &mut [u8]) -> Result<(), Refusal>
    requires { (0 < W) × (W ≤ 8) }
    ensures { Unpacks W (2 ^ W - 1) packed.now fields.old (number_in result) fields.new }
{
    let n = fields.len();
    if packed.len() != packed_size(n, W) {
        return Err(Refusal::BadSize);
    }
    if n <= 256 {
        return unpack_few::<W>(packed, fields);
    }
    let groups = n / 8;
    unpack_refusal::<W>(packed, n, see_groups(packed, groups, W))?;
    regroup(packed, fields, groups, 8, W);
    finish(packed, fields, groups, 8, W);
    Ok(())
}
