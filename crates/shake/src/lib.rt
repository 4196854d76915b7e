// SHAKE (FIPS 202): a sponge over Keccak-f[1600] that takes a string in part by part, and fills a lent buffer.
#![tactic(auto)]

ghost use Rattle.std.specs.Prelude.{◌≡◌, [], ◌∷◌, ◌++◌, ◌+◌, ◌-◌, ◌*◌, ◌%◌, ◌<◌, ◌≤◌, length, take};
ghost use Rattle.keccak.specs.Keccak.{keccak_f};
ghost use Rattle.shake.specs.Shake.{little, low_bytes, bytes_of, squeezed, shake, behind, Hashes128, Hashes256};
ghost use Rattle.shake.specs.InnerFold.{sponge as spongeOf, xor_byte, xor_bytes, turned, absorb_bytes};
ghost use Rattle.shake.specs.InnerFold.{Rate, Ready, Holds, Absorbs, Squeezes};

pub mod sponge;

pub use sponge::Sponge;

// A byte at place i of the state.
fn xor_byte(lanes: &mut [u64; 25], i: usize, b: u8)
    requires { i < 200 }
    ensures { lanes.new ≡ xor_byte lanes.old i b }
{
    let k = i / 8;
    let x = lanes[k];
    lanes[k] = x ^ ((b as u64) << (8 * (i % 8)));
}

// A full block is permuted. Returns the place of the next byte.
fn turn(lanes: &mut [u64; 25], at: usize, rate: usize) -> usize
    ensures { spongeOf lanes.new result rate ≡ turned lanes.old at rate }
{
    if at == rate {
        keccak::permute(lanes);
        return 0;
    }
    at
}

// The number of eight bytes or fewer, low byte first.
fn gather(bytes: &[u8]) -> u64
    requires { length bytes.now ≤ 8 }
    ensures { result ≡ little bytes.now }
{
    let mut x = 0;
    for (i, &b) in bytes.iter().enumerate() {
        x |= (b as u64) << (8 * i);
    }
    x
}

// Bytes of one lane.
fn xor_lane(lanes: &mut [u64; 25], at: usize, part: &[u8])
    requires { (at < 200) × (at % 8 + length part.now ≤ 8) }
    ensures { lanes.new ≡ xor_bytes lanes.old at part.now }
{
    let k = at / 8;
    let x = gather(part);
    let y = lanes[k];
    lanes[k] = y ^ (x << (8 * (at % 8)));
}

// Whole lanes, then what is left.
fn xor_lanes(lanes: &mut [u64; 25], at: usize, part: &[u8])
    requires { (at % 8 ≡ 0) × (at + length part.now < 200) }
    ensures { lanes.new ≡ xor_bytes lanes.old at part.now }
{
    let first = at / 8;
    let (whole, rest) = part.as_chunks::<8>();
    for (k, &bytes) in whole.iter().enumerate() {
        lanes[first + k] ^= u64::from_le_bytes(bytes);
    }
    xor_lane(lanes, at + 8 * whole.len(), rest);
}

// Bytes up to the next lane, then the lanes from there.
fn xor_part(lanes: &mut [u64; 25], at: usize, part: &[u8])
    requires { at + length part.now < 200 }
    ensures { lanes.new ≡ xor_bytes lanes.old at part.now }
{
    let gap = (8 - at % 8) % 8;
    if part.len() <= gap {
        xor_lane(lanes, at, part);
        return;
    }
    xor_lane(lanes, at, &part[..gap]);
    xor_lanes(lanes, at + gap, &part[gap..]);
}

// Fills block after block and permutes each; the last one keeps room. Returns the place of the next byte.
// A `while`, since the first block takes fewer bytes than the others: it has some already.
fn absorb_part(lanes: &mut [u64; 25], at: usize, rate: usize, part: &[u8]) -> usize
    requires { (at < rate) × (rate < 200) }
    ensures { (spongeOf lanes.new result rate ≡
        absorb_bytes (spongeOf lanes.old at rate) part.now) × (result < rate) }
{
    let n = part.len();
    let mut next = at;
    let mut i = 0;
    while rate - next <= n - i {
        let end = i + (rate - next);
        xor_part(lanes, next, &part[i..end]);
        keccak::permute(lanes);
        next = 0;
        i = end;
    }
    xor_part(lanes, next, &part[i..]);
    next + (n - i)
}

// The suffix and the padding go in as two bytes, which fall on one place where one byte is left; the block is permuted.
fn finish(lanes: &mut [u64; 25], at: usize, rate: usize)
    requires { (at < rate) × (rate < 200) }
    ensures { lanes.new ≡ keccak_f (xor_byte (xor_byte lanes.old at 0x1F) (rate - 1) 0x80) }
{
    xor_byte(lanes, at, 0x1F);
    xor_byte(lanes, rate - 1, 0x80);
    keccak::permute(lanes);
}

// The low bytes of a lane, as many as the slice has.
fn write_bytes(x: u64, out: &mut [u8])
    requires { length out.old ≤ 8 }
    ensures { out.new ≡ low_bytes (length out.old) x }
{
    let n = out.len();
    let bytes = x.to_le_bytes();
    out.copy_from_slice(&bytes[..n]);
}

// The state's first bytes: whole lanes, then what is left. By index, since a proof knows nothing of what was written
// through `as_chunks_mut`.
fn write_block(lanes: &[u64; 25], out: &mut [u8])
    requires { (length lanes.now ≡ 25) × (length out.old < 200) }
    ensures { out.new ≡ take (length out.old) (bytes_of lanes.now) }
{
    let whole = out.len() / 8;
    for k in 0..whole {
        let at = 8 * k;
        write_bytes(lanes[k], &mut out[at..at + 8]);
    }
    write_bytes(lanes[whole], &mut out[8 * whole..]);
}

// Block after block comes out; a full one is permuted for the next. The last is not: nothing comes after it.
// A `while`, since the last block may be a whole one, and a proof knows nothing of what was written through `chunks_mut`.
fn squeeze_blocks(lanes: &mut [u64; 25], rate: usize, out: &mut [u8])
    requires { (length lanes.old ≡ 25) × (0 < rate) × (rate < 200) }
    ensures { out.new ≡ squeezed rate (length out.old) lanes.old }
{
    let n = out.len();
    let mut i = 0;
    while rate < n - i {
        let end = i + rate;
        write_block(lanes, &mut out[i..end]);
        keccak::permute(lanes);
        i = end;
    }
    write_block(lanes, &mut out[i..]);
}

// A whole string of any length, into a buffer of any length. Over the state itself: the methods of a sponge take 3 % more
// time for a short string.
fn fill(rate: usize, input: &[u8], out: &mut [u8])
    requires { Rate rate }
    ensures { out.new ≡ shake rate input.now (length out.old) }
{
    let mut lanes = [0u64; 25];
    let at = absorb_part(&mut lanes, 0, rate, input);
    finish(&mut lanes, at, rate);
    squeeze_blocks(&mut lanes, rate, out);
}

// SHAKE128 of a string of any length, into a buffer of any length.
pub fn shake128(input: &[u8], out: &mut [u8])
    ensures { Hashes128 input.now out.old out.new }
{
    fill(168, input, out);
}

// SHAKE256, in the same way.
pub fn shake256(input: &[u8], out: &mut [u8])
    ensures { Hashes256 input.now out.old out.new }
{
    fill(136, input, out);
}

// A tag byte and the parts behind it in one call.
pub fn hash(rate: usize, tag: u8, parts: &[&[u8]], out: &mut [u8])
    requires { Rate rate }
    ensures { out.new ≡ shake rate (behind (tag ∷ []) parts.now) (length out.old) }
{
    let mut sponge = Sponge::new(rate);
    sponge.absorb_byte(tag);
    for &part in parts {
        sponge.absorb(part);
    }
    sponge.squeeze(out);
}
