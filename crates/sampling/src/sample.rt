// Draws: the fields of a block that are below a limit are kept, in scratch, until there are enough.
ghost use Rattle.std.specs.Prelude.{◌≡◌, [], ◌∷◌, ◌++◌, ◌+◌, ◌-◌, ◌*◌, ◌/◌, ◌%◌, ◌^◌, ◌<◌, ◌≤◌, length, take, drop};
ghost use Rattle.packing.specs.Packing.{digits};
ghost use Rattle.sampling.specs.Sampling.{keep, yield};
ghost use Rattle.sampling.specs.InnerScratch.{Room, Sampled};

use crate::Draw;

// Stores x + d always and counts it where x is below m, so that the compiled code does not branch on a field.
fn keep_one(scratch: &mut [u8], got: usize, x: u8, m: u8, d: u8) -> usize
    requires { (got < length scratch.old) × (x + d < 256) }
    ensures { (result ≤ got + 1)
        × (take result scratch.new ≡ take got scratch.old ++ keep m d (x ∷ [])) }
{
    scratch[got] = x + d;
    if x < m {
        return got + 1;
    }
    got
}

// Keeps of the n lowest fields of v, each of width w. Each such function returns how many scratch then has. The width
// is an argument beside the draw, so that a caller can write it out.
fn keep_some(scratch: &mut [u8], got: usize, v: u64, w: usize, n: usize, d: Draw) -> usize
    requires { (got + n ≤ length scratch.old) × (w < 64) × (2 ^ w + d.added ≤ 256) }
    ensures { (result ≤ got + n)
        × (take result scratch.new ≡ take got scratch.old
        ++ keep d.limit d.added (digits w n v)) }
{
    let base = packing::pow2(w);
    let mut left = v;
    let mut kept = got;
    for _ in 0..n {
        let x = (left % base) as u8;
        kept = keep_one(scratch, kept, x, d.limit, d.added);
        left >>= w;
    }
    kept
}

// Keeps of the whole fields of width w that x bytes have.
fn keep_bytes(scratch: &mut [u8], got: usize, bytes: &[u8], x: usize, w: usize, d: Draw) -> usize
    requires { (got + 8 * x / w ≤ length scratch.old) × (length bytes.now ≡ x) × (x ≤ 8)
        × (0 < w) × (w < 64) × (2 ^ w + d.added ≤ 256) }
    ensures { (result ≤ got + 8 * x / w)
        × (take result scratch.new ≡ take got scratch.old ++ yield w d.limit d.added bytes.now) }
{
    let v = packing::gather(bytes, 0, 8, x);
    keep_some(scratch, got, v, w, 8 * x / w, d)
}

// Keeps of a group: `width` bytes, which are eight fields. The widths in use are named, so that each has a loop with its
// constants.
fn keep_group(scratch: &mut [u8], got: usize, group: &[u8], d: Draw) -> usize
    requires { (got + 8 ≤ length scratch.old) × (length group.now ≡ d.width) }
    ensures { (result ≤ got + 8)
        × (take result scratch.new ≡ take got scratch.old ++ yield d.width d.limit d.added group.now) }
{
    match d.width {
        7 => keep_bytes(scratch, got, group, 7, 7, d),
        3 => keep_bytes(scratch, got, group, 3, 3, d),
        w => keep_bytes(scratch, got, group, w, w, d),
    }
}

// Keeps of the bytes behind the whole groups of a block, which are fewer than a group.
fn keep_tail(scratch: &mut [u8], got: usize, block: &[u8], d: Draw) -> usize
    requires { got + 8 ≤ length scratch.old }
    ensures { (result ≤ got + 8)
        × (take result scratch.new ≡ take got scratch.old ++ yield d.width d.limit d.added
        (drop (length block.now - length block.now % d.width) block.now)) }
{
    let x = block.len() % d.width;
    keep_bytes(scratch, got, &block[block.len() - x..], x, d.width, d)
}

// Makes a draw. Returns how many scratch has: `count` or more, at most 7 more, exactly where the block yields enough.
pub fn sample(scratch: &mut [u8], block: &[u8], d: Draw) -> usize
    requires { Room d scratch.old }
    ensures { Sampled d.width d.limit d.added d.count block.now result scratch.new }
{
    let mut got = 0;
    for group in block.chunks_exact(d.width) {
        if d.count <= got {
            return got;
        }
        got = keep_group(scratch, got, group, d);
    }
    if d.count <= got {
        return got;
    }
    keep_tail(scratch, got, block, d)
}
