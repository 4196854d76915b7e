// The second challenge: w ones and then zeros, shuffled by the 16-bit fields of a block.
ghost use Rattle.std.specs.Prelude.{◌≡◌, ◌++◌, ◌+◌, ◌-◌, ◌*◌, ◌<◌, ◌≤◌, length, get_or, replicate};
ghost use Rattle.outcome.specs.Result.{number_in};
ghost use Rattle.sampling.specs.InnerScratch.{Shuffled, next_position, next_positions};

use outcome::Refusal;

// w ones, then zeros.
fn start(positions: &mut [u8], w: usize)
    requires { w ≤ length positions.old }
    ensures { positions.new ≡ replicate w 1 ++ replicate (length positions.old - w) 0 }
{
    positions.fill(0);
    positions[..w].fill(1);
}

// The field of two bytes, the low one first.
fn field(pair: &[u8]) -> usize
    requires { length pair.now ≡ 2 }
    ensures { result ≡ get_or pair.now 0 0 + 256 * get_or pair.now 1 0 }
{
    usize::from(u16::from_le_bytes([pair[0], pair[1]]))
}

// Field r at position j: past the limit it is dropped; else the position and its partner are exchanged. Returns the
// position that is next.
fn settle(positions: &mut [u8], j: usize, r: usize) -> usize
    requires { (0 < j) × (j < length positions.old) }
    ensures { (result ≡ next_position j r)
        × (positions.new ≡ next_positions positions.old j r) }
{
    let m = j + 1;
    if r < 65536 / m * m {
        // The partner first: it is never above, and `swap` looks first whether its first place is below the second.
        positions.swap(r % m, j);
        return j - 1;
    }
    j
}

// The second challenge into `positions`.
pub fn shuffle(positions: &mut [u8], block: &[u8], w: usize) -> Result<(), Refusal>
    requires { (w ≤ length positions.old) × (0 < length positions.old) }
    ensures { Shuffled (length positions.old) w block.now (number_in result) positions.new }
{
    start(positions, w);
    let mut j = positions.len() - 1;
    for pair in block.chunks_exact(2) {
        if j == 0 {
            break;
        }
        j = settle(positions, j, field(pair));
    }
    if j == 0 {
        Ok(())
    } else {
        Err(Refusal::ShortDraw)
    }
}
