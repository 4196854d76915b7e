// The entries of the draws, for every size: the sizes are tested, the draw is made in scratch, and only a draw that is
// enough is copied to what was lent.
ghost use Rattle.std.specs.Prelude.{◌<◌, ◌≤◌, length};
ghost use Rattle.outcome.specs.Result.{number_in};
ghost use Rattle.sampling.specs.Entry.{AnswersSample, AnswersShuffle};
ghost use Rattle.sampling.specs.InnerScratch.{Room};

use crate::Draw;
use outcome::Refusal;

// A draw, where the block has its bytes and `out` its count.
pub fn sample_into(out: &mut [u8], scratch: &mut [u8], block: &[u8], d: Draw) -> Result<(), Refusal>
    requires { Room d scratch.old }
    ensures { AnswersSample d.width d.limit d.added d.count d.bytes
        block.now out.old (number_in result) out.new }
{
    let n = d.count;
    if block.len() != d.bytes {
        return Err(Refusal::BadSize);
    }
    if out.len() != n {
        return Err(Refusal::BadSize);
    }
    let got = crate::sample::sample(scratch, block, d);
    if got < n {
        return Err(Refusal::ShortDraw);
    }
    out.copy_from_slice(&scratch[..n]);
    Ok(())
}

// The second challenge at as many positions as scratch has, w of them ones, from a block of `bytes` bytes.
pub fn shuffle_into(
    out: &mut [u8],
    scratch: &mut [u8],
    block: &[u8],
    bytes: usize,
    w: usize,
) -> Result<(), Refusal>
    requires { (w ≤ length scratch.old) × (0 < length scratch.old) }
    ensures { AnswersShuffle (length scratch.old) w bytes
        block.now out.old (number_in result) out.new }
{
    if block.len() != bytes {
        return Err(Refusal::BadSize);
    }
    if out.len() != scratch.len() {
        return Err(Refusal::BadSize);
    }
    crate::shuffle::shuffle(scratch, block, w)?;
    out.copy_from_slice(scratch);
    Ok(())
}
