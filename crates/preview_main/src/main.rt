// Lists what a device would hold after the profile lines on standard input, each taken as if it were signed.
#![tactic(auto)]

ghost use Rattle.std.specs.Prelude.{◌<◌, ◌≤◌, OnOk, length, take};
ghost use Rattle.std.specs.Io.KnownBytes.{Consumes, IsAtEnd};

use preview::{LENT_SIZE, LONGEST_INPUT, preview};
use profile::table::TABLE_SIZE;
use std::io;
use std::io::Read;

// Reads on until the buffer is full or the input ends, and returns how many bytes it put at the front; with an error, where
// one stopped it.
fn read_full<R: Read>(reader: &mut R, buffer: &mut [u8]) -> (usize, io::Result<()>)
    ensures within { result.0 ≤ length buffer.new }
    ensures bytes { Consumes (R.remaining reader.old) (R.remaining reader.new) (take result.0 buffer.new) }
    ensures end { OnOk result.1 (result.0 < length buffer.new → IsAtEnd (R.remaining reader.new)) }
{
    let mut done = 0;
    while done < buffer.len() {
        match reader.read(&mut buffer[done..]) {
            Ok(0) => break,
            Ok(n) => done += n,
            Err(e) => return (done, Err(e)),
        }
    }
    (done, Ok(()))
}

fn main(rt: HostRuntime) -> io::Result<()> {
    // One byte more than the longest input, so that a longer one is told from it.
    let mut input = [0u8; LONGEST_INPUT + 1];
    // An error counts as the end.
    let (length, _) = read_full(&mut rt.stdin(), &mut input);
    // As many bytes as the listing may have, so that nothing is refused.
    let mut out = [0u8; LENT_SIZE];
    // The table of the built-in classes.
    let classes = [0u8; TABLE_SIZE];
    let Ok(n) = preview(&classes, &input[..length], &mut out) else {
        return Ok(());
    };
    rt.write_all(&out[..n])
}
