// Making a package: a line is signed, and follows its signature. Each answers the package's length.
ghost use Rattle.std.specs.Prelude.{◌≡◌, ℕ};
ghost use Rattle.outcome.specs.Result.{number_in, length_in};
ghost use Rattle.package.specs.Entries.{Room, Seals, MakesPackage, MakesFromLine};

use crate::sizes;
use outcome::Refusal;
use profile::{LONGEST, Profile, read_line, write_line};
use signer::scratch::SignScratch;

// Signs a line into the front of what is lent and puts the line behind the signature.
fn seal(
    private: &[u8],
    master: &[u8],
    salt: &[u8],
    line: &[u8],
    scratch: &mut SignScratch<'_>,
    out: &mut [u8],
) -> Result<usize, Refusal>
    requires { Room scratch.old.category.sizes line.now out.old }
    ensures package { (before : ℕ) → Seals scratch.old.category.sizes private.now master.now salt.now line.now
        out.old before (number_in result) out.new (length_in before result) }
    ensures category { scratch.new.category ≡ scratch.old.category }
{
    let size = scheme::signature_size(scratch.category);
    let end = size + line.len();
    signer::sign::sign(private, master, salt, line, scratch, &mut out[..size])?;
    buffers::copy(&mut out[size..end], line);
    Ok(end)
}

// The package of a profile, under the classes of a table.
pub fn make_package(
    table: &[u8],
    private: &[u8],
    master: &[u8],
    salt: &[u8],
    profile: Profile,
    scratch: &mut SignScratch<'_>,
    out: &mut [u8],
) -> Result<usize, Refusal>
    ensures package { (before : ℕ) → MakesPackage scratch.old.category.sizes table.now private.now master.now salt.now
        profile out.old before (number_in result) out.new (length_in before result) }
    ensures category { scratch.new.category ≡ scratch.old.category }
{
    sizes::check_make(scratch.category, table, private, master, salt, out.len())?;
    let mut line = [0u8; LONGEST];
    let n = write_line(table, profile, &mut line)?;
    seal(private, master, salt, &line[..n], scratch, out)
}

// The package of the profile that a line means, under the classes of a table.
pub fn make_from_line(
    table: &[u8],
    private: &[u8],
    master: &[u8],
    salt: &[u8],
    line: &[u8],
    scratch: &mut SignScratch<'_>,
    out: &mut [u8],
) -> Result<usize, Refusal>
    ensures package { (before : ℕ) → MakesFromLine scratch.old.category.sizes table.now private.now master.now salt.now
        line.now out.old before (number_in result) out.new (length_in before result) }
    ensures category { scratch.new.category ≡ scratch.old.category }
{
    sizes::check_make(scratch.category, table, private, master, salt, out.len())?;
    let _ = read_line(table, line)?;
    seal(private, master, salt, line, scratch, out)
}
