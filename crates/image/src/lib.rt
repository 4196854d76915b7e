// Profiles as images, bytes that C holds, and the line entries over them, under the classes of a table.
#![tactic(auto)]

pub mod read;
pub mod write;

ghost use Rattle.std.specs.Prelude.{ℕ};
ghost use Rattle.outcome.specs.Result.{number_in, length_in};
ghost use Rattle.profile.specs.Table.{table_of};
ghost use Rattle.image.specs.Entries.{ReadsImage, WritesProfileLine, WritesImage};

use outcome::Refusal;
use profile::table::TABLE_SIZE;
use profile::{Profile, read_line, write_line};
use read::read_profile;
use write::write_profile;

// The length of the image of a profile.
pub const PROFILE_SIZE: usize = 76;

// Reads a line into the image of its profile.
pub fn read_line_image(table: &[u8], line: &[u8], profile: &mut [u8]) -> Result<(), Refusal>
    ensures { ReadsImage table.now line.now profile.old (number_in result) profile.new }
{
    if table.len() != TABLE_SIZE || profile.len() != PROFILE_SIZE {
        return Err(Refusal::BadSize);
    }
    let p = read_line(table, line)?;
    write_profile(p, profile);
    Ok(())
}

// Writes the line of a profile, and returns its length.
pub fn write_profile_line(table: &[u8], p: Profile, out: &mut [u8]) -> Result<usize, Refusal>
    ensures { (before : ℕ) → WritesProfileLine (table_of table.now) p out.old before (number_in result)
        out.new (length_in before result) }
{
    write_line(table, p, out)
}

// Writes the line of the profile that an image means, and returns its length.
pub fn write_line_image(table: &[u8], profile: &[u8], out: &mut [u8]) -> Result<usize, Refusal>
    ensures { (before : ℕ) → WritesImage table.now profile.now out.old before (number_in result)
        out.new (length_in before result) }
{
    if table.len() != TABLE_SIZE || profile.len() != PROFILE_SIZE {
        return Err(Refusal::BadSize);
    }
    write_profile_line(table, read_profile(profile), out)
}
