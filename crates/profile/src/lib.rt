// Grid profiles and their lines: a profile is read only from the one line that means it, and written as that line. Both
// go by the classes of a table that is lent as its image.
#![tactic(auto)]

pub mod rules;
mod scan;
pub mod table;
mod write;

ghost use Rattle.profile.specs.Rules.{classes, Classifies};
ghost use Rattle.profile.specs.Line.{ReadsUnder, WritesUnder};

use outcome::Refusal;
use rules::valid;
use scan::{is_tagged, scan};
use write::append_line;

// The lengths of lines. A line is written into as many bytes as the longest has.
pub const SHORTEST: usize = 42;

pub const LONGEST: usize = 84;

// Where a trip point trips: a voltage in thousandths of nominal, millihertz above or below the nominal frequency, or a
// rate of change of frequency in millihertz per second.
#[derive(Clone, Copy)]
pub enum Limit {
    Share(u32),
    Offset { below: bool, millihertz: u32 },
    Rate(u32),
}

// A limit, and the delay in milliseconds after which passing it trips.
#[derive(Clone, Copy)]
pub struct Trip {
    pub limit: Limit,
    pub delay: u32,
}

// The two letters of a country.
#[derive(Clone, Copy, PartialEq, Eq)]
pub struct Country {
    pub first: u8,
    pub second: u8,
}

// The class follows from the volts and is held all the same, so that a profile in which they disagree can be refused.
#[derive(Clone, Copy)]
pub struct Profile {
    pub country: Country,
    pub class: u8,
    pub serial: u32,
    pub volts: u32,
    pub hertz: u32,
    pub over_voltage: Trip,
    pub under_voltage: Trip,
    pub over_frequency: Trip,
    pub under_frequency: Trip,
    // the trip point that not every profile has
    pub rate_of_change: Option<Trip>,
}

// The built-in class by nominal volts; 65 is A.
pub fn class_of(volts: u32) -> Option<u32>
    ensures { Classifies classes volts result }
{
    match volts {
        100..=139 => Some(65),
        140..=259 => Some(66),
        260..=519 => Some(67),
        520..=1000 => Some(68),
        _ => None,
    }
}

// Takes the numbers from where a line has them, and reads the line only if it is the line of what was found.
#[tactic(auto, unfolding(crate::specs::Line::read_line), using(crate::proofs::EntryLaws::reading))]
pub fn read_line(table: &[u8], line: &[u8]) -> Result<Profile, Refusal>
    ensures { ReadsUnder table.now line.now result }
{
    if line.len() < SHORTEST || line.len() > LONGEST {
        return Err(Refusal::BadSize);
    }
    if !is_tagged(line) {
        return Err(Refusal::BadProfile);
    }
    let p = scan(line);
    if !valid(table, p) {
        return Err(Refusal::BadProfile);
    }
    let mut again = [0u8; LONGEST];
    let end = append_line(p, &mut again);
    if &again[..end] != line {
        return Err(Refusal::BadProfile);
    }
    Ok(p)
}

// Writes the line of a profile at the front of 84 lent bytes.
#[tactic(auto, unfolding(crate::specs::Line::write_line), using(crate::proofs::EntryLaws::writing))]
pub fn write_line(table: &[u8], p: Profile, out: &mut [u8]) -> Result<usize, Refusal>
    ensures { WritesUnder table.now p out.old result out.new }
{
    if out.len() != LONGEST {
        return Err(Refusal::BadSize);
    }
    if !valid(table, p) {
        return Err(Refusal::BadProfile);
    }
    Ok(append_line(p, out))
}
