// The stored profile that is nearest to a measured voltage: a suggestion for a fitter who has only a voltmeter. The
// store is only read.
#![tactic(auto)]

pub mod search;

ghost use Rattle.std.specs.Prelude.{◌≡◌, ℕ, length};
ghost use Rattle.outcome.specs.Result.{number_in, length_in};
ghost use Rattle.nearest.specs.Nearest.{measured_of, measured_ok, SuggestsByStore};

use image::write_profile_line;
use outcome::Refusal;
use profile::rules::{country_obeys, is_nominal_hertz};
use profile::{Country, LONGEST};
use search::find_nearest;
use store::STORE_SIZE;
use store::slots::StoreImage;

// The greatest voltage that may be measured.
pub const MOST_VOLTS: u32 = 2000;

// How far from the measured volts a profile's nominal ones may be.
pub const REACH: u32 = 40;

// What a fitter knows: the country, its hertz, and the volts that were measured. It may hold anything.
#[derive(Clone, Copy)]
pub struct Measured {
    pub country: Country,
    pub hertz: u32,
    pub volts: u32,
}

// Two letters A to Z, 50 or 60 hertz, and volts that may be measured.
#[tactic(auto, unfolding(crate::specs::Nearest::measured_ok))]
fn measured_ok(m: Measured) -> bool
    ensures { result ≡ measured_ok m }
{
    country_obeys(m.country) && is_nominal_hertz(m.hertz) && m.volts <= MOST_VOLTS
}

// Two bytes and two numbers as a measurement.
fn measured_of(country: &[u8], hertz: u32, volts: u32) -> Measured
    requires { length country.now ≡ 2 }
    ensures { result ≡ measured_of country.now hertz volts }
{
    let country = Country {
        first: country[0],
        second: country[1],
    };
    Measured {
        country,
        hertz,
        volts,
    }
}

// Writes the line of the stored profile of a country and hertz whose nominal volts are nearest to the measured ones, and
// returns its length.
pub fn nearest(
    store: &[u8],
    country: &[u8],
    hertz: u32,
    volts: u32,
    out: &mut [u8],
) -> Result<usize, Refusal>
    ensures { (before : ℕ) → SuggestsByStore store.now country.now hertz volts
        out.old before (number_in result) out.new (length_in before result) }
{
    if country.len() != 2 {
        return Err(Refusal::BadDevice);
    }
    let measured = measured_of(country, hertz, volts);
    if !measured_ok(measured) {
        return Err(Refusal::BadDevice);
    }
    if store.len() != STORE_SIZE {
        return Err(Refusal::BadSize);
    }
    if out.len() != LONGEST {
        return Err(Refusal::BadSize);
    }
    let store = StoreImage { bytes: store };
    let slot = find_nearest(store, measured).ok_or(Refusal::NotStored)?;
    write_profile_line(store.table(), store.profile_at(slot), out)
}
