// Writing the image of a profile. That numbers are below 2^32, as every value of their type is, is ensured along with
// their bytes: so the image means the profile.
ghost use Rattle.std.specs.Prelude.{◌≡◌, true, ◌+◌, ◌≤◌, length};
ghost use Rattle.decimal.specs.Decimal.{Appended};
ghost use Rattle.image.specs.Image.{profile_size, head_image, trip_image, rate_image, trips_image};
ghost use Rattle.image.specs.Image.{is_rate, is_rate_point, has_image, TripFits, RateFits, TripsFit};
ghost use Rattle.image.specs.Image.{ProfileWritten};

use profile::rules::Kind;
use profile::{Profile, Trip};
use words::append_words;

// Writes a trip point from place `at`, and returns the place after it. So do the next three.
#[tactic(auto, unfolding(crate::specs::Image::trip_image))]
fn append_trip(t: Trip, out: &mut [u8], at: usize) -> usize
    requires { at + 12 ≤ length out.old }
    ensures appended { Appended out.old at (trip_image t) out.new result }
    ensures trip_fits { TripFits t }
{
    append_words(t.limit.kind().number(), t.limit.size(), t.delay, out, at)
}

#[tactic(auto, unfolding(crate::specs::Image::rate_image))]
fn append_rate(point: Option<Trip>, out: &mut [u8], at: usize) -> usize
    requires { at + 12 ≤ length out.old }
    ensures appended { Appended out.old at (rate_image point) out.new result }
    ensures rate_fits { RateFits point }
{
    match point {
        None => append_words(0, 0, 0, out, at),
        Some(t) => append_words(1, t.limit.size(), t.delay, out, at),
    }
}

#[tactic(auto, using(crate::proofs::ImageLaws::trips_stored))]
fn append_trips(p: Profile, out: &mut [u8], at: usize) -> usize
    requires { at + 60 ≤ length out.old }
    ensures appended { Appended out.old at (trips_image p) out.new result }
    ensures trips_fit { TripsFit p }
{
    let second = append_trip(p.over_voltage, out, at);
    let third = append_trip(p.under_voltage, out, second);
    let fourth = append_trip(p.over_frequency, out, third);
    let fifth = append_trip(p.under_frequency, out, fourth);
    append_rate(p.rate_of_change, out, fifth)
}

// The first byte, country and class.
fn append_head(p: Profile, out: &mut [u8]) -> usize
    requires { 4 ≤ length out.old }
    ensures { Appended out.old 0 (head_image p) out.new result }
{
    out[0] = 1;
    out[1] = p.country.first;
    out[2] = p.country.second;
    out[3] = p.class;
    4
}

fn is_rate(t: Trip) -> bool
    ensures { result ≡ is_rate t }
{
    t.limit.kind() == Kind::Rate
}

fn is_rate_point(point: Option<Trip>) -> bool
    ensures { result ≡ is_rate_point point }
{
    match point {
        None => true,
        Some(t) => is_rate(t),
    }
}

// Whether an image can mean the profile: one with a rate among its voltages has none.
pub fn has_image(p: Profile) -> bool
    ensures { result ≡ has_image p }
{
    !is_rate(p.over_voltage)
        && !is_rate(p.under_voltage)
        && !is_rate(p.over_frequency)
        && !is_rate(p.under_frequency)
        && is_rate_point(p.rate_of_change)
}

pub fn write_profile(p: Profile, out: &mut [u8])
    requires p_value { has_image p ≡ true }
    requires out_len { length out.old ≡ profile_size }
    ensures { ProfileWritten p out.new }
{
    let ratings = append_head(p, out);
    let trips = append_words(p.serial, p.volts, p.hertz, out, ratings);
    append_trips(p, out, trips);
}
