// Taking the numbers from where a line has them.
ghost use Rattle.std.specs.Prelude.{◌≡◌, ◌≤◌, length, take};
ghost use Rattle.outcome.specs.Lists.{same};
ghost use Rattle.profile.specs.Rules.{GP2};
ghost use Rattle.profile.specs.Line.{tag, lead, limit_of, kind_in, scanned};
ghost use Rattle.profile.specs.InnerPlaces.{FieldAt, TripAt, RateAt};

use super::rules::Kind;
use super::{Country, Limit, Profile, Trip};
use decimal::{Number, number_behind};

// A trip point that was read, and the place after it.
#[derive(Clone, Copy)]
pub struct TripRead {
    pub trip: Trip,
    pub end: usize,
}

// How many bytes stand before a field's digits.
fn lead_length(kind: Kind) -> usize
    ensures { result ≡ length (lead kind) }
{
    if kind == Kind::Below { 2 } else { 1 }
}

// The number of a field whose comma stands at place `at`.
#[tactic(auto, unfolding(crate::specs::Line::field_number, crate::specs::Line::after_field))]
fn field_at(line: &[u8], at: usize, kind: Kind) -> Number
    requires { at ≤ length line.now }
    ensures { FieldAt line.now at kind result }
{
    number_behind(line, at, lead_length(kind))
}

// The limit that a field of this kind means.
fn limit_of(kind: Kind, size: u32) -> Limit
    ensures { result ≡ limit_of kind size }
{
    match kind {
        Kind::Share => Limit::Share(size),
        Kind::Rate => Limit::Rate(size),
        _ => Limit::Offset {
            below: kind == Kind::Below,
            millihertz: size,
        },
    }
}

// A trip point whose first comma stands at place `at`.
fn trip_at(line: &[u8], at: usize, kind: Kind) -> TripRead
    requires { at ≤ length line.now }
    ensures { TripAt line.now at kind result }
{
    let size = field_at(line, at, kind);
    let delay = field_at(line, size.end, Kind::Plain);
    TripRead {
        trip: Trip {
            limit: limit_of(kind, size.value),
            delay: delay.value,
        },
        end: delay.end,
    }
}

// Whether a line begins as one with a rate point does.
fn is_rated(line: &[u8]) -> bool
    ensures { result ≡ same (take 4 line.now) (tag GP2) }
{
    line.starts_with(b"GP2,")
}

// Whether a line begins with the tag of either kind.
pub fn is_tagged(line: &[u8]) -> bool
    ensures { result ≡ same (take 4 line.now) (tag (kind_in line.now)) }
{
    is_rated(line) || line.starts_with(b"GP1,")
}

// The rate point whose first comma stands at place `at`, where the line is of the kind that has one.
fn rate_at(line: &[u8], at: usize) -> Option<Trip>
    requires { at ≤ length line.now }
    ensures { RateAt line.now at result }
{
    if !is_rated(line) {
        return None;
    }
    let read = trip_at(line, at, Kind::Rate);
    Some(read.trip)
}

// What stands where a line has its fields; nothing is checked.
pub fn scan(line: &[u8]) -> Profile
    requires { 8 ≤ length line.now }
    ensures { result ≡ scanned line.now }
{
    let serial = field_at(line, 8, Kind::Plain);
    let volts = field_at(line, serial.end, Kind::Plain);
    let hertz = field_at(line, volts.end, Kind::Plain);
    let over_voltage = trip_at(line, hertz.end, Kind::Share);
    let under_voltage = trip_at(line, over_voltage.end, Kind::Share);
    let over_frequency = trip_at(line, under_voltage.end, Kind::Above);
    let under_frequency = trip_at(line, over_frequency.end, Kind::Below);
    let rate_of_change = rate_at(line, under_frequency.end);
    Profile {
        country: Country {
            first: line[4],
            second: line[5],
        },
        class: line[7],
        serial: serial.value,
        volts: volts.value,
        hertz: hertz.value,
        over_voltage: over_voltage.trip,
        under_voltage: under_voltage.trip,
        over_frequency: over_frequency.trip,
        under_frequency: under_frequency.trip,
        rate_of_change,
    }
}
