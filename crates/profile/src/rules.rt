// The field rules.
ghost use Rattle.std.specs.Prelude.{◌≡◌, ◌&&◌, [], ◌∷◌, take, drop};
ghost use Rattle.profile.specs.Rules.{◌to◌, contains, in_one_of, kind_number, kind_of, size_of, number};
ghost use Rattle.profile.specs.Rules.{trip_fields, rate_fields, fields_of};
ghost use Rattle.profile.specs.Rules.{GP1, kind_for, line_kind, nominal_hertz, trip_rules, rate_rules, rules, obeys};
ghost use Rattle.profile.specs.Rules.{class_in, is_class, letters};
ghost use Rattle.profile.specs.Rules.{valid as validUnder};
ghost use Rattle.profile.specs.Table.{table_of};

use super::table::class_in;
use super::{Country, Limit, Profile, Trip};

// What the number of a field is. The kinds of limits stand in images by their numbers.
#[derive(Clone, Copy, PartialEq, Eq)]
pub enum Kind {
    Share = 0,
    Above = 1,
    Below = 2,
    Plain = 3,
    Rate = 4,
}

impl Kind {
    pub fn number(self) -> u32
        ensures { result ≡ kind_number self }
    {
        self as u32
    }
}

impl Limit {
    pub fn kind(self) -> Kind
        ensures { result ≡ kind_of self }
    {
        match self {
            Limit::Share(_) => Kind::Share,
            Limit::Offset { below: true, .. } => Kind::Below,
            Limit::Offset { .. } => Kind::Above,
            Limit::Rate(_) => Kind::Rate,
        }
    }

    pub fn size(self) -> u32
        ensures { result ≡ size_of self }
    {
        match self {
            Limit::Share(size) | Limit::Rate(size) => size,
            Limit::Offset { millihertz, .. } => millihertz,
        }
    }
}

pub fn within(n: u32, low: u32, high: u32) -> bool
    ensures { result ≡ contains (low to high) n }
{
    low <= n && n <= high
}

pub fn is_letter(b: u8) -> bool
    ensures { result ≡ contains letters b }
{
    b.is_ascii_uppercase()
}

// 50 or 60.
pub fn is_nominal_hertz(hertz: u32) -> bool
    ensures { result ≡ in_one_of nominal_hertz hertz }
{
    hertz == 50 || hertz == 60
}

// Both letters of a country.
pub fn country_obeys(c: Country) -> bool
    ensures { result ≡ (contains letters c.first && contains letters c.second) }
{
    is_letter(c.first) && is_letter(c.second)
}

// Serial, nominal volts and hertz.
#[tactic(auto, unfolding(crate::specs::Rules::obeys))]
fn ratings_obey(serial: u32, volts: u32, hertz: u32) -> bool
    ensures { result ≡ obeys (take 3 (rules GP1)) (number serial ∷ number volts ∷ number hertz ∷ []) }
{
    within(serial, 1, u32::MAX) && within(volts, 100, 1000) && is_nominal_hertz(hertz)
}

// A trip point of a kind, with its limit in a range.
#[tactic(auto, unfolding(crate::specs::Rules::obeys))]
fn trip_obeys(t: Trip, kind: Kind, low: u32, high: u32) -> bool
    ensures { result ≡ obeys (trip_rules kind (low to high)) (trip_fields t) }
{
    t.limit.kind() == kind && within(t.limit.size(), low, high) && within(t.delay, 20, 60000)
}

// The rate point: where there is none, nothing can be broken.
#[tactic(auto, unfolding(crate::specs::Rules::obeys))]
fn rate_obeys(point: Option<Trip>) -> bool
    ensures { result ≡ obeys (rate_rules (kind_for point)) (rate_fields point) }
{
    match point {
        None => true,
        Some(t) => trip_obeys(t, Kind::Rate, 100, 10000),
    }
}

// The trip points.
#[tactic(auto, using(crate::proofs::RuleLaws::trips_apart))]
fn trips_obey(p: Profile) -> bool
    ensures { result ≡ obeys (drop 3 (rules (line_kind p))) (drop 3 (fields_of p)) }
{
    trip_obeys(p.over_voltage, Kind::Share, 1001, 1500)
        && trip_obeys(p.under_voltage, Kind::Share, 1, 999)
        && trip_obeys(p.over_frequency, Kind::Above, 1, 5000)
        && trip_obeys(p.under_frequency, Kind::Below, 1, 5000)
        && rate_obeys(p.rate_of_change)
}

// Whether a class is a letter, and that of the volts.
fn class_agrees(table: &[u8], volts: u32, class: u8) -> bool
    ensures { result ≡ (contains letters class && is_class (class_in (table_of table.now) volts) class) }
{
    is_letter(class) && class_in(table, volts) == Some(u32::from(class))
}

// Whether a profile keeps every field rule, its class among them.
#[tactic(auto, using(crate::proofs::RuleLaws::valid_apart))]
pub fn valid(table: &[u8], p: Profile) -> bool
    ensures { result ≡ validUnder (table_of table.now) p }
{
    country_obeys(p.country)
        && ratings_obey(p.serial, p.volts, p.hertz)
        && trips_obey(p)
        && class_agrees(table, p.volts, p.class)
}
