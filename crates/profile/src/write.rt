// Writing a line, each part after the one before it. Each function is lent the bytes, writes from a place, and returns the
// place after: a struct that held the bytes would need in each contract a clause that it still holds the same ones.
ghost use Rattle.std.specs.Prelude.{take, drop};
ghost use Rattle.decimal.specs.Decimal.{Room, Appended};
ghost use Rattle.profile.specs.Rules.{trip_fields, rate_fields, fields_of, kind_for};
ghost use Rattle.profile.specs.Line.{tag, field_bytes, written, head_of, line_of};

use super::rules::Kind;
use super::{Profile, Trip};
use decimal::write_decimal;

// Stores bytes from place `at`, and returns the place after them.
fn append_bytes(bytes: &[u8], out: &mut [u8], at: usize) -> usize
    requires { Room out.old at bytes.now }
    ensures { Appended out.old at bytes.now out.new result }
{
    let end = at + bytes.len();
    out[at..end].copy_from_slice(bytes);
    end
}

// The tag of the kind of line that has a rate point, where there is one.
fn append_tag(point: Option<Trip>, out: &mut [u8]) -> usize
    requires { Room out.old 0 (tag (kind_for point)) }
    ensures { Appended out.old 0 (tag (kind_for point)) out.new result }
{
    match point {
        None => append_bytes(b"GP1,", out, 0),
        Some(_) => append_bytes(b"GP2,", out, 0),
    }
}

// Tag, country and class.
#[tactic(auto, using(crate::proofs::LineLaws::stored))]
fn append_head(p: Profile, out: &mut [u8]) -> usize
    requires { Room out.old 0 (head_of p) }
    ensures { Appended out.old 0 (head_of p) out.new result }
{
    append_tag(p.rate_of_change, out);
    out[4] = p.country.first;
    out[5] = p.country.second;
    out[6] = b',';
    out[7] = p.class;
    8
}

// A comma, a minus where the number is below, and the number.
#[tactic(auto, using(crate::proofs::LineLaws::field_stored))]
fn append_field(kind: Kind, size: u32, out: &mut [u8], at: usize) -> usize
    requires { Room out.old at (field_bytes kind size) }
    ensures { Appended out.old at (field_bytes kind size) out.new result }
{
    out[at] = b',';
    if kind == Kind::Below {
        out[at + 1] = b'-';
        return write_decimal(size, out, at + 2);
    }
    write_decimal(size, out, at + 1)
}

// A limit and its delay.
#[tactic(auto, using(crate::proofs::LineLaws::trip_stored))]
fn append_trip(t: Trip, out: &mut [u8], at: usize) -> usize
    requires { Room out.old at (written (trip_fields t)) }
    ensures { Appended out.old at (written (trip_fields t)) out.new result }
{
    let next = append_field(t.limit.kind(), t.limit.size(), out, at);
    append_field(Kind::Plain, t.delay, out, next)
}

// Serial, nominal volts and hertz.
#[tactic(auto, using(crate::proofs::LineLaws::ratings_stored))]
fn append_ratings(p: Profile, out: &mut [u8], at: usize) -> usize
    requires { Room out.old at (written (take 3 (fields_of p))) }
    ensures { Appended out.old at (written (take 3 (fields_of p))) out.new result }
{
    let serial = append_field(Kind::Plain, p.serial, out, at);
    let volts = append_field(Kind::Plain, p.volts, out, serial);
    append_field(Kind::Plain, p.hertz, out, volts)
}

// The rate point, where there is one.
#[tactic(auto, using(crate::proofs::LineLaws::rate_stored))]
fn append_rate(point: Option<Trip>, out: &mut [u8], at: usize) -> usize
    requires { Room out.old at (written (rate_fields point)) }
    ensures { Appended out.old at (written (rate_fields point)) out.new result }
{
    match point {
        None => at,
        Some(t) => append_trip(t, out, at),
    }
}

// The trip points.
#[tactic(auto, using(crate::proofs::LineLaws::trips_stored))]
fn append_trips(p: Profile, out: &mut [u8], at: usize) -> usize
    requires { Room out.old at (written (drop 3 (fields_of p))) }
    ensures { Appended out.old at (written (drop 3 (fields_of p))) out.new result }
{
    let second = append_trip(p.over_voltage, out, at);
    let third = append_trip(p.under_voltage, out, second);
    let fourth = append_trip(p.over_frequency, out, third);
    let fifth = append_trip(p.under_frequency, out, fourth);
    append_rate(p.rate_of_change, out, fifth)
}

// The line of a profile, where it has room.
#[tactic(auto, using(crate::proofs::LineLaws::line_stored))]
pub fn append_line(p: Profile, out: &mut [u8]) -> usize
    requires { Room out.old 0 (line_of p) }
    ensures { Appended out.old 0 (line_of p) out.new result }
{
    let ratings = append_head(p, out);
    let trips = append_ratings(p, out, ratings);
    let end = append_trips(p, out, trips);
    out[end] = b'\n';
    end + 1
}
