// The profile that an image means.
ghost use Rattle.std.specs.Prelude.{◌≡◌, ◌+◌, ◌≤◌, length};
ghost use Rattle.image.specs.Image.{profile_size, limit_from, trip_of, rate_of, profile_of};

use profile::{Country, Limit, Profile, Trip};
use words::word_at;

fn limit_from(kind: u32, size: u32) -> Limit
    ensures { result ≡ limit_from kind size }
{
    match kind {
        0 => Limit::Share(size),
        1 => Limit::Offset {
            below: false,
            millihertz: size,
        },
        _ => Limit::Offset {
            below: true,
            millihertz: size,
        },
    }
}

#[tactic(auto, unfolding(crate::specs::Image::trip_of))]
fn trip_at(image: &[u8], at: usize) -> Trip
    requires { at + 12 ≤ length image.now }
    ensures { result ≡ trip_of image.now at }
{
    Trip {
        limit: limit_from(word_at(image, at), word_at(image, at + 4)),
        delay: word_at(image, at + 8),
    }
}

#[tactic(auto, unfolding(crate::specs::Image::rate_of))]
fn rate_at(image: &[u8], at: usize) -> Option<Trip>
    requires { at + 12 ≤ length image.now }
    ensures { result ≡ rate_of image.now at }
{
    if word_at(image, at) == 0 {
        return None;
    }
    let limit = Limit::Rate(word_at(image, at + 4));
    let delay = word_at(image, at + 8);
    Some(Trip { limit, delay })
}

#[tactic(auto, unfolding(crate::specs::Image::profile_of))]
pub fn read_profile(image: &[u8]) -> Profile
    requires { length image.now ≡ profile_size }
    ensures { result ≡ profile_of image.now }
{
    Profile {
        country: Country {
            first: image[1],
            second: image[2],
        },
        class: image[3],
        serial: word_at(image, 4),
        volts: word_at(image, 8),
        hertz: word_at(image, 12),
        over_voltage: trip_at(image, 16),
        under_voltage: trip_at(image, 28),
        over_frequency: trip_at(image, 40),
        under_frequency: trip_at(image, 52),
        rate_of_change: rate_at(image, 64),
    }
}
