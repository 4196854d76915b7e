// The search through the slots of a store's image. It reads the bytes of a slot that decide, and not the profile.
ghost use Rattle.std.specs.Prelude.{◌≡◌};
ghost use Rattle.image.specs.Image.{profile_of};
ghost use Rattle.store.specs.Stored.{slot_of, slot_bytes, stored};
ghost use Rattle.nearest.specs.Nearest.{distance as apart, wins_tie, is_better, nearest_in};
ghost use Rattle.nearest.specs.InnerSearch.{near_slot, in_slot, seen};

use super::{Measured, REACH};
use image::PROFILE_SIZE;
use store::slots::{Slot, StoreImage, key_at};
use store::{CAPACITY, is_used};
use words::word_at;

// How far the volts of a slot's profile are from the measured ones.
#[tactic(auto, unfolding(image::specs::Image::profile_of))]
fn distance(slot: &[u8; PROFILE_SIZE], m: Measured) -> u32
    ensures { result ≡ apart (profile_of slot.now).volts m.volts }
{
    word_at(slot, 8).abs_diff(m.volts)
}

// The slot holds a profile of the country and the hertz that is within reach.
#[tactic(auto, unfolding(crate::specs::Nearest::is_of))]
fn slot_near(slot: &[u8; PROFILE_SIZE], m: Measured) -> bool
    ensures { result ≡ near_slot m (slot_of slot.now) }
{
    let key = key_at(slot);
    is_used(slot) && key.country == m.country && key.hertz == m.hertz && distance(slot, m) <= REACH
}

// Of two that are equally far the lower nominal volts win.
#[tactic(auto, unfolding(image::specs::Image::profile_of))]
fn wins_tie(slot: &[u8; PROFILE_SIZE], held: &[u8; PROFILE_SIZE]) -> bool
    ensures { result ≡ wins_tie (profile_of slot.now) (profile_of held.now) }
{
    word_at(slot, 8) < word_at(held, 8)
}

// The slot's profile is nearer than the one held, or as far and wins the tie.
#[tactic(auto, unfolding(crate::specs::Nearest::is_better))]
fn is_better(slot: &[u8; PROFILE_SIZE], held: &[u8; PROFILE_SIZE], m: Measured) -> bool
    ensures { result ≡ is_better m (profile_of slot.now) (profile_of held.now) }
{
    let far = distance(slot, m);
    let held_far = distance(held, m);
    far < held_far || far == held_far && wins_tie(slot, held)
}

// The better one of the slot held, if any, and another slot.
#[tactic(auto, unfolding(crate::specs::InnerSearch::seen))]
fn better_slot(store: StoreImage, m: Measured, held: Option<Slot>, slot: Slot) -> Option<Slot>
    ensures { in_slot result store.entry.bytes.now
        ≡ seen m (in_slot held store.entry.bytes.now)
        (slot_of (slot_bytes slot.place store.entry.bytes.now)) }
{
    if !slot_near(store.slot(slot), m) {
        return held;
    }
    match held {
        Some(other) if !is_better(store.slot(slot), store.slot(other), m) => held,
        _ => Some(slot),
    }
}

// The slot of the nearest profile.
#[tactic(auto, using(crate::proofs::NearLaws::seen_next, crate::proofs::NearLaws::seen_all))]
pub fn find_nearest(store: StoreImage, m: Measured) -> Option<Slot>
    ensures { in_slot result store.entry.bytes.now ≡ nearest_in m (stored store.entry.bytes.now) }
{
    let mut held = None;
    for place in 0..CAPACITY {
        held = better_slot(store, m, held, Slot { place: place as u8 });
    }
    held
}
