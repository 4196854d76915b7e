// The slots of a store's image. A search reads the bytes of a slot that decide, and not the profile.
ghost use Rattle.std.specs.Prelude.{◌≡◌, true, ◌<◌, length, drop};
ghost use Rattle.image.specs.Image.{profile_of, has_image};
ghost use Rattle.store.specs.Keys.{key_of};
ghost use Rattle.store.specs.Stored.{capacity, slots_size, store_size, slot_of, slots_of, slot_bytes, SlotWritten};
ghost use Rattle.store.specs.Stored.{is_free, holding, first_slot};

use super::{Key, SLOTS_SIZE, is_used};
use image::PROFILE_SIZE;
use image::read::read_profile;
use image::write::write_profile;
use profile::{Country, Profile};
use words::word_at;

// A slot, by its place.
#[derive(Clone, Copy, PartialEq, Eq)]
pub struct Slot {
    pub place: u8,
    pub ghost in_store: { place < capacity },
}

// The lent image of a store.
#[derive(Clone, Copy)]
pub struct StoreImage<'a> {
    pub bytes: &'a [u8],
    pub ghost whole: { length bytes.now ≡ store_size },
}

// What the profile in a slot is stored under.
#[tactic(auto, unfolding(image::specs::Image::profile_of))]
pub fn key_at(slot: &[u8; PROFILE_SIZE]) -> Key
    ensures { result ≡ key_of (profile_of slot.now) }
{
    Key {
        country: Country {
            first: slot[1],
            second: slot[2],
        },
        class: slot[3] as u32,
        hertz: word_at(slot, 12),
    }
}

// The slot holds a profile of the key. Its hertz, a number of four bytes, are read last.
#[tactic(auto, unfolding(image::specs::Image::profile_of, crate::specs::Keys::same_key))]
fn slot_holds(slot: &[u8; PROFILE_SIZE], key: Key) -> bool
    ensures { result ≡ holding key (slot_of slot.now) }
{
    is_used(slot)
        && slot[1] == key.country.first
        && slot[2] == key.country.second
        && slot[3] as u32 == key.class
        && word_at(slot, 12) == key.hertz
}

impl<'a> StoreImage<'a> {
    ghost use Rattle.store.specs.InnerSlots.{slot_in, slot_parts};

    // The bytes of the slots, one slot after the other.
    pub fn slots(&self) -> &'a [[u8; PROFILE_SIZE]]
        ensures slots { result.now ≡ slot_parts capacity self.now.bytes.now }
        ensures len { length result.now ≡ capacity }
    {
        self.bytes[..SLOTS_SIZE].as_chunks::<PROFILE_SIZE>().0
    }

    // The bytes of one slot.
    #[tactic(auto, using(crate::proofs::PlaceLaws::part_at))]
    pub fn slot(&self, slot: Slot) -> &'a [u8; PROFILE_SIZE]
        ensures { result.now ≡ slot_bytes slot.place self.now.bytes.now }
    {
        &self.slots()[slot.place as usize]
    }

    // The class table behind the slots.
    #[tactic(auto, using(crate::proofs::ClassLaws::behind))]
    pub fn table(&self) -> &'a [u8]
        ensures { result.now ≡ drop slots_size self.now.bytes.now }
    {
        &self.bytes[SLOTS_SIZE..]
    }

    // The first slot that holds a profile of the key.
    pub fn find_key(&self, key: Key) -> Option<Slot>
        ensures { slot_in result ≡ first_slot (holding key) (slots_of capacity self.now.bytes.now) }
    {
        let place = self.slots().iter().position(|slot| slot_holds(slot, key))?;
        Some(Slot { place: place as u8 })
    }

    // The first slot that is not used.
    pub fn find_free(&self) -> Option<Slot>
        ensures { slot_in result ≡ first_slot is_free (slots_of capacity self.now.bytes.now) }
    {
        let place = self.slots().iter().position(|slot| !is_used(slot))?;
        Some(Slot { place: place as u8 })
    }

    // The profile in a slot. That of a slot that is not used means nothing.
    pub fn profile_at(&self, slot: Slot) -> Profile
        ensures { result ≡ profile_of (slot_bytes slot.place self.now.bytes.now) }
    {
        read_profile(self.slot(slot))
    }
}

// Writes a profile into a slot, and no other byte.
pub fn write_slot(store: &mut [u8], slot: Slot, profile: Profile)
    requires store_len { length store.old ≡ store_size }
    requires profile_value { has_image profile ≡ true }
    ensures { SlotWritten slot.place profile store.old store.new }
{
    let at = PROFILE_SIZE * slot.place as usize;
    write_profile(profile, &mut store[at..at + PROFILE_SIZE]);
}
