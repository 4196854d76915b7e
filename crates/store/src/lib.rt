// The accepted profiles (document 01's shelf): sixteen slots, one profile for each country, class and hertz, and behind
// them the class table. A store is its image, and every image is a store, also one that no run of calls makes.
#![tactic(auto)]

pub mod slots;

ghost use Rattle.std.specs.Prelude.{◌≡◌, ◌+◌, ◌*◌, ◌≤◌, ℕ, length};
ghost use Rattle.outcome.specs.Result.{number_in, length_in};
ghost use Rattle.profile.specs.Rules.{classes};
ghost use Rattle.profile.specs.Table.{row_size, rows_from, table_of};
ghost use Rattle.store.specs.Keys.{key_of, device_of, device_key, has_class, device_ok};
ghost use Rattle.store.specs.Stored.{slot_of, classes_of};
ghost use Rattle.store.specs.Calls.{LooksUpByStore, Puts};

use image::write::has_image;
use image::{PROFILE_SIZE, write_profile_line};
use outcome::Refusal;
use profile::rules::{country_obeys, is_nominal_hertz};
use profile::table::{FIRST_ROW, ROW_SIZE, TABLE_SIZE, rows_used};
use profile::{Country, LONGEST, Profile};
use slots::{StoreImage, write_slot};
use words::word_at;

// How many profiles a store holds.
pub const CAPACITY: usize = 16;

// The length of the slots: here the table begins.
pub const SLOTS_SIZE: usize = CAPACITY * PROFILE_SIZE;

// The length of a store's image.
pub const STORE_SIZE: usize = SLOTS_SIZE + TABLE_SIZE;

// What a profile is stored under.
#[derive(Clone, Copy, PartialEq, Eq)]
pub struct Key {
    pub country: Country,
    pub class: u32,
    pub hertz: u32,
}

// The country, class and hertz that a device is set to. It may hold anything.
#[derive(Clone, Copy)]
pub struct Device {
    pub country: Country,
    pub class: u32,
    pub hertz: u32,
}

impl Key {
    // What the profile is stored under.
    fn of(profile: Profile) -> Key
        ensures { result ≡ key_of profile }
    {
        Key {
            country: profile.country,
            class: profile.class as u32,
            hertz: profile.hertz,
        }
    }
}

impl Device {
    // What a profile of the device is stored under.
    pub fn key(self) -> Key
        ensures { result ≡ device_key self }
    {
        Key {
            country: self.country,
            class: self.class,
            hertz: self.hertz,
        }
    }
}

// A, B, C or D, the built-in classes.
fn is_class(class: u32) -> bool
    ensures { result ≡ has_class classes class }
{
    matches!(class, 65..=68)
}

// The letter is that of a class in the first rows of a table.
#[tactic(auto, using(profile::proofs::TableLaws::row_by_row))]
fn is_class_in_rows(table: &[u8], rows: usize, class: u32) -> bool
    requires { 4 + row_size * rows ≤ length table.now }
    ensures { result ≡ has_class (rows_from table.now 0 rows) class }
{
    for i in 0..rows {
        if word_at(table, FIRST_ROW + ROW_SIZE * i) == class {
            return true;
        }
    }
    false
}

// The letter is that of a class of the table.
#[tactic(auto, using(profile::proofs::TableLaws::meanings))]
fn is_class_in(table: &[u8], class: u32) -> bool
    ensures { result ≡ has_class (table_of table.now) class }
{
    let rows = rows_used(table);
    if rows == 0 {
        return is_class(class);
    }
    is_class_in_rows(table, rows, class)
}

// The device is set to two letters A to Z, to a class of the table, and to 50 or 60 hertz.
#[tactic(auto, unfolding(crate::specs::Keys::device_ok))]
fn is_setting(table: &[u8], device: Device) -> bool
    ensures { result ≡ device_ok (table_of table.now) device }
{
    country_obeys(device.country)
        && is_class_in(table, device.class)
        && is_nominal_hertz(device.hertz)
}

// Whether one slot of an image is used: its first byte is not 0.
pub fn is_used(slot: &[u8; PROFILE_SIZE]) -> bool
    ensures { result ≡ (slot_of slot.now).used }
{
    slot[0] != 0
}

// The setting that two bytes and two numbers make.
pub fn device_of(country: &[u8], class: u32, hertz: u32) -> Device
    requires { length country.now ≡ 2 }
    ensures { result ≡ device_of country.now class hertz }
{
    let country = Country {
        first: country[0],
        second: country[1],
    };
    Device {
        country,
        class,
        hertz,
    }
}

// The device is set to two letters A to Z, to a class of the store's table, and to 50 or 60 hertz. A store of another
// size counts as one with the built-in classes.
#[tactic(auto, using(crate::proofs::ClassLaws::no_table, crate::proofs::ClassLaws::behind_slots))]
pub fn device_ok(store: &[u8], device: Device) -> bool
    ensures { result ≡ device_ok (classes_of store.now) device }
{
    if store.len() < SLOTS_SIZE {
        return is_setting(&[], device);
    }
    is_setting(&store[SLOTS_SIZE..], device)
}

// Writes the line that a store has for a country, class and hertz, and returns its length.
pub fn lookup(
    store: &[u8],
    country: &[u8],
    class: u32,
    hertz: u32,
    out: &mut [u8],
) -> Result<usize, Refusal>
    ensures { (before : ℕ) → LooksUpByStore store.now country.now class hertz
        out.old before (number_in result) out.new (length_in before result) }
{
    if country.len() != 2 {
        return Err(Refusal::BadDevice);
    }
    let device = device_of(country, class, hertz);
    if !device_ok(store, device) {
        return Err(Refusal::BadDevice);
    }
    if store.len() != STORE_SIZE {
        return Err(Refusal::BadSize);
    }
    if out.len() != LONGEST {
        return Err(Refusal::BadSize);
    }
    let store = StoreImage { bytes: store };
    let slot = store.find_key(device.key()).ok_or(Refusal::NotStored)?;
    write_profile_line(store.table(), store.profile_at(slot), out)
}

// Stores a profile of the device's own country, class and hertz, in place of an older one of these or in a free slot.
// Callers ask for the profile's rules and `device_ok` first; here it is enough that an image can mean the profile.
pub fn put(store: &mut [u8], profile: Profile, device: Device) -> Result<(), Refusal>
    ensures { Puts device profile store.old (number_in result) store.new }
{
    if store.len() != STORE_SIZE {
        return Err(Refusal::BadSize);
    }
    if !has_image(profile) {
        return Err(Refusal::BadProfile);
    }
    let key = Key::of(profile);
    if key != device.key() {
        return Err(Refusal::OtherDevice);
    }
    let image = StoreImage { bytes: store };
    let slot = match image.find_key(key) {
        Some(held) => {
            if profile.serial <= image.profile_at(held).serial {
                return Err(Refusal::OldSerial);
            }
            held
        }
        None => image.find_free().ok_or(Refusal::StoreFull)?,
    };
    write_slot(store, slot, profile);
    Ok(())
}
