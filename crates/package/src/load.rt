// Loading a package: a profile is stored only where its signature holds and it is for this device.
ghost use Rattle.std.specs.Prelude.{◌≡◌};
ghost use Rattle.outcome.specs.Result.{number_in};
ghost use Rattle.profile.specs.Table.{table_of};
ghost use Rattle.package.specs.Entries.{Opens, LoadsByStore};

use crate::sizes;
use expand::scratch::Scratch;
use outcome::Refusal;
use profile::{Profile, read_line};
use store::{SLOTS_SIZE, STORE_SIZE, device_of, device_ok, put};

// The profile of a package's line, where sizes, signature and line are right, under the classes of a table.
pub fn open(
    table: &[u8],
    key: &[u8],
    sealed: &[u8],
    scratch: &mut Scratch<'_>,
) -> Result<Profile, Refusal>
    ensures profile { Opens scratch.old.category.sizes (table_of table.now) key.now sealed.now result }
    ensures category { scratch.new.category ≡ scratch.old.category }
{
    let p = scratch.category;
    sizes::check_open(p, key.len(), sealed.len())?;
    let size = scheme::signature_size(p);
    verifier::verify::verify(key, &sealed[size..], &sealed[..size], scratch)?;
    read_line(table, &sealed[size..])
}

// Stores the profile of a package for the device that is set to a country, class and hertz. The classes
// are the store's. Of the store's image one slot changes.
pub fn load(
    store: &mut [u8],
    key: &[u8],
    sealed: &[u8],
    country: &[u8],
    class: u32,
    hertz: u32,
    scratch: &mut Scratch<'_>,
) -> Result<(), Refusal>
    ensures store { LoadsByStore scratch.old.category.sizes key.now sealed.now country.now class hertz
        store.old (number_in result) store.new }
    ensures category { scratch.new.category ≡ scratch.old.category }
{
    if country.len() != 2 {
        return Err(Refusal::BadDevice);
    }
    let device = device_of(country, class, hertz);
    if !device_ok(store, device) {
        return Err(Refusal::BadDevice);
    }
    if store.len() != STORE_SIZE {
        return Err(Refusal::BadSize);
    }
    let profile = open(&store[SLOTS_SIZE..], key, sealed, scratch)?;
    put(store, profile, device)
}
