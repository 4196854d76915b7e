// The customer's own class table: its file is read into its image, and loaded into a store.
#![tactic(auto)]

mod file;

ghost use Rattle.std.specs.Prelude.{◌≡◌};
ghost use Rattle.outcome.specs.Result.{number_in};
ghost use Rattle.store.specs.Stored.{stored};
ghost use Rattle.table.specs.File.{ReadsTable, is_empty, LoadsTable};

use file::read_rows;
use outcome::Refusal;
use profile::table::TABLE_SIZE;
use store::slots::StoreImage;
use store::{SLOTS_SIZE, STORE_SIZE, is_used};

// Reads a table's file into a lent image. The lent bytes change only where the file is read.
pub fn read_table(file: &[u8], table: &mut [u8]) -> Result<(), Refusal>
    ensures { ReadsTable file.now table.old (number_in result) table.new }
{
    if table.len() != TABLE_SIZE {
        return Err(Refusal::BadSize);
    }
    let mut image = [0u8; TABLE_SIZE];
    read_rows(file, &mut image)?;
    table.copy_from_slice(&image);
    Ok(())
}

// Whether a store holds no profile.
fn is_empty(store: StoreImage) -> bool
    ensures { result ≡ is_empty (stored store.entry.bytes.now) }
{
    store.slots().iter().all(|slot| !is_used(slot))
}

// Loads a table's file into a store, while it holds no profile: every profile there keeps the rules of its table.
pub fn load_table(store: &mut [u8], file: &[u8]) -> Result<(), Refusal>
    ensures { LoadsTable file.now store.old (number_in result) store.new }
{
    if store.len() != STORE_SIZE {
        return Err(Refusal::BadSize);
    }
    let mut image = [0u8; TABLE_SIZE];
    read_rows(file, &mut image)?;
    if !is_empty(StoreImage { bytes: store }) {
        return Err(Refusal::StoreInUse);
    }
    store[SLOTS_SIZE..].copy_from_slice(&image);
    Ok(())
}
