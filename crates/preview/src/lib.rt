// The preview: what a device would hold after the lines of an input, each stored as if it were signed.
#![tactic(auto)]

ghost use Rattle.std.specs.Prelude.{◌≡◌, ◌≤◌, T, length};
ghost use Rattle.decimal.specs.Decimal.{Room, Appended};
ghost use Rattle.profile.specs.Rules.{valid};
ghost use Rattle.profile.specs.Table.{table_of};
ghost use Rattle.profile.specs.Line.{read_line};
ghost use Rattle.store.specs.Stored.{store_size, stored};
ghost use Rattle.store.specs.Reached.{Run};
ghost use Rattle.order.specs.Order.{in_order};
ghost use Rattle.order.specs.InnerPlaces.{places_of, profiles_at};
ghost use Rattle.preview.specs.Preview.{cut, calls_of, calls_in, key_bytes, row, rows, LineFound, Previews};

use decimal::write_decimal;
use order::order_slots;
use outcome::Refusal;
use profile::table::TABLE_SIZE;
use profile::{Profile, read_line};
use store::slots::{Slot, StoreImage};
use store::{CAPACITY, Device, STORE_SIZE, put};

// How many bytes are lent for the listing: the header and a row for each slot have room.
pub const LENT_SIZE: usize = 331;

// A longer input is not looked at.
pub const LONGEST_INPUT: usize = 65536;

// The place after the line that begins at `start`, where an LF ends that line.
fn line_end(input: &[u8], start: usize) -> Option<usize>
    requires { start ≤ length input.now }
    ensures { LineFound input.now start result }
{
    let place = input[start..].iter().position(|b| *b == b'\n')?;
    Some(start + place + 1)
}

// Stores a valid profile as a device of its own country, class and hertz does, under the classes of a table. What is
// stored does not depend on the table of the local store.
fn hold(table: &[u8], store: &mut [u8], profile: Profile)
    requires store_len { length store.old ≡ store_size }
    requires t { T (valid (table_of table.now) profile) }
    ensures { Run (table_of table.now) (stored store.old) (calls_of (Ok profile))
        (stored store.new) }
{
    let device = Device {
        country: profile.country,
        class: profile.class as u32,
        hertz: profile.hertz,
    };
    // What is refused changes nothing.
    let _ = put(store, profile, device);
}

// A line that is refused changes nothing.
fn hold_line(table: &[u8], store: &mut [u8], line: &[u8])
    requires { length store.old ≡ store_size }
    ensures { Run (table_of table.now) (stored store.old)
        (calls_of (read_line (table_of table.now) line.now)) (stored store.new) }
{
    match read_line(table, line) {
        Ok(profile) => hold(table, store, profile),
        Err(_) => {}
    }
}

// Stores the profiles of all lines of the input, in their order.
fn hold_lines(table: &[u8], store: &mut [u8], input: &[u8])
    requires { length store.old ≡ store_size }
    ensures { Run (table_of table.now) (stored store.old)
        (calls_in (table_of table.now) (cut input.now)) (stored store.new) }
{
    let mut at = 0;
    while let Some(end) = line_end(input, at) {
        hold_line(table, store, &input[at..end]);
        at = end;
    }
}

// Copies a text to the front of the lent bytes, and returns its length.
fn append_text(text: &[u8], out: &mut [u8]) -> usize
    requires { Room out.old 0 text.now }
    ensures { Appended out.old 0 text.now out.new result }
{
    let end = text.len();
    out[..end].copy_from_slice(text);
    end
}

// Writes a profile's country, class and hertz from place `at`, and returns the place after them.
fn append_key(p: Profile, out: &mut [u8], at: usize) -> usize
    requires { Room out.old at (key_bytes p) }
    ensures { Appended out.old at (key_bytes p) out.new result }
{
    let letters = [p.country.first, p.country.second, b',', p.class, b','];
    let hertz = at + 5;
    out[at..hertz].copy_from_slice(&letters);
    let end = write_decimal(p.hertz, out, hertz);
    out[end] = b',';
    end + 1
}

// Its row: these, then the serial.
fn append_row(p: Profile, out: &mut [u8], at: usize) -> usize
    requires { Room out.old at (row p) }
    ensures { Appended out.old at (row p) out.new result }
{
    let serial = append_key(p, out, at);
    let end = write_decimal(p.serial, out, serial);
    out[end] = b'\n';
    end + 1
}

// The rows of the slots at these places, in the order of the places.
fn append_places(store: StoreImage<'_>, places: &[Slot], out: &mut [u8], at: usize) -> usize
    requires { Room out.old at (rows (profiles_at store.bytes.now (places_of places.now))) }
    ensures { Appended out.old at (rows (profiles_at store.entry.bytes.now (places_of places.now)))
        out.new result }
{
    let mut next = at;
    for &slot in places {
        next = append_row(store.profile_at(slot), out, next);
    }
    next
}

// The rows of everything stored, in order.
fn append_rows(store: StoreImage<'_>, out: &mut [u8], at: usize) -> usize
    requires { Room out.old at (rows (in_order (stored store.bytes.now))) }
    ensures { Appended out.old at (rows (in_order (stored store.entry.bytes.now))) out.new result }
{
    let mut places = [Slot { place: 0 }; CAPACITY];
    let count = order_slots(store, &mut places);
    append_places(store, &places[..count], out, at)
}

// Writes the listing at the front of the lent bytes, and answers its length. The store that the lines fill is a local
// one, empty at first.
pub fn preview(table: &[u8], input: &[u8], out: &mut [u8]) -> Result<usize, Refusal>
    ensures { Previews table.now input.now out.old result out.new }
{
    if table.len() != TABLE_SIZE {
        return Err(Refusal::BadSize);
    }
    if out.len() != LENT_SIZE {
        return Err(Refusal::BadSize);
    }
    if input.len() > LONGEST_INPUT {
        return Ok(append_text(b"too long\n", out));
    }
    let mut store = [0u8; STORE_SIZE];
    hold_lines(table, &mut store, input);
    let at = append_text(b"COUNTRY,CLASS,HERTZ,SERIAL\n", out);
    let held = StoreImage { bytes: &store };
    Ok(append_rows(held, out, at))
}
