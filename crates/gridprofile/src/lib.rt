// What the C interface calls: every entry over bytes and numbers, which answers 0 or a refusal's number. Crate gridprofile_c
// exports it to C. What the sizes of a category decide are methods of `Entries`; the rest is here, under C's names.
#![tactic(auto)]

pub mod category1;
pub mod category3;
pub mod category5;
pub mod entries;

ghost use Rattle.shake.specs.Shake.{Hashes128, Hashes256};
ghost use Rattle.packing.specs.Packing.{PacksValues, UnpacksValues, PacksExponents, UnpacksExponents};
ghost use Rattle.image.specs.Entries.{ReadsImage, WritesImage};
ghost use Rattle.store.specs.Calls.{LooksUpByStore};
ghost use Rattle.nearest.specs.Nearest.{SuggestsByStore};
ghost use Rattle.preview.specs.Preview.{PreviewsTo};
ghost use Rattle.evaluate.specs.Evaluate.{EvaluatesLine};
ghost use Rattle.table.specs.File.{ReadsTable, LoadsTable};

use outcome::{number_in, store_length};
use packing::{EXPONENT, VALUE};

pub fn gridprofile_shake128(input: &[u8], out: &mut [u8])
    ensures { Hashes128 input.now out.old out.new }
{
    shake::shake128(input, out);
}

pub fn gridprofile_shake256(input: &[u8], out: &mut [u8])
    ensures { Hashes256 input.now out.old out.new }
{
    shake::shake256(input, out);
}

pub fn gridprofile_pack_values(values: &[u8], packed: &mut [u8]) -> u8
    ensures { PacksValues values.now packed.old result packed.new }
{
    number_in(packing::pack::<VALUE>(values, packed))
}

pub fn gridprofile_unpack_values(packed: &[u8], values: &mut [u8]) -> u8
    ensures { UnpacksValues packed.now values.old result values.new }
{
    number_in(packing::unpack::<VALUE>(packed, values))
}

pub fn gridprofile_pack_exponents(exponents: &[u8], packed: &mut [u8]) -> u8
    ensures { PacksExponents exponents.now packed.old result packed.new }
{
    number_in(packing::pack::<EXPONENT>(exponents, packed))
}

pub fn gridprofile_unpack_exponents(packed: &[u8], exponents: &mut [u8]) -> u8
    ensures { UnpacksExponents packed.now exponents.old result exponents.new }
{
    number_in(packing::unpack::<EXPONENT>(packed, exponents))
}

pub fn gridprofile_read_line(table: &[u8], line: &[u8], profile: &mut [u8]) -> u8
    ensures { ReadsImage table.now line.now profile.old result profile.new }
{
    number_in(image::read_line_image(table, line, profile))
}

pub fn gridprofile_write_line(
    table: &[u8],
    profile: &[u8],
    out: &mut [u8],
    length: &mut usize,
) -> u8
    ensures { WritesImage table.now profile.now out.old length.old result
        out.new length.new }
{
    store_length(image::write_line_image(table, profile, out), length)
}

pub fn gridprofile_preview(table: &[u8], input: &[u8], out: &mut [u8], length: &mut usize) -> u8
    ensures { PreviewsTo table.now input.now out.old length.old result
        out.new length.new }
{
    store_length(preview::preview(table, input, out), length)
}

pub fn gridprofile_lookup(
    store: &[u8],
    country: &[u8],
    class: u32,
    hertz: u32,
    out: &mut [u8],
    length: &mut usize,
) -> u8
    ensures { LooksUpByStore store.now country.now class hertz
        out.old length.old result out.new length.new }
{
    store_length(store::lookup(store, country, class, hertz, out), length)
}

pub fn gridprofile_nearest(
    store: &[u8],
    country: &[u8],
    hertz: u32,
    volts: u32,
    out: &mut [u8],
    length: &mut usize,
) -> u8
    ensures { SuggestsByStore store.now country.now hertz volts
        out.old length.old result out.new length.new }
{
    store_length(nearest::nearest(store, country, hertz, volts, out), length)
}

pub fn gridprofile_evaluate_line(
    table: &[u8],
    input: &[u8],
    out: &mut [u8],
    length: &mut usize,
) -> u8
    ensures { EvaluatesLine table.now input.now out.old length.old result
        out.new length.new }
{
    store_length(evaluate::evaluate_line(table, input, out), length)
}

pub fn gridprofile_read_table(file: &[u8], table: &mut [u8]) -> u8
    ensures { ReadsTable file.now table.old result table.new }
{
    number_in(table::read_table(file, table))
}

pub fn gridprofile_load_table(store: &mut [u8], file: &[u8]) -> u8
    ensures { LoadsTable file.now store.old result store.new }
{
    number_in(table::load_table(store, file))
}
