// The C interface: every entry over bytes and numbers, under its name in C. A slice is a pointer and a length in C. Each
// is one call of the function of the same name in crate gridprofile, and has that function's contract.
#![tactic(auto)]

pub mod category1;
pub mod category3;
pub mod category5;

ghost use Rattle.shake.specs.Shake.{Hashes128, Hashes256};
ghost use Rattle.packing.specs.Packing.{PacksValues, UnpacksValues, PacksExponents, UnpacksExponents};
ghost use Rattle.image.specs.Entries.{ReadsImage, WritesImage};
ghost use Rattle.store.specs.Calls.{LooksUpByStore};
ghost use Rattle.nearest.specs.Nearest.{SuggestsByStore};
ghost use Rattle.preview.specs.Preview.{PreviewsTo};
ghost use Rattle.evaluate.specs.Evaluate.{EvaluatesLine};
ghost use Rattle.table.specs.File.{ReadsTable, LoadsTable};

#[unsafe(no_mangle)]
pub extern "C" fn gridprofile_shake128(input: &[u8], out: &mut [u8])
    ensures { Hashes128 input.now out.old out.new }
{
    gridprofile::gridprofile_shake128(input, out);
}

#[unsafe(no_mangle)]
pub extern "C" fn gridprofile_shake256(input: &[u8], out: &mut [u8])
    ensures { Hashes256 input.now out.old out.new }
{
    gridprofile::gridprofile_shake256(input, out);
}

#[unsafe(no_mangle)]
pub extern "C" fn gridprofile_pack_values(values: &[u8], packed: &mut [u8]) -> u8
    ensures { PacksValues values.now packed.old result packed.new }
{
    gridprofile::gridprofile_pack_values(values, packed)
}

#[unsafe(no_mangle)]
pub extern "C" fn gridprofile_unpack_values(packed: &[u8], values: &mut [u8]) -> u8
    ensures { UnpacksValues packed.now values.old result values.new }
{
    gridprofile::gridprofile_unpack_values(packed, values)
}

#[unsafe(no_mangle)]
pub extern "C" fn gridprofile_pack_exponents(exponents: &[u8], packed: &mut [u8]) -> u8
    ensures { PacksExponents exponents.now packed.old result packed.new }
{
    gridprofile::gridprofile_pack_exponents(exponents, packed)
}

#[unsafe(no_mangle)]
pub extern "C" fn gridprofile_unpack_exponents(packed: &[u8], exponents: &mut [u8]) -> u8
    ensures { UnpacksExponents packed.now exponents.old result exponents.new }
{
    gridprofile::gridprofile_unpack_exponents(packed, exponents)
}

#[unsafe(no_mangle)]
pub extern "C" fn gridprofile_read_line(table: &[u8], line: &[u8], profile: &mut [u8]) -> u8
    ensures { ReadsImage table.now line.now profile.old result profile.new }
{
    gridprofile::gridprofile_read_line(table, line, profile)
}

#[unsafe(no_mangle)]
pub extern "C" fn gridprofile_write_line(
    table: &[u8],
    profile: &[u8],
    out: &mut [u8],
    length: &mut usize,
) -> u8
    ensures { WritesImage table.now profile.now out.old length.old result
        out.new length.new }
{
    gridprofile::gridprofile_write_line(table, profile, out, length)
}

#[unsafe(no_mangle)]
pub extern "C" fn gridprofile_preview(
    table: &[u8],
    input: &[u8],
    out: &mut [u8],
    length: &mut usize,
) -> u8
    ensures { PreviewsTo table.now input.now out.old length.old result
        out.new length.new }
{
    gridprofile::gridprofile_preview(table, input, out, length)
}

#[unsafe(no_mangle)]
pub extern "C" fn gridprofile_lookup(
    store: &[u8],
    country: &[u8],
    class: u32,
    hertz: u32,
    out: &mut [u8],
    length: &mut usize,
) -> u8
    ensures { LooksUpByStore store.now country.now class hertz
        out.old length.old result out.new length.new }
{
    gridprofile::gridprofile_lookup(store, country, class, hertz, out, length)
}

#[unsafe(no_mangle)]
pub extern "C" fn gridprofile_nearest(
    store: &[u8],
    country: &[u8],
    hertz: u32,
    volts: u32,
    out: &mut [u8],
    length: &mut usize,
) -> u8
    ensures { SuggestsByStore store.now country.now hertz volts
        out.old length.old result out.new length.new }
{
    gridprofile::gridprofile_nearest(store, country, hertz, volts, out, length)
}

#[unsafe(no_mangle)]
pub extern "C" fn gridprofile_evaluate_line(
    table: &[u8],
    input: &[u8],
    out: &mut [u8],
    length: &mut usize,
) -> u8
    ensures { EvaluatesLine table.now input.now out.old length.old result
        out.new length.new }
{
    gridprofile::gridprofile_evaluate_line(table, input, out, length)
}

#[unsafe(no_mangle)]
pub extern "C" fn gridprofile_read_table(file: &[u8], table: &mut [u8]) -> u8
    ensures { ReadsTable file.now table.old result table.new }
{
    gridprofile::gridprofile_read_table(file, table)
}

#[unsafe(no_mangle)]
pub extern "C" fn gridprofile_load_table(store: &mut [u8], file: &[u8]) -> u8
    ensures { LoadsTable file.now store.old result store.new }
{
    gridprofile::gridprofile_load_table(store, file)
}
