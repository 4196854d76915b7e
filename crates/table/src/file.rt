// A table's file, read row after row into the table's image.
ghost use Rattle.std.specs.Prelude.{◌≡◌, ◌<◌, None, Some, length, replicate};
ghost use Rattle.outcome.specs.Answer.{pick};
ghost use Rattle.outcome.specs.Result.{number_in};
ghost use Rattle.decimal.specs.Decimal.{Room, Appended};
ghost use Rattle.profile.specs.Table.{table_size};
ghost use Rattle.table.specs.File.{row_text, row_in};
ghost use Rattle.table.specs.InnerRows.{row_of, fits_after, begins, RowsRead};

use decimal::{number_behind, write_decimal};
use outcome::Refusal;
use profile::table::{FIRST_ROW, MOST_ROWS, ROW_SIZE};
use words::{append_word, append_words};

// A row that was read.
#[derive(Clone, Copy)]
pub struct Row {
    pub letter: u8,
    pub low: u32,
    pub high: u32,
}

// A row has at most 24 bytes: a letter, two numbers of ten digits, two commas and LF.
const LONGEST_ROW: usize = 24;

// What stands where a row has its letter and its numbers; nothing is checked.
#[tactic(auto, unfolding(crate::specs::File::row_in))]
fn row_at(rest: &[u8]) -> Row
    requires { 0 < length rest.now }
    ensures { row_of result ≡ row_in rest.now }
{
    let low = number_behind(rest, 0, 2);
    let high = number_behind(rest, low.end, 1);
    Row {
        letter: rest[0],
        low: low.value,
        high: high.value,
    }
}

// Whether a row keeps the rules behind the one before it. That the letter is at least A and low at least 100 follows
// from the row before.
fn row_fits(before: Row, row: Row) -> bool
    ensures { result ≡ fits_after (row_of before) (row_of row) }
{
    before.letter < row.letter
        && before.high < row.low
        && row.letter <= b'Z'
        && row.low <= row.high
        && row.high <= 1000
}

// Writes a row as a file has it, and returns its length.
#[tactic(auto, using(crate::proofs::PlaceLaws::row_stored))]
fn append_row(row: Row, out: &mut [u8]) -> usize
    requires { Room out.old 0 (row_text (row_of row)) }
    ensures { Appended out.old 0 (row_text (row_of row)) out.new result }
{
    out[0] = row.letter;
    out[1] = b',';
    let comma = write_decimal(row.low, out, 2);
    out[comma] = b',';
    let end = write_decimal(row.high, out, comma + 1);
    out[end] = b'\n';
    end + 1
}

// The place after the row's text, where the rest of a file begins with it.
fn row_end(rest: &[u8], row: Row) -> Option<usize>
    ensures { result ≡ pick (begins (row_of row) rest.now) (Some (length (row_text (row_of row)))) None }
{
    let mut text = [0u8; LONGEST_ROW];
    let end = append_row(row, &mut text);
    rest.starts_with(&text[..end]).then_some(end)
}

// Reads a file into an image of zeros. Where it is no table's file, the image means nothing.
pub fn read_rows(file: &[u8], image: &mut [u8]) -> Result<(), Refusal>
    requires { image.old ≡ replicate table_size 0 }
    ensures { RowsRead file.now (number_in result) image.new }
{
    // Every row that keeps the rules by itself may stand behind this one.
    let mut before = Row {
        letter: 64,
        low: 0,
        high: 99,
    };
    let mut rest = file;
    let mut rows = 0;
    // The rows have no fixed length, so that nothing counts them before they are read.
    while !rest.is_empty() {
        if rows == MOST_ROWS {
            return Err(Refusal::BadTable);
        }
        let row = row_at(rest);
        if !row_fits(before, row) {
            return Err(Refusal::BadTable);
        }
        let end = row_end(rest, row).ok_or(Refusal::BadTable)?;
        let place = FIRST_ROW + ROW_SIZE * rows;
        append_words(row.letter as u32, row.low, row.high, image, place);
        before = row;
        rest = &rest[end..];
        rows += 1;
    }
    if rows == 0 {
        return Err(Refusal::BadTable);
    }
    append_word(rows as u32, image, 0);
    Ok(())
}
