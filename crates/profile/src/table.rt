// Class tables, as images, bytes that C holds.
ghost use Rattle.std.specs.Prelude.{◌≡◌, ◌+◌, ◌*◌, ◌≤◌, length};
ghost use Rattle.profile.specs.Rules.{Classifies};
ghost use Rattle.profile.specs.Table.{row_size, rows_used, rows_from, table_of};

use super::class_of;
use super::rules::within;
use words::word_at;

// How many rows an image has.
pub const MOST_ROWS: usize = 26;

// The bytes of a row, and those before the first.
pub const ROW_SIZE: usize = 12;

pub const FIRST_ROW: usize = 4;

// The length of the image of a table.
pub const TABLE_SIZE: usize = FIRST_ROW + ROW_SIZE * MOST_ROWS;

// How many rows are used: none is the table of the built-in classes, and so is an image of another size.
#[tactic(auto, using(crate::proofs::TableLaws::sizes))]
pub fn rows_used(table: &[u8]) -> usize
    ensures { result ≡ rows_used table.now }
{
    if table.len() != TABLE_SIZE {
        return 0;
    }
    let count = word_at(table, 0) as usize;
    count.min(MOST_ROWS)
}

// The class by nominal volts under the first rows of a table.
#[tactic(auto, using(crate::proofs::TableLaws::row_by_row))]
fn class_in_rows(table: &[u8], rows: usize, volts: u32) -> Option<u32>
    requires { 4 + row_size * rows ≤ length table.now }
    ensures { Classifies (rows_from table.now 0 rows) volts result }
{
    for i in 0..rows {
        let at = FIRST_ROW + ROW_SIZE * i;
        let low = word_at(table, at + 4);
        let high = word_at(table, at + 8);
        if within(volts, low, high) {
            return Some(word_at(table, at));
        }
    }
    None
}

// The class by nominal volts under a table.
#[tactic(auto, using(crate::proofs::TableLaws::meanings))]
pub fn class_in(table: &[u8], volts: u32) -> Option<u32>
    ensures { Classifies (table_of table.now) volts result }
{
    let rows = rows_used(table);
    if rows == 0 {
        return class_of(volts);
    }
    class_in_rows(table, rows, volts)
}
