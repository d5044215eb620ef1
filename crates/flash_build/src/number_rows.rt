//! Records made of numbers in memory.

ghost use Rattle.std.specs.Prelude.{◌≡◌, ◌<◌, ◌≤◌, ◌+◌, ◌*◌, ◌++◌, [], ℕ, length, map, take, get_or};
ghost use Rattle.ghost_model.specs.forms.Runs.{number_cell};
ghost use Rattle.flash_build.specs.Levels.{items_of, numbers_record, numbers_records};

use flash_pages::filling::Records;

/// Puts a number at a place of a record in four bytes, most significant first.
fn put_number(out: &mut [u8; 256], at: usize, number: u32)
    requires { at + 4 ≤ 256 }
    ensures { take (at + 4) out.new ≡ take at out.old ++ number_cell number }
{
    out[at..at + 4].copy_from_slice(&number.to_be_bytes());
}

/// Columns of numbers, of which each row is a record.
#[derive(Drop)]
pub(crate) struct NumberRows<'n> {
    /// The columns.
    pub columns: &'n [Vec<u32>],
    /// The rows.
    pub rows: u32,
    ghost few: { length columns.now ≤ 12 },
    ghost long: { (column : ℕ) → column < length columns.now → length (get_or (map items_of columns.now) column []) ≡ rows },
}

impl<'n> Records for NumberRows<'n> {
    ghost records = { λ source. numbers_records (map items_of source.columns.now) source.rows };

    fn count(&self) -> u32 {
        self.rows
    }

    fn record<'a>(&'a self, i: u32, room: &'a mut [u8; 256]) -> &'a [u8] {
        let _ = self.rows;
        let width = put_row(self.columns, i as usize, room);
        &room[..width]
    }
}

/// Puts a number of each column, and tells how many bytes they are.
fn put_row(columns: &[Vec<u32>], row: usize, out: &mut [u8; 256]) -> usize
    requires few { length columns.now ≤ 12 }
    requires long { (column : ℕ) → column < length columns.now → row < length (get_or (map items_of columns.now) column []) }
    ensures few { result ≡ 4 * length columns.now }
    ensures put { take result out.new ≡ numbers_record (map items_of columns.now) row }
{
    for column in 0..columns.len() {
        put_number(out, 4 * column, columns[column][row]);
    }
    4 * columns.len()
}
