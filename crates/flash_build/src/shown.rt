//! The values of a hidden column, as the entries of its index begin with them.

ghost use Rattle.std.specs.Prelude.{◌≡◌, ◌<◌, ◌^◌, ℕ, length, map};
ghost use Rattle.std.specs.List.{All};
ghost use Rattle.index_lists.specs.Ranks.{cells_of_rows};
ghost use Rattle.flash_build.specs.Sources.{cells_of};

use crate::source::ColumnCells;
use flash_pages::filling::Records;

/// The cells of the rows that show the values of a column, one for each value.
#[derive(Drop)]
pub(crate) struct ShownCells<'s, 'h> {
    /// The cells of the column.
    pub cells: &'s ColumnCells<'h>,
    /// The rows, which are counted from 0.
    pub rows: &'s [u32],
    ghost there: { All (λ row. row < length (cells_of cells.now)) rows.now },
    ghost few: { length rows.now < 2 ^ 32 },
}

impl<'s, 'h> Records for ShownCells<'s, 'h> {
    ghost records = { λ shown. cells_of_rows (cells_of shown.cells.now) shown.rows.now };

    fn count(&self) -> u32 {
        self.rows.len() as u32
    }

    fn record<'a>(&'a self, i: u32, room: &'a mut [u8; 256]) -> &'a [u8] {
        self.cells.record(self.rows[i as usize], room)
    }
}
