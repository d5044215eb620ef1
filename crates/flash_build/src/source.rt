//! The cells of a hidden column, as records of its file.

ghost use Rattle.std.specs.Prelude.{◌≡◌, ◌<◌, List, ℕ, [], length, get_or};
ghost use Rattle.index_lists.specs.Ranks.{number_cells};
ghost use Rattle.flash_build.specs.Sources.{cells_of};

use crate::kinds::KindCells;
use crate::texts::TextCells;
use flash_pages::filling::Records;
use ghost_base::{Kind, Value, encode_cell};
use index_lists::{Column, Numbers};

/// The cells of a hidden column, row by row, as they lie in memory.
#[derive(Drop)]
pub(crate) enum ColumnCells<'h> {
    /// Those of an INTEGER column, which are made of its integers.
    Numbers(Numbers<'h>),
    /// Those of a CHAR column.
    Texts(TextCells<'h>),
    /// Those of a column that may be NULL.
    Kinds(KindCells<'h>),
}

impl<'h> Records for ColumnCells<'h> {
    ghost records = { cells_of };

    fn count(&self) -> u32 {
        match self {
            ColumnCells::Numbers(column) => column.rows(),
            ColumnCells::Texts(column) => column.count(),
            ColumnCells::Kinds(column) => column.count(),
        }
    }

    fn record<'a>(&'a self, i: u32, room: &'a mut [u8; 256]) -> &'a [u8] {
        match self {
            ColumnCells::Numbers(column) => number_in(column.numbers, i, room),
            ColumnCells::Texts(column) => column.record(i, room),
            ColumnCells::Kinds(column) => column.record(i, room),
        }
    }
}

/// The cell of the integer of a row, which is counted from 0.
fn number_in<'r>(numbers: &[i64], row: u32, room: &'r mut [u8; 256]) -> &'r [u8]
    requires there { row < length numbers.now }
    ensures cell { result.now ≡ get_or (number_cells numbers.now) row [] }
{
    let cell = &mut room[..8];
    encode_cell(Kind::Integer, &Value::Int(numbers[row as usize]), cell);
    cell
}
