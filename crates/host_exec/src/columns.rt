//! Rows of the visible file that are taken into columns.

ghost use Rattle.std.specs.Prelude.{◌≡◌, ◌≤◌, ◌<◌, ◌+◌, ◌*◌, ℕ, true, length, map, take, drop, IfOk, IfSome, IfNone, OnOk, MatchBool};
ghost use Rattle.std.specs.List.{list_all};
ghost use Rattle.ghost_base.specs.Views.{kind_of, value_of};
ghost use Rattle.host_exec.specs.Checked.{SpellsRow, is_narrow};
ghost use Rattle.host_exec.specs.Columns.{IsRowOf, AreColumns, AddsRows};

use arrayvec::ArrayVec;
use channel_codec::bytes::{behind, front};
use csv_split::{Cells, push_row};
use ghost_base::limits::MAX_COLUMNS;
use ghost_base::{Kind, Value, cell_width, decode_cell};
use std::alloc::{AllocError, Global};

/// The rows of a table that were taken so far: the values of its visible columns, column by column.
#[derive(Drop)]
pub struct Columns {
    /// The values of each column.
    pub cells: Vec<Cells>,

    /// How many rows there are.
    pub rows: u32,
}

/// Columns of these kinds without rows.
pub(crate) fn no_rows(alloc: Global, kinds: &[Kind]) -> Result<Columns, AllocError>
    requires narrow { list_all is_narrow (map kind_of kinds.now) ≡ true }
    ensures columns { IfOk result (λ columns. AreColumns (map kind_of kinds.now) columns) }
    ensures none { IfOk result (λ columns. columns.rows ≡ 0) }
{
    let mut cells = Vec::new(alloc);
    let mut rest = kinds;
    'kinds: while let Some((kind, later)) = rest.split_first() {
        let Ok(()) = cells.push(Cells::new(alloc, *kind)) else {
            return Err(AllocError);
        };
        rest = later;
    }
    Ok(Columns { cells, rows: 0 })
}

/// The row whose cells bytes are, if they are the cells of one value of each of these kinds.
fn row_in(kinds: &[Kind], bytes: &[u8]) -> Option<ArrayVec<Value, MAX_COLUMNS>>
    requires narrow { list_all is_narrow (map kind_of kinds.now) ≡ true }
    requires few { length kinds.now ≤ MAX_COLUMNS }
    ensures row { IfSome result (λ row. IsRowOf (map kind_of kinds.now) (map value_of row.items) bytes.now) }
    ensures none { IfNone result (SpellsRow (map kind_of kinds.now) bytes.now → ⊥) }
{
    let mut row = ArrayVec::new();
    let mut rest = kinds;
    let mut cells = bytes;
    'kinds: while let Some((kind, later)) = rest.split_first() {
        let width = cell_width(*kind);
        let cell = front(cells, width);
        match decode_cell(*kind, cell) {
            None => return None,
            Some(value) => row.push(value),
        }
        cells = behind(cells, width);
        rest = later;
    }
    if !cells.is_empty() {
        return None;
    }
    Some(row)
}

/// Takes a row, and answers whether its bytes are the cells of one value of each of these kinds.
fn take_row(kinds: &[Kind], bytes: &[u8], columns: &mut Columns) -> Result<bool, AllocError>
    requires narrow { list_all is_narrow (map kind_of kinds.now) ≡ true }
    requires few { length kinds.now ≤ MAX_COLUMNS }
    requires columns { AreColumns (map kind_of kinds.now) columns.old }
    requires room { columns.old.rows < 1_000_000 }
    ensures columns { OnOk result (AreColumns (map kind_of kinds.now) columns.new) }
    ensures taken { IfOk result (λ good. MatchBool good (AddsRows (map kind_of kinds.now) 1 bytes.now columns.old columns.new) (SpellsRow (map kind_of kinds.now) bytes.now → ⊥)) }
{
    let Some(row) = row_in(kinds, bytes) else {
        return Ok(false);
    };
    push_row(&row, &mut columns.cells)?;
    columns.rows += 1;
    Ok(true)
}

/// Takes so many rows of a width, and answers whether each of them has the cells of one value of each of these kinds.
pub(crate) fn take_rows(
    kinds: &[Kind],
    width: usize,
    count: u32,
    piece: &[u8],
    columns: &mut Columns,
) -> Result<bool, AllocError>
    requires narrow { list_all is_narrow (map kind_of kinds.now) ≡ true }
    requires few { length kinds.now ≤ MAX_COLUMNS }
    requires columns { AreColumns (map kind_of kinds.now) columns.old }
    requires room { columns.old.rows + count ≤ 1_000_000 }
    requires size { length piece.now ≡ count * width }
    ensures columns { OnOk result (AreColumns (map kind_of kinds.now) columns.new) }
    ensures taken { IfOk result (λ good. MatchBool good (AddsRows (map kind_of kinds.now) count piece.now columns.old columns.new)
        ((row : ℕ) × (row < count) × (SpellsRow (map kind_of kinds.now) (take width (drop (row * width) piece.now)) → ⊥))) }
{
    let mut passed = 0;
    let mut rest = piece;
    'rows: while passed < count {
        if !take_row(kinds, front(rest, width), columns)? {
            return Ok(false);
        }
        rest = behind(rest, width);
        passed += 1;
    }
    Ok(true)
}
