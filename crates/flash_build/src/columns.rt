//! The column files of a table.

ghost use Rattle.std.specs.Prelude.{◌≡◌, ◌<◌, ◌≤◌, ◌+◌, ◌^◌, ℕ, true, [], length, map, get_or, OnOk};
ghost use Rattle.ghost_model.specs.core.Asks.{kind_at};
ghost use Rattle.ghost_model.specs.core.Schema.{plain_of};
ghost use Rattle.ghost_model.specs.forms.Cells as cells;
ghost use Rattle.ghost_model.specs.forms.Flash.{hidden_cells, IsHidden};
ghost use Rattle.ghost_model.specs.forms.Layout as layout;
ghost use Rattle.ghost_model.specs.laws.LayoutSums as sums;
ghost use Rattle.ghost_model.specs.forms.Runs.{Stores};
ghost use Rattle.flash_pages.specs.Filling.{CanFill};
ghost use Rattle.ghost_base.specs.Views.{kind_of};
ghost use Rattle.csv_split.specs.Cells.{values_in};
ghost use Rattle.flash_build.specs.Cells.{AreHeld};
ghost use Rattle.flash_build.specs.Sources.{cells_of};
ghost use Rattle.flash_build.specs.Building.{Wrote};

use crate::faults::BuildFault;
use crate::keys::hidden_before;
use crate::kinds::KindCells;
use crate::places::{columns, layout_laws};
use crate::source::ColumnCells;
use crate::texts::TextCells;
use crate::writing::write_records;
use csv_split::{Cells, Hidden};
use edge_traits::flash::Flash;
use flash_layout::Layout;
use ghost_base::Kind;
use index_lists::Numbers;

/// The kind of a hidden column.
fn kind_of_column(laid: &Layout<'_>, table: usize, column: usize) -> Kind
    ensures kind { kind_of result ≡ kind_at laid.now.schema table column }
{
    laid.kind(table, column).unwrap_or(Kind::Chars(0))
}

/// The cells of values that are of a kind.
fn cells_of_kind<'v>(values: &'v Cells, kind: Kind) -> ColumnCells<'v>
    requires some { 0 < cells.cell_width (kind_of kind) }
    requires narrow { cells.cell_width (plain_of (kind_of kind)) ≤ 64 }
    requires held { AreHeld (kind_of kind) (values_in values.now) }
    requires few { length (values_in values.now) < 2 ^ 32 }
    ensures cells { cells_of result ≡ map (cells.encode_cell (kind_of kind)) (values_in values.now) }
{
    match (kind, values) {
        (Kind::Integer, Cells::Numbers(numbers)) => ColumnCells::Numbers(Numbers { numbers }),
        (Kind::Chars(most), Cells::Texts(texts)) => ColumnCells::Texts(TextCells {
            texts,
            width: u32::from(most),
        }),
        _ => ColumnCells::Kinds(KindCells { values, kind }),
    }
}

/// The cells of a hidden column, as they lie in memory.
pub(crate) fn column_cells<'h>(
    laid: &Layout<'_>,
    hidden: &'h Hidden,
    table: usize,
    column: usize,
) -> ColumnCells<'h>
    requires part { IsHidden laid.now hidden.now }
    requires hidden { layout.is_hidden laid.now.schema table column ≡ true }
    ensures cells { cells_of result ≡ hidden_cells laid.now.schema hidden.now table column }
    ensures count { length (cells_of result) ≡ layout.count_of laid.now table }
    ensures widths { (i : ℕ) → i < length (cells_of result) → length (get_or (cells_of result) i []) ≡ layout.width_at laid.now.schema table column }
{
    layout_laws(laid);
    ghost_model::flash::hidden_parts_go_with_catalogs();
    ghost_model::flash::hidden_cells_fit();
    ghost_model::flash::hidden_values_by_place();
    ghost_model::flash::hidden_values_of_databases();
    let kind = kind_of_column(laid, table, column);
    match hidden.column(table, hidden_before(laid, table, column)) {
        None => ColumnCells::Numbers(Numbers { numbers: &[] }),
        Some(values) => cells_of_kind(values, kind),
    }
}

/// Writes the file of a hidden column, each page once.
fn write_file<F: Flash>(
    laid: &Layout<'_>,
    hidden: &Hidden,
    table: usize,
    column: usize,
    flash: &mut F,
    buf: &mut [u8; 2048],
) -> Result<(), BuildFault>
    requires part { IsHidden laid.now hidden.now }
    requires hidden { layout.is_hidden laid.now.schema table column ≡ true }
    requires can { CanFill (F.state flash.old) (sums.column_begin laid.now table column) (sums.column_pages laid.now table column) }
    ensures stores { OnOk result (F.told ≡ true → Stores (F.state flash.new).page (layout.column_file laid.now table column) (hidden_cells laid.now.schema hidden.now table column)) }
    ensures wrote { Wrote (sums.column_begin laid.now table column) (sums.column_begin laid.now table column + sums.column_pages laid.now table column) (sums.column_pages laid.now table column) (F.state flash.old) (F.state flash.new) result }
{
    layout_laws(laid);
    let run = laid.column_file(table, column);
    let cells = column_cells(laid, hidden, table, column);
    write_records(flash, buf, &cells, run.first, run.width)
}

/// Writes the file of a column, each page once; a column that is not hidden has none.
fn write_column<F: Flash>(
    laid: &Layout<'_>,
    hidden: &Hidden,
    table: usize,
    column: usize,
    flash: &mut F,
    buf: &mut [u8; 2048],
) -> Result<(), BuildFault>
    requires part { IsHidden laid.now hidden.now }
    requires can { CanFill (F.state flash.old) (sums.column_begin laid.now table column) (sums.column_pages laid.now table column) }
    ensures stores { OnOk result (F.told ≡ true → layout.is_hidden laid.now.schema table column ≡ true → Stores (F.state flash.new).page (layout.column_file laid.now table column) (hidden_cells laid.now.schema hidden.now table column)) }
    ensures wrote { Wrote (sums.column_begin laid.now table column) (sums.column_begin laid.now table column + sums.column_pages laid.now table column) (sums.column_pages laid.now table column) (F.state flash.old) (F.state flash.new) result }
{
    if laid.is_hidden(table, column) {
        write_file(laid, hidden, table, column, flash, buf)
    } else {
        Ok(())
    }
}

/// Writes the files of a table's hidden columns in order, each page once.
pub(crate) fn write_columns<F: Flash>(
    laid: &Layout<'_>,
    hidden: &Hidden,
    table: usize,
    flash: &mut F,
    buf: &mut [u8; 2048],
) -> Result<(), BuildFault>
    requires part { IsHidden laid.now hidden.now }
    requires can { CanFill (F.state flash.old) (sums.table_begin laid.now table) (sums.columns_pages laid.now table) }
    ensures stores { OnOk result (F.told ≡ true → (column : ℕ) → layout.is_hidden laid.now.schema table column ≡ true → Stores (F.state flash.new).page (layout.column_file laid.now table column) (hidden_cells laid.now.schema hidden.now table column)) }
    ensures wrote { Wrote (sums.table_begin laid.now table) (sums.subtree_begin laid.now table) (sums.columns_pages laid.now table) (F.state flash.old) (F.state flash.new) result }
{
    layout_laws(laid);
    ghost_model::layout::sums_by_place();
    for column in 0..columns(laid, table) {
        write_column(laid, hidden, table, column, flash, buf)?;
    }
    Ok(())
}
