//! Climbing indexes.

ghost use Rattle.std.specs.Prelude.{◌≡◌, ◌<◌, ◌≤◌, ◌+◌, ℕ, true, false, [], List, length, map, OnOk, IsOk};
ghost use Rattle.std.specs.List.{All};
ghost use Rattle.ghost_model.specs.forms.Flash.{IsHidden, HoldsIndex, HoldsLists, hidden_cells, value_lists};
ghost use Rattle.ghost_model.specs.forms.Runs.{pages_of};
ghost use Rattle.ghost_model.specs.laws.ShortWords as short;
ghost use Rattle.ghost_model.specs.forms.Layout as layout;
ghost use Rattle.ghost_model.specs.laws.LayoutSums as sums;
ghost use Rattle.ghost_model.specs.laws.WorkLaws.{index_written, indexes_written};
ghost use Rattle.index_lists.specs.Lists.{AreListed};
ghost use Rattle.index_lists.specs.Ranks.{Ranks, cells_of_rows};
ghost use Rattle.flash_pages.specs.Filling.{CanFill};
ghost use Rattle.flash_build.specs.Building.{HoldsEntries, Wrote, entries_written};

use crate::columns::column_cells;
use crate::faults::BuildFault;
use crate::levels::level_ranks;
use crate::places::{columns, layout_laws};
use crate::shown::ShownCells;
use crate::values::rank_rows;
use crate::writing::{write_entries, write_number};
use csv_split::Hidden;
use edge_traits::flash::Flash;
use flash_layout::Layout;
use ghost_base::runs::Run;
use index_files::laws::level_files_of_tables;
use index_lists::Ranking;
use index_lists::laws::value_lists_by_ranks;
use std::alloc::Global;

/// Writes the directory and the level files of the index of a hidden column, given the ranks of the rows, each page once.
fn write_ranked<F: Flash>(
    alloc: Global,
    laid: &Layout<'_>,
    hidden: &Hidden,
    table: usize,
    column: usize,
    ranking: Ranking,
    flash: &mut F,
    buf: &mut [u8; 2048],
) -> Result<(), BuildFault>
    requires part { IsHidden laid.now hidden.now }
    requires hidden { layout.is_hidden laid.now.schema table column ≡ true }
    requires ranks { Ranks (hidden_cells laid.now.schema hidden.now table column) ranking.ranks.items ranking.shown.items }
    requires below { All (λ rank. rank < length ranking.shown.items) ranking.ranks.items }
    requires few { length ranking.shown.items ≤ layout.count_of laid.now table }
    requires lists { AreListed ranking.ranks.items (length ranking.shown.items) ranking.rows.items }
    requires can { CanFill (F.state flash.old) (sums.index_begin laid.now table column + 1) (sums.directory_pages laid.now table column + sums.levels_pages laid.now (layout.levels_of laid.now.schema table)) }
    ensures holds { OnOk result (F.told ≡ true → HoldsEntries (F.state flash.new).page laid.now hidden.now table column (cells_of_rows (hidden_cells laid.now.schema hidden.now table column) ranking.shown.items)) }
    ensures wrote { Wrote (sums.index_begin laid.now table column + 1) (sums.index_begin laid.now table column + sums.index_pages laid.now table column) (entries_written laid.now hidden.now table column (cells_of_rows (hidden_cells laid.now.schema hidden.now table column) ranking.shown.items)) (F.state flash.old) (F.state flash.new) result }
{
    layout_laws(laid);
    ghost_model::layout::levels_are_ancestors();
    ghost_model::flash::hidden_parts_go_with_catalogs();
    ghost_model::flash::hidden_cells_fit();
    value_lists_by_ranks();
    level_files_of_tables();
    let Ranking { ranks, shown, rows } = ranking;
    let room = laid.index_directory(table, column);
    let values = shown.len() as u32;
    let directory = Run {
        first: room.first,
        count: values,
        width: room.width,
    };
    let own = laid.index_level(table, column, 0);
    let cells = column_cells(laid, hidden, table, column);
    let heads = ShownCells {
        cells: &cells,
        rows: &shown,
    };
    match level_ranks(alloc, laid, hidden, table, ranks) {
        Err(_) => Err(BuildFault::NoMemory),
        Ok(all) => { write_entries(alloc, flash, buf, &heads, &all, &rows, directory, own.first) },
    }
}

/// Writes the index of a hidden column, given the ranks of the rows, each page once: its header, which has the number of
/// values, then the entries.
fn write_whole<F: Flash>(
    alloc: Global,
    laid: &Layout<'_>,
    hidden: &Hidden,
    table: usize,
    column: usize,
    ranking: Ranking,
    flash: &mut F,
    buf: &mut [u8; 2048],
) -> Result<(), BuildFault>
    requires part { IsHidden laid.now hidden.now }
    requires hidden { layout.is_hidden laid.now.schema table column ≡ true }
    requires ranks { Ranks (hidden_cells laid.now.schema hidden.now table column) ranking.ranks.items ranking.shown.items }
    requires below { All (λ rank. rank < length ranking.shown.items) ranking.ranks.items }
    requires few { length ranking.shown.items ≤ layout.count_of laid.now table }
    requires lists { AreListed ranking.ranks.items (length ranking.shown.items) ranking.rows.items }
    requires can { CanFill (F.state flash.old) (sums.index_begin laid.now table column) (sums.index_pages laid.now table column) }
    ensures holds { OnOk result (F.told ≡ true → HoldsIndex (F.state flash.new).page laid.now hidden.now table column) }
    ensures wrote { Wrote (sums.index_begin laid.now table column) (sums.index_begin laid.now table column + sums.index_pages laid.now table column) (index_written laid.now hidden.now table column) (F.state flash.old) (F.state flash.new) result }
{
    layout_laws(laid);
    ghost_model::flash::values_are_counted();
    let header = laid.index_header(table, column);
    let values = ranking.shown.len() as u32;
    write_number(flash, buf, values, header.first)?;
    write_ranked(alloc, laid, hidden, table, column, ranking, flash, buf)
}

/// Writes the index of a hidden column, each page once.
fn write_index<F: Flash>(
    alloc: Global,
    laid: &Layout<'_>,
    hidden: &Hidden,
    table: usize,
    column: usize,
    flash: &mut F,
    buf: &mut [u8; 2048],
) -> Result<(), BuildFault>
    requires part { IsHidden laid.now hidden.now }
    requires hidden { layout.is_hidden laid.now.schema table column ≡ true }
    requires can { CanFill (F.state flash.old) (sums.index_begin laid.now table column) (sums.index_pages laid.now table column) }
    ensures holds { OnOk result (F.told ≡ true → HoldsIndex (F.state flash.new).page laid.now hidden.now table column) }
    ensures wrote { Wrote (sums.index_begin laid.now table column) (sums.index_begin laid.now table column + sums.index_pages laid.now table column) (index_written laid.now hidden.now table column) (F.state flash.old) (F.state flash.new) result }
{
    match rank_rows(alloc, laid, hidden, table, column) {
        Err(_) => Err(BuildFault::NoMemory),
        Ok(ranking) => write_whole(alloc, laid, hidden, table, column, ranking, flash, buf),
    }
}

/// Writes the index of a column, each page once; a column that is not hidden has none.
fn write_any<F: Flash>(
    alloc: Global,
    laid: &Layout<'_>,
    hidden: &Hidden,
    table: usize,
    column: usize,
    flash: &mut F,
    buf: &mut [u8; 2048],
) -> Result<(), BuildFault>
    requires part { IsHidden laid.now hidden.now }
    requires can { CanFill (F.state flash.old) (sums.index_begin laid.now table column) (sums.index_pages laid.now table column) }
    ensures none { layout.is_hidden laid.now.schema table column ≡ false → IsOk result }
    ensures holds { OnOk result (F.told ≡ true → layout.is_hidden laid.now.schema table column ≡ true → HoldsIndex (F.state flash.new).page laid.now hidden.now table column) }
    ensures wrote { Wrote (sums.index_begin laid.now table column) (sums.index_begin laid.now table column + sums.index_pages laid.now table column) (index_written laid.now hidden.now table column) (F.state flash.old) (F.state flash.new) result }
{
    if laid.is_hidden(table, column) {
        write_index(alloc, laid, hidden, table, column, flash, buf)
    } else {
        Ok(())
    }
}

/// Writes the indexes of a table's hidden columns in order, each page once.
pub(crate) fn write_indexes<F: Flash>(
    alloc: Global,
    laid: &Layout<'_>,
    hidden: &Hidden,
    table: usize,
    flash: &mut F,
    buf: &mut [u8; 2048],
) -> Result<(), BuildFault>
    requires part { IsHidden laid.now hidden.now }
    requires can { CanFill (F.state flash.old) (sums.indexes_begin laid.now table) (sums.indexes_pages laid.now table) }
    ensures holds { OnOk result (F.told ≡ true → (column : ℕ) → layout.is_hidden laid.now.schema table column ≡ true → HoldsIndex (F.state flash.new).page laid.now hidden.now table column) }
    ensures wrote { Wrote (sums.indexes_begin laid.now table) (sums.id_index_begin laid.now table) (indexes_written laid.now hidden.now table (short.column_count laid.now.schema table)) (F.state flash.old) (F.state flash.new) result }
{
    layout_laws(laid);
    ghost_model::layout::sums_by_place();
    for column in 0..columns(laid, table) {
        write_any(alloc, laid, hidden, table, column, flash, buf)?;
    }
    Ok(())
}
