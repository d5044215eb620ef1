//! Id indexes.

ghost use Rattle.std.specs.Prelude.{◌≡◌, ◌<◌, ◌+◌, true, false, [], List, length, drop, get_or, map, replicate, IfOk, OnOk};
ghost use Rattle.ghost_model.specs.core.Schema as schemas;
ghost use Rattle.ghost_model.specs.forms.Flash.{IsHidden};
ghost use Rattle.ghost_model.specs.forms.Layout as layout;
ghost use Rattle.ghost_model.specs.laws.LayoutSums as sums;
ghost use Rattle.ghost_model.specs.laws.WorkLaws.{id_index_written};
ghost use Rattle.index_lists.specs.Lists.{AreListed};
ghost use Rattle.flash_pages.specs.Filling.{CanFill};
ghost use Rattle.flash_build.specs.Building.{HoldsIdIndex, Wrote};
ghost use Rattle.flash_build.specs.Levels.{AreRankedAbove, items_of};

use crate::faults::BuildFault;
use crate::levels::{level_ranks, numbers_from};
use crate::places::layout_laws;
use crate::writing::write_entries;
use csv_split::Hidden;
use edge_traits::flash::Flash;
use flash_layout::Layout;
use index_files::NoHeads;
use index_files::laws::level_files_of_tables;
use index_lists::laws::id_lists_by_ranks;
use index_lists::rows_by_rank;
use std::alloc::{AllocError, Global};

/// The ranks of the rows of a table and of those above it in the table's id index: at the table itself the place of each row.
fn id_ranks(
    alloc: Global,
    laid: &Layout<'_>,
    hidden: &Hidden,
    table: usize,
) -> Result<Vec<Vec<u32>>, AllocError>
    requires part { IsHidden laid.now hidden.now }
    requires there { table < length laid.now.schema }
    ensures ranked { IfOk result (λ all. AreRankedAbove laid.now hidden.now table (layout.below (layout.count_of laid.now table)) (layout.levels_of laid.now.schema table) (map items_of all.items)) }
{
    let places = numbers_from(alloc, 0, laid.rows(table))?;
    level_ranks(alloc, laid, hidden, table, places)
}

/// The ranks of the rows at each level of a table's id index, and the rows of the table above in the order of their foreign
/// keys, which are the ranks of these. No row is sorted.
fn id_rows(
    alloc: Global,
    laid: &Layout<'_>,
    hidden: &Hidden,
    table: usize,
) -> Result<(Vec<Vec<u32>>, Vec<u32>), AllocError>
    requires part { IsHidden laid.now hidden.now }
    requires there { table < length laid.now.schema }
    requires some { schemas.is_empty (layout.above_of laid.now.schema table) ≡ false }
    ensures ranked { IfOk result (λ two. AreRankedAbove laid.now hidden.now table (layout.below (layout.count_of laid.now table)) (layout.levels_of laid.now.schema table) (map items_of two.0.items)) }
    ensures rows { IfOk result (λ two. AreListed (get_or (map items_of two.0.items) 1 []) (layout.count_of laid.now table) two.1.items) }
{
    layout_laws(laid);
    let all = id_ranks(alloc, laid, hidden, table)?;
    let rows = rows_by_rank(alloc, &all[1], laid.rows(table))?;
    Ok((all, rows))
}

/// The levels behind the first one.
fn but_first(levels: &[Vec<u32>]) -> &[Vec<u32>]
    ensures levels { result.now ≡ drop 1 levels.now }
{
    match levels.split_first() {
        None => &[],
        Some((_, rest)) => rest,
    }
}

/// Writes the id index of a table that has tables above it, each page once.
fn write_some<F: Flash>(
    alloc: Global,
    laid: &Layout<'_>,
    hidden: &Hidden,
    table: usize,
    flash: &mut F,
    buf: &mut [u8; 2048],
) -> Result<(), BuildFault>
    requires part { IsHidden laid.now hidden.now }
    requires there { table < length laid.now.schema }
    requires some { schemas.is_empty (layout.above_of laid.now.schema table) ≡ false }
    requires can { CanFill (F.state flash.old) (sums.id_index_begin laid.now table) (sums.id_index_pages laid.now table) }
    ensures holds { OnOk result (F.told ≡ true → HoldsIdIndex (F.state flash.new).page laid.now hidden.now table) }
    ensures wrote { Wrote (sums.id_index_begin laid.now table) (sums.id_index_begin laid.now table + sums.id_index_pages laid.now table) (id_index_written laid.now hidden.now table) (F.state flash.old) (F.state flash.new) result }
{
    layout_laws(laid);
    id_lists_by_ranks();
    level_files_of_tables();
    let directory = laid.id_directory(table);
    let lowest = laid.id_level(table, 0);
    let heads = NoHeads {
        entries: directory.count,
    };
    match id_rows(alloc, laid, hidden, table) {
        Err(_) => Err(BuildFault::NoMemory),
        Ok((all, rows)) => {
            let levels = but_first(&all);
            write_entries(
                alloc,
                flash,
                buf,
                &heads,
                levels,
                &rows,
                directory,
                lowest.first,
            )
        }
    }
}

/// Writes the id index of a table, each page once; the root has none.
pub(crate) fn write_id_index<F: Flash>(
    alloc: Global,
    laid: &Layout<'_>,
    hidden: &Hidden,
    table: usize,
    flash: &mut F,
    buf: &mut [u8; 2048],
) -> Result<(), BuildFault>
    requires part { IsHidden laid.now hidden.now }
    requires there { table < length laid.now.schema }
    requires can { CanFill (F.state flash.old) (sums.id_index_begin laid.now table) (sums.id_index_pages laid.now table) }
    ensures holds { OnOk result (F.told ≡ true → schemas.is_empty (layout.above_of laid.now.schema table) ≡ false → HoldsIdIndex (F.state flash.new).page laid.now hidden.now table) }
    ensures wrote { Wrote (sums.id_index_begin laid.now table) (sums.id_index_begin laid.now table + sums.id_index_pages laid.now table) (id_index_written laid.now hidden.now table) (F.state flash.old) (F.state flash.new) result }
{
    if laid.above(table).is_empty() {
        return Ok(());
    }
    write_some(alloc, laid, hidden, table, flash, buf)
}
