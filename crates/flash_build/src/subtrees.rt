//! Subtree key tables.

ghost use Rattle.std.specs.Prelude.{◌≡◌, ◌<◌, ◌+◌, true, false, map, length, OnOk};
ghost use Rattle.ghost_model.specs.core.Schema as schemas;
ghost use Rattle.ghost_model.specs.forms.Flash.{IsHidden, subtree_record, ids};
ghost use Rattle.ghost_model.specs.forms.Layout as layout;
ghost use Rattle.ghost_model.specs.forms.Runs.{Stores};
ghost use Rattle.ghost_model.specs.laws.LayoutSums as sums;
ghost use Rattle.flash_pages.specs.Filling.{CanFill};
ghost use Rattle.flash_build.specs.Building.{Wrote};

use crate::faults::BuildFault;
use crate::levels::all_led;
use crate::number_rows::NumberRows;
use crate::places::layout_laws;
use crate::writing::write_records;
use csv_split::Hidden;
use edge_traits::flash::Flash;
use flash_layout::Layout;
use std::alloc::Global;

/// Writes the subtree key table of a table that has tables below it, each page once.
fn write_some<F: Flash>(
    alloc: Global,
    laid: &Layout<'_>,
    hidden: &Hidden,
    table: usize,
    flash: &mut F,
    buf: &mut [u8; 2048],
) -> Result<(), BuildFault>
    requires part { IsHidden laid.now hidden.now }
    requires there { table < length laid.now.schema }
    requires some { schemas.is_empty (layout.descendants_of laid.now.schema table) ≡ false }
    requires can { CanFill (F.state flash.old) (sums.subtree_begin laid.now table) (sums.subtree_pages laid.now table) }
    ensures stores { OnOk result (F.told ≡ true → Stores (F.state flash.new).page (layout.subtree_table laid.now table) (map (subtree_record laid.now.schema hidden.now table) (ids (layout.count_of laid.now table)))) }
    ensures wrote { Wrote (sums.subtree_begin laid.now table) (sums.subtree_begin laid.now table + sums.subtree_pages laid.now table) (sums.subtree_pages laid.now table) (F.state flash.old) (F.state flash.new) result }
{
    layout_laws(laid);
    let run = laid.subtree_table(table);
    match all_led(alloc, laid, hidden, table) {
        Err(_) => Err(BuildFault::NoMemory),
        Ok(columns) => {
            let source = NumberRows {
                columns: &columns,
                rows: run.count,
            };
            write_records(flash, buf, &source, run.first, run.width)
        }
    }
}

/// Writes the subtree key table of a table, each page once; a table that has none below it has no such file.
pub(crate) fn write_subtree<F: Flash>(
    alloc: Global,
    laid: &Layout<'_>,
    hidden: &Hidden,
    table: usize,
    flash: &mut F,
    buf: &mut [u8; 2048],
) -> Result<(), BuildFault>
    requires part { IsHidden laid.now hidden.now }
    requires there { table < length laid.now.schema }
    requires can { CanFill (F.state flash.old) (sums.subtree_begin laid.now table) (sums.subtree_pages laid.now table) }
    ensures stores { OnOk result (F.told ≡ true → schemas.is_empty (layout.descendants_of laid.now.schema table) ≡ false → Stores (F.state flash.new).page (layout.subtree_table laid.now table) (map (subtree_record laid.now.schema hidden.now table) (ids (layout.count_of laid.now table)))) }
    ensures wrote { Wrote (sums.subtree_begin laid.now table) (sums.subtree_begin laid.now table + sums.subtree_pages laid.now table) (sums.subtree_pages laid.now table) (F.state flash.old) (F.state flash.new) result }
{
    if laid.below(table).is_empty() {
        return Ok(());
    }
    write_some(alloc, laid, hidden, table, flash, buf)
}
