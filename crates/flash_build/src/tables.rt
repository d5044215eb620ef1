//! The files, table by table.

ghost use Rattle.std.specs.Prelude.{◌≡◌, ◌<◌, ◌+◌, ◌-◌, ℕ, true, length, OnOk};
ghost use Rattle.ghost_model.specs.forms.Flash.{HoldsFiles, IsHidden};
ghost use Rattle.ghost_model.specs.forms.Layout as layout;
ghost use Rattle.ghost_model.specs.forms.Work as work;
ghost use Rattle.ghost_model.specs.laws.LayoutSums as sums;
ghost use Rattle.ghost_model.specs.laws.WorkLaws.{table_written};
ghost use Rattle.flash_pages.specs.Filling.{CanFill};
ghost use Rattle.flash_build.specs.Building.{HoldsTable, Wrote};

use crate::columns::write_columns;
use crate::faults::BuildFault;
use crate::id_indexes::write_id_index;
use crate::indexes::write_indexes;
use crate::places::{layout_laws, tables};
use crate::subtrees::write_subtree;
use csv_split::Hidden;
use edge_traits::flash::Flash;
use flash_layout::Layout;
use std::alloc::Global;

/// Writes the files of a table in the order of their pages, each page once.
fn write_table<F: Flash>(
    alloc: Global,
    laid: &Layout<'_>,
    hidden: &Hidden,
    table: usize,
    flash: &mut F,
    buf: &mut [u8; 2048],
) -> Result<(), BuildFault>
    requires part { IsHidden laid.now hidden.now }
    requires there { table < length laid.now.schema }
    requires can { CanFill (F.state flash.old) (sums.table_begin laid.now table) (sums.table_pages laid.now table) }
    ensures stores { OnOk result (F.told ≡ true → HoldsTable (F.state flash.new).page laid.now hidden.now table) }
    ensures wrote { Wrote (sums.table_begin laid.now table) (sums.table_begin laid.now table + sums.table_pages laid.now table) (table_written laid.now hidden.now table) (F.state flash.old) (F.state flash.new) result }
{
    layout_laws(laid);
    write_columns(laid, hidden, table, flash, buf)?;
    write_subtree(alloc, laid, hidden, table, flash, buf)?;
    write_indexes(alloc, laid, hidden, table, flash, buf)?;
    write_id_index(alloc, laid, hidden, table, flash, buf)
}

/// Writes the files of all tables, each page once, and none after a failed call.
pub(crate) fn write_tables<F: Flash>(
    alloc: Global,
    laid: &Layout<'_>,
    hidden: &Hidden,
    flash: &mut F,
) -> Result<(), BuildFault>
    requires part { IsHidden laid.now hidden.now }
    requires can { CanFill (F.state flash.old) (layout.public_pages laid.now) (layout.files_end laid.now - layout.public_pages laid.now) }
    ensures stores { OnOk result (F.told ≡ true → HoldsFiles (F.state flash.new).page laid.now hidden.now) }
    ensures wrote { Wrote (layout.public_pages laid.now) (layout.files_end laid.now) (work.file_pages laid.now hidden.now) (F.state flash.old) (F.state flash.new) result }
{
    layout_laws(laid);
    ghost_model::layout::sums_by_place();
    ghost_model::flash::pages_add_up();
    let mut buf = [0; 2048];
    for table in 0..tables(laid) {
        write_table(alloc, laid, hidden, table, flash, &mut buf)?;
    }
    Ok(())
}
