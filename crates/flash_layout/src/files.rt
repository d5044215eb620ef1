//! The places that are asked one at a time, each by a layout of its own.

ghost use Rattle.std.specs.Prelude.{◌≡◌, ◌<◌, ◌≤◌, ◌%◌, ◌^◌, true};
ghost use Rattle.ghost_model.specs.forms.Layout as layout;
ghost use Rattle.ghost_base.specs.Runs.{run_of};

use crate::layout::Layout;
use ghost_base::runs::Run;
use tree_schema::Catalog;

/// The file of a hidden column: a cell for each row.
pub fn column_file(cat: &Catalog, table: usize, column: usize) -> Run
    requires hidden { layout.is_hidden cat.now.schema table column ≡ true }
    ensures run { run_of result ≡ layout.column_file cat.now table column }
{
    Layout::of(cat).column_file(table, column)
}

/// The pages that a device must have.
pub fn need(cat: &Catalog) -> u32
    ensures pages { result ≡ layout.need cat.now }
    ensures blocks { result % 64 ≡ 0 }
    ensures small { result < 2 ^ 30 }
{
    Layout::of(cat).need()
}
