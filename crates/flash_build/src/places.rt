//! The tables and columns of a layout.

ghost use Rattle.std.specs.Prelude.{◌≡◌, length};
ghost use Rattle.ghost_model.specs.laws.ShortWords as short;
ghost use Rattle.ghost_model.specs.forms.Layout as layout;
ghost use Rattle.flash_layout.specs.Limits.{HasLayout};

use flash_layout::Layout;
use flash_layout::limits::a_catalog_has_a_layout;

/// What holds of where the files of a catalog lie.
pub(crate) fn layout_laws(laid: &Layout<'_>)
    ensures layout { HasLayout laid.now }
{
    a_catalog_has_a_layout(laid.catalog());
}

/// The number of tables.
pub(crate) fn tables(laid: &Layout<'_>) -> usize
    ensures count { result ≡ length laid.now.schema }
{
    laid.catalog().schema().tables()
}

/// The number of columns of a table, its identifier among them.
pub(crate) fn columns(laid: &Layout<'_>, table: usize) -> usize
    ensures count { result ≡ short.column_count laid.now.schema table }
{
    laid.catalog().schema().columns(table)
}
