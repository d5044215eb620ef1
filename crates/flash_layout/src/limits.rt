//! What the limits of a catalog leave.

ghost use Rattle.flash_layout.specs.Limits.{HasLayout};

use tree_schema::Catalog;
use tree_schema::catalog_bytes::a_catalog_is_short;

/// The files of a catalog lie one after another, records fit their pages, and all numbers of pages are small.
pub fn a_catalog_has_a_layout(cat: &Catalog)
    ensures layout { HasLayout cat.now }
{
    a_catalog_is_short(cat);
    ghost_model::layout::catalogs_are_limited();
    ghost_model::layout::layout_is_small();
    ghost_model::layout::files_follow();
    ghost_model::layout::files_lie_as_summed();
    ghost_model::layout::files_lie_in_order();
    ghost_model::layout::areas_are_whole_blocks();
}
