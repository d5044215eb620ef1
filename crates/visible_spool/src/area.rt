//! Where the replies of a table lie.

ghost use Rattle.std.specs.Prelude.{◌≡◌, ◌<◌, ◌≤◌, length};
ghost use Rattle.ghost_model.specs.forms.Layout as layout;
ghost use Rattle.edge_traits.specs.Devices.{Device};
ghost use Rattle.visible_spool.specs.Areas.{IsAreaOf, IsArea, AreAreasOf, AreAreas, first_of};

use arrayvec::ArrayVec;
use flash_layout::Layout;
use flash_layout::limits::a_catalog_has_a_layout;
use ghost_base::limits::MAX_TABLES;

/// Where the replies of a table lie.
#[derive(Clone, Copy)]
pub struct Area {
    /// The first page in the half of texts with an even number.
    pub even: u32,
    /// The first page in the half of texts with an odd number.
    pub odd: u32,
    /// How many rows the table has.
    pub rows: u32,
    /// The most bytes of a row: 4 where the table has no visible column, and then it has no page.
    pub width: u32,
}

/// No pages, for the unused places of a list of areas.
impl Default for Area {
    ghost use Rattle.std.specs.Prelude.{◌≡◌};

    ghost is_default = { λ area. area.rows ≡ 0 };

    fn default() -> Self {
        Area {
            even: 0,
            odd: 0,
            rows: 0,
            width: 4,
        }
    }
}

impl Area {
    /// The first page in the half of a text.
    pub(crate) fn first(&self, text: u32) -> u32
        ensures first { result ≡ first_of self.now text }
    {
        if text % 2 == 0 { self.even } else { self.odd }
    }
}

/// The area of a table.
fn area_of(laid: &Layout<'_>, table: usize) -> Area
    requires there { table < length laid.now.schema }
    ensures area { IsAreaOf laid.now table result }
    ensures writable { (device : Device) → layout.need laid.now ≤ device.page_count → IsArea device result }
{
    a_catalog_has_a_layout(laid.catalog());
    ghost_model::layout::sums_by_place();
    let even = laid.spool_area(0, table);
    let odd = laid.spool_area(1, table);
    Area {
        even: even.first,
        odd: odd.first,
        rows: laid.rows(table),
        width: even.width,
    }
}

/// The areas of all tables.
pub(crate) fn areas_of(laid: &Layout<'_>) -> ArrayVec<Area, MAX_TABLES>
    ensures areas { AreAreasOf laid.now result.items }
    ensures writable { (device : Device) → layout.need laid.now ≤ device.page_count → AreAreas device result.items }
    ensures few { length result.items ≤ MAX_TABLES }
{
    a_catalog_has_a_layout(laid.catalog());
    let mut areas = ArrayVec::new();
    for table in 0..laid.catalog().schema().tables() {
        areas.push(area_of(laid, table));
    }
    areas
}
