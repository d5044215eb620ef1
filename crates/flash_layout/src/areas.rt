//! The room, widths and pages of the areas of the spool, of scratch and of appended rows.

ghost use Rattle.std.specs.Prelude.{◌≡◌, ◌<◌, ◌≤◌, ◌%◌, length, sum_by};
ghost use Rattle.ghost_model.specs.core.Schema as schema;
ghost use Rattle.ghost_model.specs.forms.Layout as layout;
ghost use Rattle.ghost_model.specs.forms.Runs as runs;
ghost use Rattle.flash_layout.specs.Places.{AreWays};

use crate::columns::{columns_of, is_hidden, rows_of, width_of};
use crate::limits::a_catalog_has_a_layout;
use crate::runs::{in_blocks, pages};
use crate::tables::is_root;
use arrayvec::ArrayVec;
use ghost_base::limits::MAX_TABLES;
use tree_schema::{Catalog, Version};

/// The rows that may be appended to the root.
const APPENDED_ROOM: u32 = 4096;

/// How many rows may be appended to a table: at version 2 to the root 4,096, and else none.
pub(crate) fn room_to_append(
    cat: &Catalog,
    ways: &[ArrayVec<usize, MAX_TABLES>],
    table: usize,
) -> u32
    requires ways { AreWays cat.now.schema ways.now }
    requires there { table < length cat.now.schema }
    ensures value { result ≡ layout.room_to_append cat.now table }
    ensures most { result ≤ 4096 }
{
    match cat.version() {
        Version::One => 0,
        Version::Two if is_root(cat, ways, table) => APPENDED_ROOM,
        Version::Two => 0,
    }
}

/// The rows for which a table has room: those that it has, and those that may be appended.
pub(crate) fn row_room(cat: &Catalog, ways: &[ArrayVec<usize, MAX_TABLES>], table: usize) -> u32
    requires ways { AreWays cat.now.schema ways.now }
    requires there { table < length cat.now.schema }
    ensures value { result ≡ layout.row_room cat.now table }
    ensures most { result ≤ 1004096 }
{
    rows_of(cat, table) + room_to_append(cat, ways, table)
}

/// The width of a row of a reply in bytes: the identifier, and the cells of all visible columns.
pub fn spool_width(cat: &Catalog, table: usize) -> u32
    ensures value { result ≡ layout.spool_width cat.now.schema table }
    ensures most { result ≤ 1564 }
    ensures some { 4 ≤ result }
{
    a_catalog_has_a_layout(cat);
    let mut width = 4;
    for column in 0..columns_of(cat, table) {
        if cat.schema().is_visible(table, column) {
            width += width_of(cat, table, column);
        }
    }
    width
}

/// Whether a table has no visible column.
fn has_none_visible(cat: &Catalog, table: usize) -> bool
    ensures none { result ≡ schema.is_empty (layout.visible_columns cat.now.schema table) }
{
    let mut none = true;
    for column in 0..columns_of(cat, table) {
        if cat.schema().is_visible(table, column) {
            none = false;
        }
    }
    none
}

/// The pages of a table's area in one half of the spool, none where the table has no visible column.
pub(crate) fn spool_pages(cat: &Catalog, ways: &[ArrayVec<usize, MAX_TABLES>], table: usize) -> u32
    requires ways { AreWays cat.now.schema ways.now }
    requires there { table < length cat.now.schema }
    ensures value { result ≡ layout.spool_pages cat.now table }
    ensures most { result ≤ 1004160 }
{
    if has_none_visible(cat, table) {
        0
    } else {
        in_blocks(pages(row_room(cat, ways, table), spool_width(cat, table)))
    }
}

/// The rows of the table that has most.
pub(crate) fn largest_count(cat: &Catalog) -> u32
    ensures value { result ≡ layout.largest_count cat.now }
    ensures most { result ≤ 1000000 }
{
    let mut most = 0;
    for table in 0..cat.schema().tables() {
        most = rows_of(cat, table).max(most);
    }
    most
}

/// The most rows for which there is room in the areas of one table, by the root.
pub(crate) fn largest_room(cat: &Catalog, ways: &[ArrayVec<usize, MAX_TABLES>], root: usize) -> u32
    requires ways { AreWays cat.now.schema ways.now }
    requires there { root < length cat.now.schema }
    requires root { root ≡ layout.root_of cat.now.schema }
    ensures value { result ≡ layout.largest_room cat.now }
    ensures most { result ≤ 1004096 }
{
    largest_count(cat).max(row_room(cat, ways, root))
}

/// The bytes of the cells of a table's hidden columns.
fn hidden_width(cat: &Catalog, table: usize) -> u32
    ensures value { result ≡ sum_by (layout.width_at cat.now.schema table) (layout.hidden_columns cat.now.schema table) }
    ensures most { result ≤ 1560 }
{
    a_catalog_has_a_layout(cat);
    let mut width = 0;
    for column in 0..columns_of(cat, table) {
        if is_hidden(cat, table, column) {
            width += width_of(cat, table, column);
        }
    }
    width
}

/// The width of an appended row of a table in bytes, by the tables below: the hidden cells, and four bytes for each table below.
pub(crate) fn appended_width(cat: &Catalog, table: usize, below: &[usize]) -> u32
    requires below { below.now ≡ layout.descendants_of cat.now.schema table }
    ensures value { result ≡ layout.appended_width cat.now.schema table }
    ensures most { result ≤ 1608 }
{
    a_catalog_has_a_layout(cat);
    hidden_width(cat, table) + 4 * below.len() as u32
}

/// The pages of an area for so many appended rows of a width, none where the width is 0.
pub(crate) fn appended_pages(room: u32, width: u32) -> u32
    requires few { room ≤ 4096 }
    requires narrow { width ≤ 1608 }
    ensures value { result ≡ layout.in_blocks (runs.pages_of room width) }
    ensures whole { result % 64 ≡ 0 }
{
    if width == 0 {
        0
    } else {
        in_blocks(pages(room, width))
    }
}
