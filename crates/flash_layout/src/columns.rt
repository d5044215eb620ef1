//! What a table has: its rows, and the widths and pages of its columns.

ghost use Rattle.std.specs.Prelude.{◌≡◌, ◌<◌, ◌≤◌, true, map};
ghost use Rattle.ghost_model.specs.laws.ShortWords as short;
ghost use Rattle.ghost_model.specs.forms.Layout as layout;
ghost use Rattle.ghost_model.specs.laws.LayoutSums as sums;

use crate::limits::a_catalog_has_a_layout;
use crate::places::Begins;
use crate::runs::pages;
use arrayvec::ArrayVec;
use ghost_base::cells::cell_width;
use tree_schema::{Catalog, Schema};

/// The number of rows of a table, and 0 where there is no such table.
pub(crate) fn rows_of(cat: &Catalog, table: usize) -> u32
    ensures value { result ≡ layout.count_of cat.now table }
    ensures few { result ≤ 1000000 }
{
    a_catalog_has_a_layout(cat);
    cat.rows(table).unwrap_or(0)
}

/// Whether a column of a schema is hidden; where there is no such column, it is not.
fn is_hidden_in(schema: &Schema, table: usize, column: usize) -> bool
    ensures value { result ≡ layout.is_hidden schema.now table column }
{
    match schema.column(table, column) {
        None => false,
        Some(found) => found.hidden,
    }
}

/// Whether a column is hidden, and so has a file and an index; where there is no such column, it is not.
pub fn is_hidden(cat: &Catalog, table: usize, column: usize) -> bool
    ensures value { result ≡ layout.is_hidden cat.now.schema table column }
{
    is_hidden_in(cat.schema(), table, column)
}

/// The width of a column's cells in bytes, and 0 where there is no such column.
fn width_at(schema: &Schema, table: usize, column: usize) -> usize
    ensures value { result ≡ layout.width_at schema.now table column }
{
    match schema.column(table, column) {
        None => 0,
        Some(found) => cell_width(found.kind),
    }
}

/// The width of the cells of a catalog's column in bytes, and 0 where there is no such column.
pub(crate) fn width_of(cat: &Catalog, table: usize, column: usize) -> u32
    ensures value { result ≡ layout.width_at cat.now.schema table column }
    ensures most { result ≤ 65 }
    ensures least { layout.is_hidden cat.now.schema table column ≡ true → 0 < result }
{
    a_catalog_has_a_layout(cat);
    width_at(cat.schema(), table, column) as u32
}

/// The number of columns of a table, and 0 where there is no such table.
pub(crate) fn columns_of(cat: &Catalog, table: usize) -> usize
    ensures value { result ≡ short.column_count cat.now.schema table }
    ensures few { result ≤ 24 }
{
    a_catalog_has_a_layout(cat);
    cat.schema().columns(table)
}

/// The pages of the file of a column, none where it is not hidden.
fn column_pages(cat: &Catalog, table: usize, column: usize) -> u32
    ensures value { result ≡ sums.column_pages cat.now table column }
    ensures most { result ≤ 1000000 }
{
    if is_hidden(cat, table, column) {
        pages(rows_of(cat, table), width_of(cat, table, column))
    } else {
        0
    }
}

/// The first pages of the files of a table's columns, the first of which begins at this page. A column that is not hidden
/// has no page.
pub(crate) fn column_begins(cat: &Catalog, table: usize, begin: u32) -> Begins
    requires begin { begin ≡ sums.table_begin cat.now table }
    requires most { begin ≤ 607034944 }
    ensures each { result.each.items ≡ map (sums.column_begin cat.now table) (layout.below (short.column_count cat.now.schema table)) }
    ensures after { result.after ≡ sums.subtree_begin cat.now table }
    ensures most { result.after ≤ 631034944 }
{
    a_catalog_has_a_layout(cat);
    let mut each = ArrayVec::new();
    let mut after = begin;
    for column in 0..columns_of(cat, table) {
        each.push(after);
        after += column_pages(cat, table, column);
    }
    Begins { each, after }
}
