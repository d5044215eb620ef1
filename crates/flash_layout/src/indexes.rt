//! The pages of subtree key tables and indexes.

ghost use Rattle.std.specs.Prelude.{◌≡◌, ◌<◌, ◌≤◌, ◌*◌, map, length};
ghost use Rattle.ghost_model.specs.laws.ShortWords as short;
ghost use Rattle.ghost_model.specs.forms.Layout as layout;
ghost use Rattle.ghost_model.specs.laws.LayoutSums as sums;

use crate::columns::{columns_of, is_hidden, rows_of, width_of};
use crate::limits::a_catalog_has_a_layout;
use crate::places::Begins;
use crate::runs::pages;
use arrayvec::ArrayVec;
use tree_schema::Catalog;

/// The width of the records of a subtree key table in bytes, by the tables below, and 0 where there is none.
pub(crate) fn subtree_width(below: &[usize]) -> u32
    requires few { length below.now ≤ 12 }
    ensures value { result ≡ 4 * length below.now }
    ensures most { result ≤ 48 }
{
    4 * below.len() as u32
}

/// The pages of a table's subtree key table, by the tables below it, none where there is none.
pub(crate) fn subtree_pages(cat: &Catalog, table: usize, below: &[usize]) -> u32
    requires below { below.now ≡ layout.descendants_of cat.now.schema table }
    ensures value { result ≡ sums.subtree_pages cat.now table }
    ensures most { result ≤ 1000000 }
{
    a_catalog_has_a_layout(cat);
    if below.is_empty() {
        0
    } else {
        pages(rows_of(cat, table), subtree_width(below))
    }
}

/// The pages of a level file with an identifier for each row of a table.
fn level_pages(cat: &Catalog, table: usize) -> u32
    ensures value { result ≡ sums.level_pages cat.now table }
    ensures most { result ≤ 1954 }
{
    a_catalog_has_a_layout(cat);
    pages(rows_of(cat, table), 4)
}

/// The pages of the level files of some tables.
pub(crate) fn levels_pages(cat: &Catalog, tables: &[usize]) -> u32
    requires few { length tables.now ≤ 12 }
    ensures value { result ≡ sums.levels_pages cat.now tables.now }
    ensures most { result ≤ 23448 }
{
    let mut total = 0;
    for table in tables {
        total += level_pages(cat, *table);
    }
    total
}

/// The width of the records of an index's directory in bytes, by the levels of its table.
pub(crate) fn directory_width(cat: &Catalog, table: usize, column: usize, levels: &[usize]) -> u32
    requires levels { levels.now ≡ layout.levels_of cat.now.schema table }
    requires own { 0 < length levels.now }
    ensures value { result ≡ sums.directory_width cat.now.schema table column }
    ensures most { result ≤ 161 }
    ensures some { 8 ≤ result }
{
    a_catalog_has_a_layout(cat);
    width_of(cat, table, column) + 8 * levels.len() as u32
}

/// The pages of an index's directory.
pub(crate) fn directory_pages(cat: &Catalog, table: usize, column: usize, levels: &[usize]) -> u32
    requires levels { levels.now ≡ layout.levels_of cat.now.schema table }
    requires own { 0 < length levels.now }
    ensures value { result ≡ sums.directory_pages cat.now table column }
    ensures most { result ≤ 1000000 }
{
    pages(
        rows_of(cat, table),
        directory_width(cat, table, column, levels),
    )
}

/// The pages of the index of a column, whose level files have so many, none where it is not hidden.
fn index_pages(cat: &Catalog, table: usize, column: usize, levels: &[usize], own: u32) -> u32
    requires levels { levels.now ≡ layout.levels_of cat.now.schema table }
    requires some { 0 < length levels.now }
    requires own { own ≡ sums.levels_pages cat.now levels.now }
    requires few { own ≤ 23448 }
    ensures value { result ≡ sums.index_pages cat.now table column }
    ensures most { result ≤ 1023449 }
{
    if is_hidden(cat, table, column) {
        1 + (directory_pages(cat, table, column, levels) + own)
    } else {
        0
    }
}

/// The first pages of the indexes of a table's columns, the first of which begins at this page. A column that is not hidden
/// has no page.
pub(crate) fn index_begins(cat: &Catalog, table: usize, levels: &[usize], begin: u32) -> Begins
    requires levels { levels.now ≡ layout.levels_of cat.now.schema table }
    requires some { 0 < length levels.now }
    requires begin { begin ≡ sums.indexes_begin cat.now table }
    requires most { begin ≤ 632034944 }
    ensures each { result.each.items ≡ map (sums.index_begin cat.now table) (layout.below (short.column_count cat.now.schema table)) }
    ensures after { result.after ≡ sums.id_index_begin cat.now table }
    ensures most { result.after ≤ 656597720 }
{
    a_catalog_has_a_layout(cat);
    let own = levels_pages(cat, levels);
    let mut each = ArrayVec::new();
    let mut after = begin;
    for column in 0..columns_of(cat, table) {
        each.push(after);
        after += index_pages(cat, table, column, levels, own);
    }
    Begins { each, after }
}

/// The width of the records of an id index's directory in bytes, by the tables above, and 0 for the root, which has none.
pub(crate) fn id_directory_width(above: &[usize]) -> u32
    requires few { length above.now ≤ 12 }
    ensures value { result ≡ 8 * length above.now }
    ensures most { result ≤ 96 }
{
    8 * above.len() as u32
}

/// The pages of the directory of an id index, by the tables above.
pub(crate) fn id_directory_pages(cat: &Catalog, table: usize, above: &[usize]) -> u32
    requires above { above.now ≡ layout.above_of cat.now.schema table }
    requires some { 0 < length above.now }
    ensures value { result ≡ sums.id_directory_pages cat.now table }
    ensures most { result ≤ 1000000 }
{
    a_catalog_has_a_layout(cat);
    pages(rows_of(cat, table), id_directory_width(above))
}

/// The pages of a table's id index, by the tables above, none where it is the root.
pub(crate) fn id_index_pages(cat: &Catalog, table: usize, above: &[usize]) -> u32
    requires above { above.now ≡ layout.above_of cat.now.schema table }
    ensures value { result ≡ sums.id_index_pages cat.now table }
    ensures most { result ≤ 1023448 }
{
    a_catalog_has_a_layout(cat);
    if above.is_empty() {
        0
    } else {
        id_directory_pages(cat, table, above) + levels_pages(cat, above)
    }
}
