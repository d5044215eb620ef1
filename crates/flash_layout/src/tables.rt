//! The tables above and below a table.

ghost use Rattle.std.specs.Prelude.{◌≡◌, ◌<◌, ◌≤◌, ◌==◌, length, drop, is_none};
ghost use Rattle.std.specs.List.{list_any};
ghost use Rattle.ghost_model.specs.core.Schema as schema;
ghost use Rattle.ghost_model.specs.forms.Layout as layout;
ghost use Rattle.tree_schema.specs.Schemas.{AreParents};
ghost use Rattle.flash_layout.specs.Places.{AreWays};

use crate::limits::a_catalog_has_a_layout;
use arrayvec::ArrayVec;
use ghost_base::limits::MAX_TABLES;
use tree_schema::Catalog;

/// A table and those above it by the parents of all tables.
fn way_of(
    cat: &Catalog,
    parents: &[Option<usize>; MAX_TABLES],
    table: usize,
) -> ArrayVec<usize, MAX_TABLES>
    requires parents { AreParents cat.now.schema parents.now }
    requires there { table < length cat.now.schema }
    ensures tables { result.items ≡ layout.levels_of cat.now.schema table }
{
    a_catalog_has_a_layout(cat);
    ghost_model::layout::levels_are_ancestors();
    cat.schema().path_by(parents, table)
}

/// For each table the table itself and those above it, nearest first: the levels of its indexes.
pub(crate) fn ways_of(cat: &Catalog) -> ArrayVec<ArrayVec<usize, MAX_TABLES>, MAX_TABLES>
    ensures ways { AreWays cat.now.schema result.items }
{
    a_catalog_has_a_layout(cat);
    let parents = cat.schema().parents();
    let mut ways = ArrayVec::new();
    for table in 0..cat.schema().tables() {
        ways.push(way_of(cat, &parents, table));
    }
    ways
}

/// A table and those above it, nearest first, among the ways of all tables.
pub(crate) fn levels_among<'a>(
    cat: &Catalog,
    ways: &'a [ArrayVec<usize, MAX_TABLES>],
    table: usize,
) -> &'a [usize]
    requires ways { AreWays cat.now.schema ways.now }
    requires there { table < length cat.now.schema }
    ensures tables { result.now ≡ layout.levels_of cat.now.schema table }
    ensures own { 0 < length result.now }
    ensures few { length result.now ≤ 12 }
{
    a_catalog_has_a_layout(cat);
    ghost_model::layout::levels_are_ancestors();
    match ways.get(table) {
        None => unreachable!(),
        Some(way) => way,
    }
}

/// All levels but the first.
pub(crate) fn but_first(levels: &[usize]) -> &[usize]
    ensures rest { result.now ≡ drop 1 levels.now }
{
    match levels.split_first() {
        None => &[],
        Some((_, rest)) => rest,
    }
}

/// Whether a table is among some.
fn is_among(tables: &[usize], table: usize) -> bool
    ensures found { result ≡ list_any (λ other. other == table) tables.now }
{
    tables.iter().any(|other| *other == table)
}

/// Whether the second table lies below the first.
fn is_below(cat: &Catalog, ways: &[ArrayVec<usize, MAX_TABLES>], table: usize, other: usize) -> bool
    requires ways { AreWays cat.now.schema ways.now }
    requires there { other < length cat.now.schema }
    ensures below { result ≡ layout.is_below cat.now.schema table other }
{
    is_among(but_first(levels_among(cat, ways, other)), table)
}

/// Whether a table is the root, which no table lies above.
pub(crate) fn is_root(cat: &Catalog, ways: &[ArrayVec<usize, MAX_TABLES>], table: usize) -> bool
    requires ways { AreWays cat.now.schema ways.now }
    requires there { table < length cat.now.schema }
    ensures root { result ≡ is_none (schema.parent cat.now.schema table) }
{
    a_catalog_has_a_layout(cat);
    ghost_model::layout::levels_are_ancestors();
    match levels_among(cat, ways, table).get(1) {
        None => true,
        Some(_) => false,
    }
}

/// The root, the first table that no table lies above.
pub(crate) fn root_among(cat: &Catalog, ways: &[ArrayVec<usize, MAX_TABLES>]) -> usize
    requires ways { AreWays cat.now.schema ways.now }
    ensures root { result ≡ layout.root_of cat.now.schema }
    ensures there { result < length cat.now.schema }
{
    a_catalog_has_a_layout(cat);
    for table in 0..cat.schema().tables() {
        if is_root(cat, ways, table) {
            return table;
        }
    }
    0
}

/// The tables below a table, ascending.
pub(crate) fn tables_below(
    cat: &Catalog,
    ways: &[ArrayVec<usize, MAX_TABLES>],
    table: usize,
) -> ArrayVec<usize, MAX_TABLES>
    requires ways { AreWays cat.now.schema ways.now }
    ensures tables { result.items ≡ layout.descendants_of cat.now.schema table }
    ensures few { length result.items ≤ 12 }
{
    a_catalog_has_a_layout(cat);
    let mut found = ArrayVec::new();
    for other in 0..cat.schema().tables() {
        if is_below(cat, ways, table, other) {
            found.push(other);
        }
    }
    found
}
