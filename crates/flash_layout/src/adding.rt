//! Where the files and areas of all tables lie, table by table.

ghost use Rattle.std.specs.Prelude.{◌≡◌, ◌<◌, ◌≤◌, length};
ghost use Rattle.ghost_model.specs.forms.Layout as layout;
ghost use Rattle.ghost_model.specs.laws.LayoutSums as sums;
ghost use Rattle.flash_layout.specs.Places.{AreWays, ArePlaces, ArePlacesBefore};

use crate::areas::{spool_pages, spool_width};
use crate::columns::column_begins;
use crate::indexes::{id_index_pages, index_begins, subtree_pages};
use crate::limits::a_catalog_has_a_layout;
use crate::places::TablePlaces;
use crate::public::public_pages;
use crate::tables::{but_first, levels_among, tables_below};
use arrayvec::ArrayVec;
use ghost_base::limits::MAX_TABLES;
use tree_schema::Catalog;

/// The places of all tables, the page after their files, and the pages of their areas in a half of the spool.
#[derive(Drop)]
pub(crate) struct AllPlaces {
    pub(crate) tables: ArrayVec<TablePlaces, MAX_TABLES>,
    pub(crate) after: u32,
    pub(crate) half: u32,
}

/// Where the files of a table lie that begin at a page, and its area in a half of the spool, with so many pages before it.
fn places_of(
    cat: &Catalog,
    ways: &[ArrayVec<usize, MAX_TABLES>],
    table: usize,
    begin: u32,
    spool: u32,
) -> TablePlaces
    requires ways { AreWays cat.now.schema ways.now }
    requires there { table < length cat.now.schema }
    requires begin { begin ≡ sums.table_begin cat.now table }
    requires spool { spool ≡ sums.spool_pages_before cat.now table }
    requires few { spool ≤ 12049920 }
    ensures places { ArePlaces cat.now table result }
    ensures most { result.after ≤ 607034944 }
{
    a_catalog_has_a_layout(cat);
    let levels = levels_among(cat, ways, table);
    let below = tables_below(cat, ways, table);
    let columns = column_begins(cat, table, begin);
    let indexes_begin = columns.after + subtree_pages(cat, table, &below);
    let indexes = index_begins(cat, table, levels, indexes_begin);
    let after = indexes.after + id_index_pages(cat, table, but_first(levels));
    TablePlaces {
        below,
        columns,
        indexes,
        after,
        spool,
        spool_width: spool_width(cat, table),
    }
}

/// The places of all tables.
pub(crate) fn places_of_all(cat: &Catalog, ways: &[ArrayVec<usize, MAX_TABLES>]) -> AllPlaces
    requires ways { AreWays cat.now.schema ways.now }
    ensures tables { ArePlacesBefore cat.now (length cat.now.schema) result.tables.items }
    ensures after { result.after ≡ layout.files_end cat.now }
    ensures half { result.half ≡ layout.half_pages cat.now }
    ensures small { result.after ≤ 607034944 }
    ensures few { result.half ≤ 12049920 }
{
    a_catalog_has_a_layout(cat);
    let mut tables = ArrayVec::new();
    let mut after = public_pages(cat);
    let mut half = 0;
    for table in 0..cat.schema().tables() {
        let places = places_of(cat, ways, table, after, half);
        after = places.after;
        half += spool_pages(cat, ways, table);
        tables.push(places);
    }
    AllPlaces {
        tables,
        after,
        half,
    }
}
