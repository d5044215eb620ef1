//! The layout of a catalog, as a value.

ghost use Rattle.std.specs.Prelude.{◌≡◌, ℕ, ◌<◌, ◌≤◌, ◌%◌, ◌^◌, length, true, option_map, slice_index};
ghost use Rattle.ghost_model.specs.laws.ShortWords as short;
ghost use Rattle.ghost_model.specs.core.Schema as schema;
ghost use Rattle.ghost_model.specs.forms.Layout as layout;
ghost use Rattle.ghost_model.specs.laws.LayoutSums as sums;
ghost use Rattle.ghost_base.specs.Runs.{run_of};
ghost use Rattle.ghost_base.specs.Views.{kind_of};
ghost use Rattle.flash_layout.specs.Limits.{HasLayout};
ghost use Rattle.flash_layout.specs.Places.{ArePlaces};

use crate::adding::places_of_all;
use crate::areas::{appended_pages, appended_width, largest_room, room_to_append, row_room};
use crate::columns::{is_hidden, rows_of, width_of};
use crate::indexes::{
    directory_pages, directory_width, id_directory_pages, id_directory_width, levels_pages,
    subtree_width,
};
use crate::limits::a_catalog_has_a_layout;
use crate::places::TablePlaces;
use crate::public::scratch_count;
use crate::runs::{PAGE_BYTES, in_blocks, pages};
use crate::tables::{but_first, levels_among, root_among, ways_of};
use arrayvec::ArrayVec;
use ghost_base::Kind;
use ghost_base::limits::MAX_TABLES;
use ghost_base::runs::Run;
use std::marker::Model;
use tree_schema::Catalog;

/// Where the files and areas of a catalog lie. A clause sees the catalog, which the layout borrows.
///
/// It is made in one walk over the columns and one over pairs of tables and their levels; then each file is told at once, or
/// in as many steps as its table has levels. It has some 5 kB, and no call takes memory. A call that is handed a catalog
/// makes it once and lends it.
#[derive(Drop)]
pub struct Layout<'a> {
    cat: &'a Catalog,
    ways: ArrayVec<ArrayVec<usize, MAX_TABLES>, MAX_TABLES>,
    tables: ArrayVec<TablePlaces, MAX_TABLES>,
    static_end: u32,
    half_pages: u32,
    root: usize,
    largest_room: u32,
}

impl<'a> Model for Layout<'a> {
    ghost use Rattle.ghost_model.specs.core.Channel as channel;

    ghost Value = { channel.Catalog };

    ghost use Rattle.flash_layout.specs.Places.{IsLaidOut};

    ghost view = { λ laid. laid.cat.now };

    ghost invariant = { λ laid. IsLaidOut laid.cat.now laid.ways.items laid.tables.items laid.static_end laid.half_pages laid.root laid.largest_room };
}

impl<'a> Layout<'a> {
    /// The layout of a catalog.
    pub fn of(cat: &'a Catalog) -> Layout<'a>
        ensures catalog { result ≡ cat.now }
    {
        let ways = ways_of(cat);
        let places = places_of_all(cat, &ways);
        let root = root_among(cat, &ways);
        let largest_room = largest_room(cat, &ways, root);
        Layout {
            cat,
            ways,
            tables: places.tables,
            static_end: in_blocks(places.after),
            half_pages: places.half,
            root,
            largest_room,
        }
    }

    /// Its catalog.
    pub fn catalog(&self) -> &'a Catalog
        ensures catalog { result.now ≡ self.now }
    {
        self.cat
    }

    /// What holds of where its files and areas lie.
    fn laws(&self)
        ensures layout { HasLayout self.now }
    {
        a_catalog_has_a_layout(self.cat);
    }

    /// The places of a table.
    fn places(&self, table: usize) -> &TablePlaces
        requires there { table < length self.now.schema }
        ensures places { ArePlaces self.now table result.now }
    {
        match self.tables.get(table) {
            None => unreachable!(),
            Some(places) => places,
        }
    }

    /// The number of rows of a table, and 0 where there is no such table.
    pub fn rows(&self, table: usize) -> u32
        ensures value { result ≡ layout.count_of self.now table }
        ensures few { result ≤ 1000000 }
    {
        rows_of(self.cat, table)
    }

    /// The rows for which the areas of a table have room: those that it has, and at version 2 the 4,096 that may be appended to the root.
    pub fn room(&self, table: usize) -> u32
        requires there { table < length self.now.schema }
        ensures value { result ≡ layout.row_room self.now table }
        ensures most { result ≤ 1004096 }
    {
        row_room(self.cat, &self.ways, table)
    }

    /// Whether a column is hidden, and so has a file and an index; where there is no such column, it is not.
    pub fn is_hidden(&self, table: usize, column: usize) -> bool
        ensures value { result ≡ layout.is_hidden self.now.schema table column }
    {
        is_hidden(self.cat, table, column)
    }

    /// The width of a column's cells in bytes, and 0 where there is no such column.
    pub fn width(&self, table: usize, column: usize) -> u32
        ensures value { result ≡ layout.width_at self.now.schema table column }
        ensures most { result ≤ 65 }
        ensures least { layout.is_hidden self.now.schema table column ≡ true → 0 < result }
    {
        width_of(self.cat, table, column)
    }

    /// What a column holds, where there is such a column.
    pub fn kind(&self, table: usize, column: usize) -> Option<Kind>
        ensures kind { option_map kind_of result ≡ schema.column_kind self.now.schema table column }
    {
        match self.cat.schema().column(table, column) {
            None => None,
            Some(found) => Some(found.kind),
        }
    }

    /// A table and those above it, nearest first: the levels of its indexes.
    pub fn levels(&self, table: usize) -> &[usize]
        requires there { table < length self.now.schema }
        ensures tables { result.now ≡ layout.levels_of self.now.schema table }
        ensures own { 0 < length result.now }
        ensures few { length result.now ≤ 12 }
    {
        levels_among(self.cat, &self.ways, table)
    }

    /// The tables above a table, nearest first: the levels of its id index.
    pub fn above(&self, table: usize) -> &[usize]
        requires there { table < length self.now.schema }
        ensures tables { result.now ≡ layout.above_of self.now.schema table }
        ensures few { length result.now ≤ 12 }
    {
        self.laws();
        but_first(self.levels(table))
    }

    /// The tables below a table, ascending. Where there is none, the table has no subtree key table.
    pub fn below(&self, table: usize) -> &[usize]
        requires there { table < length self.now.schema }
        ensures tables { result.now ≡ layout.descendants_of self.now.schema table }
        ensures few { length result.now ≤ 12 }
    {
        self.laws();
        &self.places(table).below
    }

    /// The page where the file of a hidden column begins.
    fn column_begin(&self, table: usize, column: usize) -> u32
        requires hidden { layout.is_hidden self.now.schema table column ≡ true }
        ensures value { result ≡ sums.column_begin self.now table column }
    {
        self.laws();
        let begins = &self.places(table).columns;
        begins.each[column]
    }

    /// The page where the index of a hidden column begins.
    fn index_begin(&self, table: usize, column: usize) -> u32
        requires hidden { layout.is_hidden self.now.schema table column ≡ true }
        ensures value { result ≡ sums.index_begin self.now table column }
        ensures most { result ≤ 656597720 }
    {
        self.laws();
        let begins = &self.places(table).indexes;
        begins.each[column]
    }

    /// The file of a hidden column: a cell for each row.
    pub fn column_file(&self, table: usize, column: usize) -> Run
        requires hidden { layout.is_hidden self.now.schema table column ≡ true }
        ensures run { run_of result ≡ layout.column_file self.now table column }
    {
        self.laws();
        Run {
            first: self.column_begin(table, column),
            count: self.rows(table),
            width: self.width(table, column),
        }
    }

    /// The subtree key table of a table: for each row an identifier for each table below.
    pub fn subtree_table(&self, table: usize) -> Run
        requires there { table < length self.now.schema }
        ensures run { run_of result ≡ layout.subtree_table self.now table }
    {
        self.laws();
        Run {
            first: self.places(table).columns.after,
            count: self.rows(table),
            width: subtree_width(self.below(table)),
        }
    }

    /// The header of the index of a hidden column, one record of 4 bytes.
    pub fn index_header(&self, table: usize, column: usize) -> Run
        requires hidden { layout.is_hidden self.now.schema table column ≡ true }
        ensures run { run_of result ≡ short.index_header self.now table column }
    {
        self.laws();
        Run {
            first: self.index_begin(table, column),
            count: 1,
            width: 4,
        }
    }

    /// The room of the directory of the index of a hidden column.
    pub fn index_directory(&self, table: usize, column: usize) -> Run
        requires hidden { layout.is_hidden self.now.schema table column ≡ true }
        ensures run { run_of result ≡ short.index_directory self.now table column }
    {
        self.laws();
        Run {
            first: self.index_begin(table, column) + 1,
            count: self.rows(table),
            width: directory_width(self.cat, table, column, self.levels(table)),
        }
    }

    /// The level file of the table at a place of a list of tables, the first of which has its level file at a page: the single bytes
    /// of as many pages as identifiers of four bytes take.
    fn level_file(&self, begin: u32, tables: &[usize], level: usize) -> Run
        requires begin { begin < 1000000000 }
        requires few { length tables.now ≤ 12 }
        requires level { level < length tables.now }
        ensures run { run_of result ≡ sums.level_file self.now begin tables.now level }
    {
        Run {
            first: begin + levels_pages(self.cat, &tables[..level]),
            count: PAGE_BYTES * pages(self.rows(tables[level]), 4),
            width: 1,
        }
    }

    /// A level file of the index of a hidden column: level 0 is the table itself, level 1 its parent, and so on.
    pub fn index_level(&self, table: usize, column: usize, level: usize) -> Run
        requires hidden { layout.is_hidden self.now.schema table column ≡ true }
        requires level { level < length (layout.levels_of self.now.schema table) }
        ensures run { run_of result ≡ short.index_level self.now table column level }
    {
        self.laws();
        let levels = self.levels(table);
        let directory = directory_pages(self.cat, table, column, levels);
        self.level_file(
            self.index_begin(table, column) + 1 + directory,
            levels,
            level,
        )
    }

    /// The directory of the id index of a table that is not the root: a record for each row.
    pub fn id_directory(&self, table: usize) -> Run
        requires there { table < length self.now.schema }
        ensures run { run_of result ≡ short.id_directory self.now table }
    {
        self.laws();
        Run {
            first: self.places(table).indexes.after,
            count: self.rows(table),
            width: id_directory_width(self.above(table)),
        }
    }

    /// A level file of the id index of a table: level 0 is its parent, level 1 the parent of that, and so on.
    pub fn id_level(&self, table: usize, level: usize) -> Run
        requires there { table < length self.now.schema }
        requires level { level < length (layout.above_of self.now.schema table) }
        ensures run { run_of result ≡ short.id_level self.now table level }
    {
        self.laws();
        let above = self.above(table);
        let begin = self.places(table).indexes.after + id_directory_pages(self.cat, table, above);
        self.level_file(begin, above, level)
    }

    /// The first page after the static part, where a block begins.
    pub fn static_end(&self) -> u32
        ensures page { result ≡ layout.static_end self.now }
        ensures block { result % 64 ≡ 0 }
        ensures most { result ≤ 607035007 }
    {
        self.laws();
        self.static_end
    }

    /// The pages of one half of the spool.
    fn half_pages(&self) -> u32
        ensures value { result ≡ layout.half_pages self.now }
        ensures most { result ≤ 12049920 }
    {
        self.laws();
        self.half_pages
    }

    /// The area of a table in a half of the spool, with the table's room.
    pub fn spool_area(&self, half: u32, table: usize) -> Run
        requires half { half < 2 }
        requires there { table < length self.now.schema }
        ensures run { run_of result ≡ layout.spool_area self.now half table }
    {
        let places = self.places(table);
        Run {
            first: self.static_end() + (half * self.half_pages() + places.spool),
            count: self.room(table),
            width: places.spool_width,
        }
    }

    /// The first page after the spool.
    fn spool_end(&self) -> u32
        ensures value { result ≡ layout.spool_end self.now }
        ensures most { result ≤ 631134847 }
    {
        self.static_end() + 2 * self.half_pages()
    }

    /// The pages of one scratch area.
    fn scratch_pages(&self) -> u32
        ensures value { result ≡ layout.scratch_pages self.now }
        ensures most { result ≤ 1984 }
    {
        self.laws();
        in_blocks(pages(self.largest_room, 4))
    }

    /// A scratch area, from 0 to 5 at version 1 and to 7 at version 2, with an identifier for each row of the largest room of a table.
    pub fn scratch_area(&self, area: u32) -> Run
        requires area { area < layout.scratch_count self.now }
        ensures run { run_of result ≡ layout.scratch_area self.now area }
    {
        let _ = scratch_count(self.cat);
        Run {
            first: self.spool_end() + area * self.scratch_pages(),
            count: self.largest_room,
            width: 4,
        }
    }

    /// The page after the scratch areas: no session writes it or a later one.
    pub fn scratch_end(&self) -> u32
        ensures page { result ≡ layout.scratch_end self.now }
        ensures block { result % 64 ≡ 0 }
        ensures most { result ≤ 631150719 }
    {
        self.laws();
        self.spool_end() + scratch_count(self.cat) * self.scratch_pages()
    }

    /// The width of an appended row of the root in bytes: its hidden cells, and four bytes for each table below.
    fn appended_width(&self) -> u32
        ensures value { result ≡ layout.appended_width self.now.schema (layout.root_of self.now.schema) }
        ensures most { result ≤ 1608 }
    {
        appended_width(self.cat, self.root, self.below(self.root))
    }

    /// How many rows may be appended to the root.
    fn appended_room(&self) -> u32
        ensures value { result ≡ layout.room_to_append self.now (layout.root_of self.now.schema) }
        ensures most { result ≤ 4096 }
    {
        room_to_append(self.cat, &self.ways, self.root)
    }

    /// The pages of one area for appended rows: none at version 1, and none where an appended row has no byte.
    pub fn appended_pages(&self) -> u32
        ensures value { result ≡ layout.appended_pages self.now }
        ensures most { result ≤ 4096 }
    {
        self.laws();
        appended_pages(self.appended_room(), self.appended_width())
    }

    /// One of the two areas for appended rows of the root, a record for each.
    pub fn appended_area(&self, which: u32) -> Run
        requires which { which < 2 }
        ensures run { run_of result ≡ layout.appended_area self.now which }
    {
        Run {
            first: self.scratch_end() + which * self.appended_pages(),
            count: self.appended_room(),
            width: self.appended_width(),
        }
    }

    /// The pages that a device must have.
    pub fn need(&self) -> u32
        ensures pages { result ≡ layout.need self.now }
        ensures blocks { result % 64 ≡ 0 }
        ensures small { result < 2 ^ 30 }
    {
        self.laws();
        self.scratch_end() + 2 * self.appended_pages()
    }
}
