//! Schemas as values of a fixed size.

ghost use Rattle.std.specs.Prelude.{◌≡◌, ℕ, ◌<◌, ◌≤◌, ◌==◌, true, not, length, slice_get, option_map, option_and_then, position, IfSome};
ghost use Rattle.std.specs.List.{list_any};
ghost use Rattle.ghost_model.specs.laws.SchemaLaws as schema_laws;
ghost use Rattle.ghost_model.specs.core.Schema as schema;
ghost use Rattle.ghost_model.specs.core.Database as database;
ghost use Rattle.tree_schema.specs.Views.{column_of, table_of, schema_of};
ghost use Rattle.tree_schema.specs.Schemas as schemas;
ghost use Rattle.tree_schema.specs.Schemas.{DeclaredSchemasAreTrees};
ghost use Rattle.tree_schema.specs.Nulls as nulls;

use crate::nulls::{allow_at, is_free};
use arrayvec::ArrayVec;
use ghost_base::Kind;
use ghost_base::limits::{MAX_COLUMNS, MAX_NAME, MAX_TABLES};
use std::marker::Model;

/// A column of a table.
#[derive(Default, Drop)]
pub struct Column {
    /// Its name, in lower case.
    pub name: ArrayVec<u8, MAX_NAME>,

    /// What it holds.
    pub kind: Kind,

    /// Whether only the key holds it.
    pub hidden: bool,

    /// The table that a foreign key names.
    pub child: Option<u8>,
}

/// A table of a schema.
#[derive(Default, Drop)]
pub struct Table {
    /// Its name, in lower case.
    pub name: ArrayVec<u8, MAX_NAME>,

    /// Its columns, of which the first is its identifier.
    pub columns: ArrayVec<Column, MAX_COLUMNS>,
}

/// A schema, which some text means: a tree of tables.
#[derive(Drop)]
pub struct Schema {
    tables: ArrayVec<Table, MAX_TABLES>,
}

impl Model for Schema {
    ghost use Rattle.ghost_model.specs.core.Schema as schema;

    ghost Value = { schema.Schema };

    ghost use Rattle.tree_schema.specs.Views.{schema_of};
    ghost use Rattle.tree_schema.specs.Schemas.{IsDeclared};

    ghost view = { λ schema. schema_of schema.tables.items };

    ghost invariant = { λ schema. IsDeclared (schema_of schema.tables.items) };
}

/// Each schema is a tree within the limits.
pub fn schemas_are_trees()
    ensures { DeclaredSchemasAreTrees }
{
    ghost_model::schema::one_schema_reading();
    ghost_model::schema::schemas_are_trees();
}

/// Whether a place, where there is one, is this table's.
pub(crate) fn is_table(place: Option<usize>, table: usize) -> bool
    ensures { result ≡ schema.is_table table place }
{
    match place {
        None => false,
        Some(other) => other == table,
    }
}

/// Whether a column is a foreign key to a table.
pub(crate) fn is_key_to(column: &Column, child: usize) -> bool
    ensures { result ≡ schema.is_table child column.now.child }
{
    match column.child {
        None => false,
        Some(other) => other as usize == child,
    }
}

/// Whether one of the columns is a foreign key to a table.
fn has_key_to(columns: &[Column], child: usize) -> bool
    ensures { result ≡ list_any (λ column. schema.is_table child column.child) columns.now }
{
    columns.iter().any(|column| is_key_to(column, child))
}

/// The place of the first of some columns that is a foreign key to a table.
fn place_of_key(columns: &[Column], child: usize) -> Option<usize>
    ensures few { IfSome result (λ place. place < length columns.now) }
    ensures place { result ≡ position (λ column. schema.is_table child column.child) columns.now }
{
    columns.iter().position(|column| is_key_to(column, child))
}

/// Whether a table holds a foreign key to another.
fn holds_key_to(table: &Table, child: usize) -> bool
    ensures { result ≡ not (schema.is_empty (schema.references_to child (table_of table.now))) }
{
    has_key_to(&table.columns, child)
}

/// The place of the first table that holds a foreign key to another.
fn place_of_holder(tables: &[Table], child: usize) -> Option<usize>
    ensures { result ≡ position (λ holder. not (schema.is_empty (schema.references_to child (table_of holder)))) tables.now }
{
    tables.iter().position(|holder| holds_key_to(holder, child))
}

/// The table that holds the foreign key to one of the tables; a root has none.
pub(crate) fn parent_in(tables: &[Table], table: usize) -> Option<usize>
    ensures parent { result ≡ schema.parent (schema_of tables.now) table }
{
    place_of_holder(tables, table)
}

/// Notes the parent of a table that has none yet.
fn note(parents: &mut [Option<usize>; MAX_TABLES], child: usize, holder: usize)
    ensures noted { schemas.IsNoted holder (λ table. child == table) parents.old parents.new }
{
    if child < MAX_TABLES && parents[child].is_none() {
        parents[child] = Some(holder);
    }
}

/// Notes the holder of a column as the parent of the table that the column names, where that has none yet.
fn note_key(parents: &mut [Option<usize>; MAX_TABLES], column: &Column, holder: usize)
    ensures noted { schemas.IsNoted holder (λ child. schema.is_table child column.now.child) parents.old parents.new }
{
    match column.child {
        None => {}
        Some(child) => note(parents, child as usize, holder),
    }
}

/// Notes the holder of columns as the parent of each table that one of them names and that has none yet.
fn note_keys(parents: &mut [Option<usize>; MAX_TABLES], columns: &[Column], holder: usize)
    ensures noted { schemas.IsNoted holder (λ child. list_any (λ column. schema.is_table child column.child) columns.now) parents.old parents.new }
{
    for column in columns {
        note_key(parents, column, holder);
    }
}

impl Schema {
    /// A schema of tables that some text means.
    pub(crate) fn of(tables: ArrayVec<Table, MAX_TABLES>) -> Schema
        requires declared { schemas.IsDeclared (schema_of tables.items) }
        ensures schema { result ≡ schema_of tables.items }
    {
        Schema { tables }
    }

    /// The number of tables.
    pub fn tables(&self) -> usize
        ensures count { result ≡ length self.now }
        ensures few { result ≤ MAX_TABLES }
        ensures declared { schemas.IsDeclared self.now }
    {
        self.tables.len()
    }

    /// A table by its place.
    pub fn table(&self, table: usize) -> Option<&Table>
        ensures { option_map (λ found. table_of found.now) result ≡ slice_get self.now table }
    {
        self.tables.get(table)
    }

    /// The number of columns of a table, its identifier among them, and 0 where there is no such table.
    pub fn columns(&self, table: usize) -> usize
        ensures { result ≡ length (schema.columns_of self.now table) }
    {
        match self.tables.get(table) {
            None => 0,
            Some(found) => found.columns.len(),
        }
    }

    /// A column by the places of its table and of itself.
    pub fn column(&self, table: usize, column: usize) -> Option<&Column>
        ensures { option_map (λ found. column_of found.now) result ≡ schema.column_at self.now table column }
    {
        match self.tables.get(table) {
            None => None,
            Some(found) => found.columns.get(column),
        }
    }

    /// The table that holds the foreign key to this one; the root has none.
    pub fn parent(&self, table: usize) -> Option<usize>
        ensures { result ≡ schema.parent self.now table }
    {
        parent_in(&self.tables, table)
    }

    /// The tables that a table's foreign keys name, ascending.
    pub fn children(&self, table: usize) -> ArrayVec<usize, MAX_TABLES>
        ensures { result.items ≡ schema_laws.children self.now table }
    {
        let mut found = ArrayVec::new();
        for at in 0..self.tables() {
            if is_table(self.parent(at), table) {
                found.push(at);
            }
        }
        found
    }

    /// Notes a table as the parent of each table that it names and that has none yet.
    fn note_table(&self, parents: &mut [Option<usize>; MAX_TABLES], holder: usize)
        ensures noted { schemas.IsNoted holder (λ child. not (schema.is_empty (schema.places_where (λ column. schema.is_table child column.child) (schema.columns_of self.now holder)))) parents.old parents.new }
    {
        match self.table(holder) {
            None => {}
            Some(found) => note_keys(parents, &found.columns, holder),
        }
    }

    /// The parent of each table, by place, from one walk over all columns; places after the last table have none.
    pub fn parents(&self) -> [Option<usize>; MAX_TABLES]
        ensures parents { schemas.AreParents self.now result }
    {
        let mut parents = [None; MAX_TABLES];
        for holder in 0..self.tables() {
            self.note_table(&mut parents, holder);
        }
        parents
    }

    /// The way from a table to the root by the parents of all tables: the table, its parent, and so on. At each place
    /// stands the table after so many steps, and the way ends where there is none.
    pub fn path_by(
        &self,
        parents: &[Option<usize>; MAX_TABLES],
        table: usize,
    ) -> ArrayVec<usize, MAX_TABLES>
        requires parents { schemas.AreParents self.now parents.now }
        requires there { table < length self.now }
        ensures way { (steps : ℕ) → slice_get result.items steps ≡ schema.ancestor self.now steps table }
    {
        let _ = self.tables();
        schemas_are_trees();
        let mut path = ArrayVec::new();
        let mut next = Some(table);
        while let Some(here) = next {
            path.push(here);
            next = parents[here];
        }
        path
    }

    /// The way from a table to the root.
    pub fn path_to_root(&self, table: usize) -> ArrayVec<usize, MAX_TABLES>
        requires { table < length self.now }
        ensures { (steps : ℕ) → slice_get result.items steps ≡ schema.ancestor self.now steps table }
    {
        self.path_by(&self.parents(), table)
    }

    /// The column of a table that is the foreign key to another, the first one where there are several.
    pub fn reference(&self, table: usize, child: usize) -> Option<usize>
        ensures column { result ≡ database.reference_column self.now table child }
        ensures few { IfSome result (λ column. column < MAX_COLUMNS) }
    {
        match self.table(table) {
            None => None,
            Some(found) => place_of_key(&found.columns, child),
        }
    }

    /// The table that a column refers to, where it is a foreign key.
    pub fn child(&self, table: usize, column: usize) -> Option<usize>
        ensures child { result ≡ option_and_then (λ (held : schema.Column). held.child) (schema.column_at self.now table column) }
    {
        match self.column(table, column) {
            None => None,
            Some(found) => found.child.map(|child| child as usize),
        }
    }

    /// Whether a column is hidden; where there is no such column, it is not.
    pub fn is_hidden(&self, table: usize, column: usize) -> bool
        ensures { result ≡ schemas.is_hidden self.now table column }
    {
        match self.column(table, column) {
            None => false,
            Some(found) => found.hidden,
        }
    }

    /// Whether a column is visible: neither hidden nor the identifier.
    pub fn is_visible(&self, table: usize, column: usize) -> bool
        ensures { result ≡ schema.is_visible self.now table column }
    {
        match self.column(table, column) {
            None => false,
            Some(found) => column > 0 && !found.hidden,
        }
    }

    /// Whether a column may be allowed NULL: it is there, and is neither the identifier nor a foreign key, nor NULL already.
    pub fn may_be_null(&self, table: usize, column: usize) -> bool
        ensures may { result ≡ nulls.may_be_null self.now table column }
    {
        match self.column(table, column) {
            None => false,
            Some(found) => column > 0 && is_free(found),
        }
    }

    /// The schema in which such a column may be NULL too.
    pub(crate) fn with_null(self, table: usize, column: usize) -> Schema
        requires may { nulls.may_be_null self table column ≡ true }
        ensures schema { result ≡ nulls.with_null self table column }
    {
        let _ = self.tables();
        ghost_model::schema::one_schema_reading();
        ghost_model::tokens::tokens_are_spelled();
        let Schema { mut tables } = self;
        allow_at(tables.as_mut_slice(), table, column);
        Schema { tables }
    }
}
