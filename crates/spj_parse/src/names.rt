//! What the names of a text stand for.

ghost use Rattle.std.specs.Prelude.{◌≡◌, ℕ, ◌<◌, List, IfSome, bytes_eq, option_map, option_to_list, slice_get};
ghost use Rattle.ghost_model.specs.core.Schema as model;
ghost use Rattle.ghost_model.specs.refusals.Tokens.{in_lower_case};
ghost use Rattle.ghost_model.specs.refusals.QueryMeaning as meaning;
ghost use Rattle.spj_parse.specs.Drafts.{column_of};
ghost use Rattle.spj_parse.specs.Names.{IsMeaning, fields_in, first_meaning, has_name, is_called, passes};
ghost use Rattle.spj_parse.specs.Views.{field_of};

use crate::drafts::ColumnDraft;
use crate::query::Field;
use ghost_base::limits::{MAX_COLUMNS, MAX_TABLES};
use tree_schema::Schema;
use tree_schema::schema::schemas_are_trees;

/// What a column of a text may mean.
#[derive(Clone, Copy)]
pub(crate) enum Meaning {
    Nothing,
    One(Field),
    Several,
}

/// Whether a name, which is in lower case, is written so.
fn is_name(name: &[u8], written: &[u8]) -> bool
    requires lower { in_lower_case name.now ≡ name.now }
    ensures same { result ≡ bytes_eq name.now (in_lower_case written.now) }
{
    name.eq_ignore_ascii_case(written)
}

/// Whether the table at a place is called so.
fn is_table_called(schema: &Schema, table: usize, name: &[u8]) -> bool
    ensures called { result ≡ passes (has_name (in_lower_case name.now)) (slice_get schema.now table) }
{
    let _ = schema.tables();
    schemas_are_trees();
    match schema.table(table) {
        None => false,
        Some(found) => is_name(&found.name, name),
    }
}

/// Whether the column at a place of a table is called so.
fn is_column_called(schema: &Schema, table: usize, column: usize, name: &[u8]) -> bool
    ensures called { result ≡ passes (is_called (in_lower_case name.now)) (model.column_at schema.now table column) }
{
    let _ = schema.tables();
    schemas_are_trees();
    match schema.column(table, column) {
        None => false,
        Some(found) => is_name(&found.name, name),
    }
}

/// The table of this name.
pub fn table_named(schema: &Schema, name: &[u8]) -> Option<usize>
    ensures place { result ≡ meaning.table_named schema.now (in_lower_case name.now) }
    ensures few { IfSome result (λ table. table < MAX_TABLES) }
{
    for table in 0..schema.tables() {
        if is_table_called(schema, table, name) {
            return Some(table);
        }
    }
    None
}

/// The column of this name in a table.
pub fn column_named(schema: &Schema, table: usize, name: &[u8]) -> Option<usize>
    ensures place { result ≡ model.column_named schema.now table (in_lower_case name.now) }
    ensures few { IfSome result (λ column. column < MAX_COLUMNS) }
{
    let _ = schema.tables();
    schemas_are_trees();
    for column in 0..schema.columns(table) {
        if is_column_called(schema, table, column, name) {
            return Some(column);
        }
    }
    None
}

/// Whether a place, where there is one, is this table's.
pub(crate) fn is_table(place: Option<usize>, table: u8) -> bool
    ensures same { result ≡ model.is_table table place }
{
    match place {
        None => false,
        Some(other) => other == table as usize,
    }
}

/// The column of this name in a table.
fn field_named(schema: &Schema, table: u8, name: &[u8]) -> Option<Field>
    ensures fields { option_to_list (option_map field_of result) ≡ meaning.fields_named schema.now (in_lower_case name.now) table }
{
    match column_named(schema, table as usize, name) {
        None => None,
        Some(column) => Some(Field {
            table,
            column: column as u8,
        }),
    }
}

/// The column of a FROM table that a column of a text may mean.
fn field_in(schema: &Schema, table: u8, column: ColumnDraft) -> Option<Field>
    ensures fields { option_to_list (option_map field_of result) ≡ fields_in schema.now (column_of column.entry) table }
{
    match column {
        ColumnDraft::Bare(name) => field_named(schema, table, name),
        ColumnDraft::Qualified(qualifier, name) => {
            if is_table(table_named(schema, qualifier), table) {
                field_named(schema, table, name)
            } else {
                None
            }
        }
    }
}

/// What a column of a text means, among these FROM tables.
pub(crate) fn meaning_of(schema: &Schema, from: &[u8], column: ColumnDraft) -> Meaning
    ensures meaning { IsMeaning result (meaning.meanings schema.now from.now (column_of column.entry)) }
{
    let mut found = None;
    for table in from {
        if let Some(field) = field_in(schema, *table, column) {
            if found.is_some() {
                return Meaning::Several;
            }
            found = Some(field);
        }
    }
    match found {
        None => Meaning::Nothing,
        Some(field) => Meaning::One(field),
    }
}

/// The first column that a column of a text may mean.
pub(crate) fn first_meaning(schema: &Schema, from: &[u8], column: ColumnDraft) -> Option<Field>
    ensures first { option_map field_of result ≡ first_meaning schema.now from.now (column_of column.entry) }
{
    for table in from {
        if let Some(field) = field_in(schema, *table, column) {
            return Some(field);
        }
    }
    None
}
