//! The tables of a schema, from those that a text declares.

ghost use Rattle.std.specs.Prelude.{◌≡◌, ◌≤◌, ◌<◌, Bool, true, false, length, map};
ghost use Rattle.ghost_model.specs.refusals.Tokens as tokens;
ghost use Rattle.ghost_model.specs.refusals.SchemaMeaning as meaning;
ghost use Rattle.ghost_model.specs.refusals.SchemaFaults as faults;
ghost use Rattle.ghost_base.specs.Views.{kind_of};
ghost use Rattle.tree_schema.specs.Drafts as drafts;
ghost use Rattle.tree_schema.specs.Views as views;

use crate::rules::{length_of, place_named};
use crate::schema::{Column, Table};
use crate::syntax::{ColumnDraft, TableDraft};
use arrayvec::ArrayVec;
use ghost_base::Kind;
use ghost_base::limits::{MAX_COLUMNS, MAX_NAME, MAX_TABLES};

/// A name in lower case.
fn name_of(bytes: &[u8]) -> ArrayVec<u8, MAX_NAME>
    requires short { length bytes.now ≤ MAX_NAME }
    ensures name { result.items ≡ tokens.in_lower_case bytes.now }
{
    let mut name = ArrayVec::new();
    for byte in bytes {
        name.push(byte.to_ascii_lowercase());
    }
    name
}

/// Texts of at most as many bytes as digits say, beside which NULL may stand or not.
fn chars_of(digits: &[u8], nullable: bool) -> Kind
    requires within { tokens.is_between 1 64 (tokens.number_of digits.now) ≡ true }
    ensures kind { kind_of result ≡ meaning.text_kind nullable (tokens.number_of digits.now) }
{
    match length_of(digits) {
        Some(most) => if nullable {
            Kind::CharsOrNull(most)
        } else {
            Kind::Chars(most)
        },
        None => unreachable!(),
    }
}

/// The table that a foreign key names.
fn child_named(tables: &[TableDraft], name: &[u8]) -> Option<u8>
    requires few { length tables.now ≤ MAX_TABLES }
    ensures child { result ≡ meaning.declared_table (map drafts.table_of tables.now) (tokens.in_lower_case name.now) }
{
    match place_named(tables, name) {
        None => None,
        Some(place) => Some(place as u8),
    }
}

/// The column that a text's column means, among the text's tables.
fn column_in(tables: &[TableDraft], column: ColumnDraft) -> Column
    requires few { length tables.now ≤ MAX_TABLES }
    requires kept { faults.is_column_over (drafts.column_of column) ≡ false }
    ensures column { views.column_of result ≡ meaning.column_of (map drafts.table_of tables.now) (drafts.column_of column.entry) }
{
    match column {
        ColumnDraft::Chars(name, digits, nullable, hidden) => Column {
            name: name_of(name),
            kind: chars_of(digits, nullable),
            hidden,
            child: None,
        },
        ColumnDraft::Integer(name, _, reference, hidden) => match reference {
            None => Column {
                name: name_of(name),
                kind: Kind::Integer,
                hidden,
                child: None,
            },
            Some(to) => Column {
                name: name_of(name),
                kind: Kind::Integer,
                hidden: true,
                child: child_named(tables, to.table),
            },
        },
        ColumnDraft::IntegerOrNull(name, hidden) => Column {
            name: name_of(name),
            kind: Kind::IntegerOrNull,
            hidden,
            child: None,
        },
    }
}

/// The columns of a text's table, among the text's tables.
fn columns_in(tables: &[TableDraft], table: &TableDraft) -> ArrayVec<Column, MAX_COLUMNS>
    requires few { length tables.now ≤ MAX_TABLES }
    requires kept { faults.is_table_over (drafts.table_of table.now) ≡ false }
    ensures columns { map views.column_of result.items ≡ map (meaning.column_of (map drafts.table_of tables.now)) (meaning.columns_written (drafts.table_of table.now)) }
{
    let mut columns = ArrayVec::new();
    columns.push(column_in(tables, table.first));
    for column in table.others.iter() {
        columns.push(column_in(tables, *column));
    }
    columns
}

/// The table that a text's table means, among the text's tables.
fn table_in(tables: &[TableDraft], table: &TableDraft) -> Table
    requires few { length tables.now ≤ MAX_TABLES }
    requires kept { faults.is_table_over (drafts.table_of table.now) ≡ false }
    ensures table { views.table_of result ≡ meaning.table_of (map drafts.table_of tables.now) (drafts.table_of table.now) }
{
    Table {
        name: name_of(table.name),
        columns: columns_in(tables, table),
    }
}

/// The tables that a text's tables mean, which are within the limits.
pub(crate) fn tables_of(tables: &[TableDraft]) -> ArrayVec<Table, MAX_TABLES>
    requires kept { faults.is_over (map drafts.table_of tables.now) ≡ false }
    ensures tables { views.schema_of result.items ≡ meaning.schema_of (map drafts.table_of tables.now) }
{
    let mut built = ArrayVec::new();
    for table in tables {
        built.push(table_in(tables, table));
    }
    built
}
