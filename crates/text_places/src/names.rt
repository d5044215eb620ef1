//! The names of a schema, as lines tell them.

use crate::place::Bytes;
use ghost_base::Kind;
use std::fmt::{Display, Error as FormatError, Formatter, Write};
use tree_schema::Schema;

/// A column by the places of its table and of itself.
#[derive(Clone, Copy, PartialEq, Eq)]
pub struct Field {
    /// The table's place in the schema.
    pub table: usize,

    /// The column's place in the table.
    pub column: usize,
}

/// The name of a table.
pub fn table_name(schema: &Schema, table: usize) -> Bytes<'_> {
    match schema.table(table) {
        Some(found) => Bytes(&found.name),
        None => Bytes(&[]),
    }
}

/// The name of a column.
pub fn column_name(schema: &Schema, field: Field) -> Bytes<'_> {
    match schema.column(field.table, field.column) {
        Some(found) => Bytes(&found.name),
        None => Bytes(&[]),
    }
}

/// The table of a name, which is written in any case.
pub fn table_named(schema: &Schema, name: &[u8]) -> Option<usize> {
    for table in 0..schema.tables() {
        if table_name(schema, table).0.eq_ignore_ascii_case(name) {
            return Some(table);
        }
    }
    None
}

/// The column of a name in a table.
pub fn column_named(schema: &Schema, table: usize, name: &[u8]) -> Option<Field> {
    for column in 0..schema.columns(table) {
        let field = Field { table, column };
        if column_name(schema, field).0.eq_ignore_ascii_case(name) {
            return Some(field);
        }
    }
    None
}

/// What a column holds, as a schema says it.
#[derive(Clone, Copy)]
pub struct KindOf<'a> {
    /// The schema.
    pub schema: &'a Schema,

    /// The column.
    pub field: Field,
}

impl<'a> Display for KindOf<'a> {
    fn fmt<W: Write>(&self, f: &mut Formatter<W>) -> Result<(), FormatError> {
        match kind_of(self.schema, self.field) {
            Kind::Integer => f.write_str("INTEGER"),
            Kind::Chars(most) => write!(f, "CHAR({most})"),
            Kind::IntegerOrNull => f.write_str("INTEGER NULL"),
            Kind::CharsOrNull(most) => write!(f, "CHAR({most}) NULL"),
        }
    }
}

/// What a column holds.
pub fn kind_of(schema: &Schema, field: Field) -> Kind {
    match schema.column(field.table, field.column) {
        Some(found) => found.kind,
        None => Kind::Integer,
    }
}

/// The names of all tables, with commas between them.
#[derive(Clone, Copy)]
pub struct TableNames<'a>(pub &'a Schema);

impl<'a> Display for TableNames<'a> {
    fn fmt<W: Write>(&self, f: &mut Formatter<W>) -> Result<(), FormatError> {
        for table in 0..self.0.tables() {
            let comma = if table == 0 { "" } else { ", " };
            write!(f, "{comma}{}", table_name(self.0, table))?;
        }
        Ok(())
    }
}

/// The name of a table, and those of its columns.
#[derive(Clone, Copy)]
pub struct ColumnNames<'a> {
    /// The schema.
    pub schema: &'a Schema,

    /// The table's place in it.
    pub table: usize,
}

impl<'a> Display for ColumnNames<'a> {
    fn fmt<W: Write>(&self, f: &mut Formatter<W>) -> Result<(), FormatError> {
        let ColumnNames { schema, table } = *self;
        write!(f, "{} has ", table_name(schema, table))?;
        for column in 0..schema.columns(table) {
            let comma = if column == 0 { "" } else { ", " };
            write!(f, "{comma}{}", column_name(schema, Field { table, column }))?;
        }
        Ok(())
    }
}
