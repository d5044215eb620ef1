//! What the names of a text stand for.

use crate::parts::{Column, Part};
use std::alloc::{AllocError, Global};
use text_places::names::{Field, column_named, table_named};
use tree_schema::Schema;

/// The tables of FROM that the schema has, in the order of the text.
pub fn tables_of(
    alloc: Global,
    schema: &Schema,
    parts: &[Part<'_>],
) -> Result<Vec<usize>, AllocError> {
    let mut tables = Vec::new(alloc);
    for part in parts {
        if let Part::Table(name) = part
            && let Some(table) = table_named(schema, name.bytes)
        {
            tables.push(table)?;
        }
    }
    Ok(tables)
}

/// The columns of tables that a column of a text may mean, one of each table at most.
pub fn meanings(
    alloc: Global,
    schema: &Schema,
    tables: &[usize],
    column: &Column<'_>,
) -> Result<Vec<Field>, AllocError> {
    let mut fields = Vec::new(alloc);
    for table in tables {
        if is_of(schema, *table, column)
            && let Some(field) = column_named(schema, *table, column.name.bytes)
        {
            fields.push(field)?;
        }
    }
    Ok(fields)
}

/// Whether a column of a text stands without a table, or with this one.
fn is_of(schema: &Schema, table: usize, column: &Column<'_>) -> bool {
    match column.table {
        Some(name) => table_named(schema, name.bytes) == Some(table),
        None => true,
    }
}
