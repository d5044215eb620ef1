//! What is wrong with how the tables of a text are linked.

use crate::found::{Found, Read};
use crate::links::{FromWhere, Join, is_top, linked};
use crate::meanings::meanings;
use crate::parts::{Column, Part};
use std::alloc::AllocError;
use text_places::names::{Field, table_name, table_named};
use tree_schema::Schema;

/// The first thing of the text by which its tables are not linked: two columns that are no join, a table that no table of
/// FROM references, or one that is not joined.
pub(crate) fn unlinked(text: &Read<'_>) -> Result<Option<Found>, AllocError> {
    for part in &text.parts {
        if let Part::Joined(left, right) = part
            && join_of(text, left, right)?.is_none()
        {
            return Ok(Found::at(left.at(), no_join(text, left, right)?));
        }
    }
    match second_top(text)? {
        Some(found) => Ok(Some(found)),
        None => unjoined(text),
    }
}

/// The table that two columns join with its parent, where they do.
fn join_of(
    text: &Read<'_>,
    left: &Column<'_>,
    right: &Column<'_>,
) -> Result<Option<usize>, AllocError> {
    let left = meanings(text.alloc, text.schema, &text.tables, left)?;
    let right = meanings(text.alloc, text.schema, &text.tables, right)?;
    let (Some(left), Some(right)) = (left.first(), right.first()) else {
        return Ok(None);
    };
    match child_by(text.schema, *left, *right) {
        Some(child) => Ok(Some(child)),
        None => Ok(child_by(text.schema, *right, *left)),
    }
}

/// The table of an identifier that a foreign key names.
fn child_by(schema: &Schema, key: Field, identifier: Field) -> Option<usize> {
    let child = schema.child(key.table, key.column)?;
    if child == identifier.table && identifier.column == 0 {
        Some(child)
    } else {
        None
    }
}

/// That two columns are no join.
fn no_join(text: &Read<'_>, left: &Column<'_>, right: &Column<'_>) -> Result<String, AllocError> {
    let tables = linked(text.alloc, text.schema, &text.tables)?;
    if tables.len() < 2 {
        return format!(in text.alloc;
            "two columns of one table are not compared: leave out {left} = {right}"
        );
    }
    let linked = FromWhere {
        schema: text.schema,
        tables: &tables,
    };
    format!(in text.alloc;
        "{left} = {right} is no foreign key and the id that it names: write {linked}"
    )
}

/// The second table of FROM whose parent is not there.
fn second_top(text: &Read<'_>) -> Result<Option<Found>, AllocError> {
    let mut first = None;
    for part in &text.parts {
        if let Part::Table(name) = part
            && let Some(table) = table_named(text.schema, name.bytes)
            && is_top(text.schema, &text.tables, table)
        {
            match first {
                None => first = Some(table),
                Some(other) => {
                    return Ok(Found::at(name.at, two_tops(text, other, table)?));
                }
            }
        }
    }
    Ok(None)
}

/// That two tables of FROM are not linked there.
fn two_tops(text: &Read<'_>, first: usize, second: usize) -> Result<String, AllocError> {
    let schema = text.schema;
    let tables = linked(text.alloc, schema, &text.tables)?;
    let linked = FromWhere {
        schema,
        tables: &tables,
    };
    let first = table_name(schema, first);
    let second = table_name(schema, second);
    format!(in text.alloc; "{first} and {second} are not linked in FROM: write {linked}")
}

/// The first table of FROM that is not joined with its parent, which is there.
fn unjoined(text: &Read<'_>) -> Result<Option<Found>, AllocError> {
    for part in &text.parts {
        if let Part::Table(name) = part
            && let Some(table) = table_named(text.schema, name.bytes)
            && !is_top(text.schema, &text.tables, table)
            && !is_joined(text, table)?
        {
            let join = Join {
                schema: text.schema,
                tables: &text.tables,
                table,
            };
            let before = if text.has_conditions() {
                "AND"
            } else {
                "WHERE"
            };
            let table = table_name(text.schema, table);
            let told = format!(in text.alloc; "{table} has no join: write {before} {join}")?;
            return Ok(Found::at(name.at, told));
        }
    }
    Ok(None)
}

/// Whether a condition joins a table with its parent.
fn is_joined(text: &Read<'_>, table: usize) -> Result<bool, AllocError> {
    for part in &text.parts {
        if let Part::Joined(left, right) = part
            && join_of(text, left, right)? == Some(table)
        {
            return Ok(true);
        }
    }
    Ok(false)
}
