//! What is wrong with the names of a text.

use crate::found::{Found, Read};
use crate::links::{FromWhere, linked};
use crate::meanings::meanings;
use crate::parts::{Column, Part};
use std::alloc::AllocError;
use std::fmt::{Display, Error as FormatError, Formatter, Write};
use text_places::names::{ColumnNames, Field, TableNames, column_named, table_name, table_named};
use text_places::place::Word;
use tree_schema::{Schema, Token};

/// The first name of the text that stands for a table, and no table has it.
pub(crate) fn unknown_table(text: &Read<'_>) -> Result<Option<Found>, AllocError> {
    for part in &text.parts {
        if let Some(name) = unknown_in(text.schema, part) {
            let tables = TableNames(text.schema);
            let told = format!(in text.alloc;
                "there is no table {}: the tables are {tables}",
                Word(name)
            )?;
            return Ok(Found::at(name.at, told));
        }
    }
    Ok(None)
}

/// The first name of a part that stands for a table, and no table has it.
fn unknown_in<'a>(schema: &Schema, part: &Part<'a>) -> Option<Token<'a>> {
    if let Part::Table(name) = part {
        return unknown(schema, Some(*name));
    }
    let [left, right] = part.columns();
    match unknown(schema, left?.table) {
        Some(name) => Some(name),
        None => unknown(schema, right?.table),
    }
}

/// The name, where no table has it.
fn unknown<'a>(schema: &Schema, name: Option<Token<'a>>) -> Option<Token<'a>> {
    match table_named(schema, name?.bytes) {
        Some(_) => None,
        None => name,
    }
}

/// The first column of the text that means none of the tables' columns.
pub(crate) fn unknown_column(text: &Read<'_>) -> Result<Option<Found>, AllocError> {
    for part in &text.parts {
        for column in part.columns() {
            if let Some(column) = column
                && meanings(text.alloc, text.schema, &text.tables, &column)?.is_empty()
            {
                return Ok(Found::at(column.at(), unmeant(text, &column)?));
            }
        }
    }
    Ok(None)
}

/// What is wrong with a column that means none of the tables' columns.
fn unmeant(text: &Read<'_>, column: &Column<'_>) -> Result<String, AllocError> {
    let schema = text.schema;
    let name = Word(column.name);
    if let Some(of) = column.table
        && let Some(table) = table_named(schema, of.bytes)
    {
        return match column_named(schema, table, column.name.bytes) {
            Some(_) => far_column(text, table, column),
            None => {
                let names = ColumnNames { schema, table };
                let of = Word(of);
                format!(in text.alloc; "{of} has no column {name}: {names}")
            }
        };
    }
    match owner(schema, column) {
        Some(table) => far_column(text, table, column),
        None => {
            let names = AllColumns {
                schema,
                tables: &text.tables,
            };
            format!(in text.alloc; "no table in FROM has a column {name}: {names}")
        }
    }
}

/// The first table that has a column of this name.
fn owner(schema: &Schema, column: &Column<'_>) -> Option<usize> {
    for table in 0..schema.tables() {
        if column_named(schema, table, column.name.bytes).is_some() {
            return Some(table);
        }
    }
    None
}

/// That the table which has a column is to stand in FROM, and how it is linked.
fn far_column(text: &Read<'_>, table: usize, column: &Column<'_>) -> Result<String, AllocError> {
    let schema = text.schema;
    let mut tables = text.tables.clone()?;
    tables.push(table)?;
    let tables = linked(text.alloc, schema, &tables)?;
    let name = Word(column.name);
    let owner = table_name(schema, table);
    let linked = FromWhere {
        schema,
        tables: &tables,
    };
    format!(in text.alloc; "{name} is a column of {owner}, which is not in FROM: write {linked}")
}

/// The columns of tables, table by table.
#[derive(Clone, Copy)]
struct AllColumns<'a> {
    schema: &'a Schema,
    tables: &'a [usize],
}

impl<'a> Display for AllColumns<'a> {
    fn fmt<W: Write>(&self, f: &mut Formatter<W>) -> Result<(), FormatError> {
        let schema = self.schema;
        let mut before = "";
        for table in self.tables {
            let names = ColumnNames {
                schema,
                table: *table,
            };
            write!(f, "{before}{names}")?;
            before = "; ";
        }
        Ok(())
    }
}

/// A table that stands twice in FROM, or the first column of the text that several of the tables have.
pub(crate) fn ambiguous(text: &Read<'_>) -> Result<Option<Found>, AllocError> {
    if let Some(again) = repeated(text) {
        let told = format!(in text.alloc; "{} stands twice in FROM: write it once", Word(again))?;
        return Ok(Found::at(again.at, told));
    }
    for part in &text.parts {
        for column in part.columns() {
            if let Some(column) = column {
                let fields = meanings(text.alloc, text.schema, &text.tables, &column)?;
                if let [first, second, ..] = fields.as_slice() {
                    let told = shared(text, &column, [*first, *second])?;
                    return Ok(Found::at(column.at(), told));
                }
            }
        }
    }
    Ok(None)
}

/// That several tables have a column.
fn shared(text: &Read<'_>, column: &Column<'_>, fields: [Field; 2]) -> Result<String, AllocError> {
    let [first, second] = fields;
    let name = Word(column.name);
    let first = table_name(text.schema, first.table);
    let second = table_name(text.schema, second.table);
    format!(in text.alloc;
        "{first} and {second} both have a column {name}: write {first}.{name} or {second}.{name}"
    )
}

/// The first table of FROM that stands there before.
fn repeated<'a>(text: &Read<'a>) -> Option<Token<'a>> {
    let mut seen = [false; 12];
    for part in &text.parts {
        if let Part::Table(name) = part
            && let Some(table) = table_named(text.schema, name.bytes)
            && let Some(is_seen) = seen.get_mut(table)
        {
            if *is_seen {
                return Some(*name);
            }
            *is_seen = true;
        }
    }
    None
}
