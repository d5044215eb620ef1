//! How tables are linked: the tables that have to stand in FROM, and the conditions that join them.

use std::alloc::{AllocError, Global};
use std::fmt::{Display, Error as FormatError, Formatter, Write};
use text_places::names::{Field, column_name, column_named, table_name};
use text_places::place::Bytes;
use tree_schema::Schema;

/// These tables, each once, and behind them those that link them.
pub(crate) fn linked(
    alloc: Global,
    schema: &Schema,
    tables: &[usize],
) -> Result<Vec<usize>, AllocError> {
    let mut linked = Vec::new(alloc);
    for table in tables {
        if !linked.contains(table) {
            linked.push(*table)?;
        }
    }
    for _ in 0..schema.tables() {
        if let Some(table) = missing(schema, &linked) {
            linked.push(table)?;
        }
    }
    Ok(linked)
}

/// Where several of the tables have no parent among them, the parent of the one that is deepest in the tree.
fn missing(schema: &Schema, tables: &[usize]) -> Option<usize> {
    let mut deepest = None;
    let mut several = false;
    for table in tables {
        if is_top(schema, tables, *table) {
            several = deepest.is_some();
            deepest = deeper(schema, deepest, *table);
        }
    }
    if several {
        schema.parent(deepest?)
    } else {
        None
    }
}

/// The deeper one of two tables.
fn deeper(schema: &Schema, deepest: Option<usize>, table: usize) -> Option<usize> {
    match deepest {
        Some(other) if depth(schema, other) >= depth(schema, table) => Some(other),
        _ => Some(table),
    }
}

/// How many steps lead from a table to the root.
fn depth(schema: &Schema, table: usize) -> usize {
    let mut here = table;
    for steps in 0..schema.tables() {
        match schema.parent(here) {
            Some(parent) => here = parent,
            None => return steps,
        }
    }
    schema.tables()
}

/// Whether the parent of a table is not among these.
pub(crate) fn is_top(schema: &Schema, tables: &[usize], table: usize) -> bool {
    match schema.parent(table) {
        Some(parent) => !tables.contains(&parent),
        None => true,
    }
}

/// The join of a table with its parent, as a text has to write it that names these tables.
#[derive(Clone, Copy)]
pub(crate) struct Join<'a> {
    pub(crate) schema: &'a Schema,
    pub(crate) tables: &'a [usize],
    pub(crate) table: usize,
}

impl<'a> Join<'a> {
    /// The foreign key.
    fn key(&self) -> Option<Field> {
        let parent = self.schema.parent(self.table)?;
        let column = self.schema.reference(parent, self.table)?;
        Some(Field {
            table: parent,
            column,
        })
    }
}

impl<'a> Display for Join<'a> {
    fn fmt<W: Write>(&self, f: &mut Formatter<W>) -> Result<(), FormatError> {
        let Some(key) = self.key() else {
            return Ok(());
        };
        let Join {
            schema,
            tables,
            table,
        } = *self;
        let name = column_name(schema, key);
        if is_shared(schema, tables, name) {
            write!(f, "{}.", table_name(schema, key.table))?;
        }
        write!(f, "{name} = {}.id", table_name(schema, table))
    }
}

/// Whether several of the tables have a column of this name.
fn is_shared(schema: &Schema, tables: &[usize], name: Bytes<'_>) -> bool {
    let mut is_found = false;
    for table in tables {
        if column_named(schema, *table, name.0).is_some() {
            if is_found {
                return true;
            }
            is_found = true;
        }
    }
    false
}

/// FROM with tables that are linked, and WHERE with their joins.
#[derive(Clone, Copy)]
pub(crate) struct FromWhere<'a> {
    pub(crate) schema: &'a Schema,
    pub(crate) tables: &'a [usize],
}

impl<'a> Display for FromWhere<'a> {
    fn fmt<W: Write>(&self, f: &mut Formatter<W>) -> Result<(), FormatError> {
        let FromWhere { schema, tables } = *self;
        let mut before = "FROM ";
        for table in tables {
            write!(f, "{before}{}", table_name(schema, *table))?;
            before = ", ";
        }
        before = " WHERE ";
        for table in tables {
            if !is_top(schema, tables, *table) {
                let join = Join {
                    schema,
                    tables,
                    table: *table,
                };
                write!(f, "{before}{join}")?;
                before = " AND ";
            }
        }
        Ok(())
    }
}
