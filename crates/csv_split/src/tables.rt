//! The tables of a schema in memory.

ghost use Rattle.std.specs.Prelude.{◌≡◌, ◌≤◌, ◌++◌, ◌∷◌, [], length, slice_get, option_map, OnOk, OnErr};
ghost use Rattle.ghost_model.specs.core.Database as database;
ghost use Rattle.ghost_model.specs.refusals.LoadFaults as faults;
ghost use Rattle.ghost_base.specs.Views.{value_of};

use crate::table::Table;
use ghost_base::{Id, Value};
use std::alloc::{AllocError, Global};
use std::marker::Model;

/// The tables of a schema, which a clause sees as the database: for each table the list of its rows.
#[derive(Drop)]
pub struct Tables {
    tables: Vec<Table>,
}

impl Model for Tables {
    ghost use Rattle.ghost_model.specs.core.Values.{Database};

    ghost Value = { Database };

    ghost view = { λ tables. tables.tables.items };
}

impl Tables {
    /// No tables.
    pub fn new(alloc: Global) -> Tables
        ensures { result ≡ [] }
    {
        Tables {
            tables: Vec::new(alloc),
        }
    }

    /// Puts a table at the end.
    pub fn push(&mut self, table: Table) -> Result<(), AllocError>
        ensures tables { OnOk result (self.new ≡ self.old ++ table ∷ []) }
        ensures kept { OnErr result (self.new ≡ self.old) }
    {
        match self.tables.push(table) {
            Ok(()) => Ok(()),
            Err(_) => Err(AllocError),
        }
    }

    /// The tables, moved out.
    pub(crate) fn into_tables(self) -> Vec<Table>
        ensures { result.items ≡ self }
    {
        self.tables
    }

    /// The number of tables.
    pub fn tables(&self) -> usize
        ensures { result ≡ length self.now }
    {
        self.tables.len()
    }

    /// A table by its place.
    pub fn table(&self, table: usize) -> Option<&Table>
        ensures { option_map (λ found. found.now) result ≡ slice_get self.now table }
    {
        self.tables.get(table)
    }

    /// The number of rows of a table, and 0 where there is no such table.
    pub fn rows(&self, table: usize) -> u32
        ensures count { result ≡ database.row_count self.now table }
        ensures few { result ≤ faults.most_rows }
    {
        match self.tables.get(table) {
            Some(found) => found.rows(),
            None => 0,
        }
    }

    /// The value in a column of a table's row, and `None` exactly where there is no such table, row or column.
    pub fn value(&self, table: usize, identifier: Id, column: usize) -> Option<Value>
        ensures { option_map value_of result ≡ database.value_at_row self.now table identifier column }
    {
        match self.tables.get(table) {
            Some(found) => found.value(identifier, column),
            None => None,
        }
    }
}
