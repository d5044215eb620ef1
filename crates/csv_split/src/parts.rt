//! The two parts of a database.

ghost use Rattle.std.specs.Prelude.{◌≡◌, ℕ, ◌≤◌, ◌++◌, ◌∷◌, [], length, slice_get, option_map, IfSome, IfNone, None, OnOk};
ghost use Rattle.ghost_model.specs.core.Database as database;
ghost use Rattle.ghost_model.specs.refusals.LoadFaults as faults;
ghost use Rattle.ghost_base.specs.Views.{value_of};
ghost use Rattle.csv_split.specs.Cells.{values_in};
ghost use Rattle.csv_split.specs.Parts.{hidden_with, public_with};
ghost use Rattle.csv_split.specs.Tables.{IsColumn};

use crate::cells::Cells;
use crate::part::Part;
use ghost_base::{Id, Value};
use std::alloc::{AllocError, Global};
use std::marker::Model;

/// The public part: for each table its visible columns.
#[derive(Drop)]
pub struct Public {
    parts: Vec<Part>,
}

impl Model for Public {
    ghost use Rattle.ghost_model.specs.core.Split as split;
    ghost use Rattle.csv_split.specs.Parts.{public_with};

    ghost Value = { split.Public };

    ghost view = { λ public. public_with public.parts.items };
}

impl Public {
    /// The part of no table.
    pub fn new(alloc: Global) -> Public
        ensures { result ≡ public_with [] }
    {
        Public {
            parts: Vec::new(alloc),
        }
    }

    /// Puts the part of one more table at the end.
    pub fn push(&mut self, part: Part) -> Result<(), AllocError>
        ensures { OnOk result (self.new ≡ public_with (self.old.visible ++ part ∷ [])) }
    {
        match self.parts.push(part) {
            Ok(()) => Ok(()),
            Err(_) => Err(AllocError),
        }
    }

    /// The parts of the tables, moved out.
    pub(crate) fn into_parts(self) -> Vec<Part>
        ensures { result.items ≡ self.visible }
    {
        self.parts
    }

    /// The number of tables.
    pub fn tables(&self) -> usize
        ensures { result ≡ length self.now.visible }
    {
        self.parts.len()
    }

    /// The visible columns of a table by its place.
    pub fn part(&self, table: usize) -> Option<&Part>
        ensures { option_map (λ found. found.now) result ≡ slice_get self.now.visible table }
    {
        self.parts.get(table)
    }
}

/// The hidden part: for each table its hidden columns, foreign keys among them.
#[derive(Drop)]
pub struct Hidden {
    parts: Vec<Part>,
}

impl Model for Hidden {
    ghost use Rattle.ghost_model.specs.core.Split as split;
    ghost use Rattle.csv_split.specs.Parts.{hidden_with};

    ghost Value = { split.Hidden };

    ghost view = { λ kept. hidden_with kept.parts.items };
}

impl Hidden {
    /// The part of no table.
    pub fn new(alloc: Global) -> Hidden
        ensures { result ≡ hidden_with [] }
    {
        Hidden {
            parts: Vec::new(alloc),
        }
    }

    /// Puts the part of one more table at the end.
    pub fn push(&mut self, part: Part) -> Result<(), AllocError>
        ensures { OnOk result (self.new ≡ hidden_with (self.old.hidden ++ part ∷ [])) }
    {
        match self.parts.push(part) {
            Ok(()) => Ok(()),
            Err(_) => Err(AllocError),
        }
    }

    /// The parts of the tables, moved out.
    pub(crate) fn into_parts(self) -> Vec<Part>
        ensures { result.items ≡ self.hidden }
    {
        self.parts
    }

    /// The number of tables.
    pub fn tables(&self) -> usize
        ensures { result ≡ length self.now.hidden }
    {
        self.parts.len()
    }

    /// The hidden columns of a table by its place.
    pub fn part(&self, table: usize) -> Option<&Part>
        ensures { option_map (λ found. found.now) result ≡ slice_get self.now.hidden table }
    {
        self.parts.get(table)
    }

    /// The number of rows of a table, and 0 where there is no such table.
    pub fn rows(&self, table: usize) -> u32
        ensures count { result ≡ database.row_count self.now.hidden table }
        ensures few { result ≤ faults.most_rows }
    {
        match self.parts.get(table) {
            Some(found) => found.rows(),
            None => 0,
        }
    }

    /// The value in a hidden column of a table's row, and `None` exactly where there is no such table, row or column.
    /// The hidden columns of a table are counted from 0.
    pub fn value(&self, table: usize, identifier: Id, column: usize) -> Option<Value>
        ensures { option_map value_of result ≡ database.value_at_row self.now.hidden table identifier column }
    {
        match self.parts.get(table) {
            Some(found) => found.value(identifier, column),
            None => None,
        }
    }

    /// The values of a hidden column of a table, in the order of the rows, and none where there is no such table or
    /// column. The hidden columns of a table are counted from 0.
    pub fn column(&self, table: usize, column: usize) -> Option<&Cells>
        ensures held { IfSome result (λ cells. IsColumn (database.rows_of self.now.hidden table) column (values_in cells.now)) }
        ensures none { IfNone result ((identifier : ℕ) → database.value_at_row self.now.hidden table identifier column ≡ None) }
    {
        match self.parts.get(table) {
            Some(found) => found.column(column),
            None => None,
        }
    }
}
