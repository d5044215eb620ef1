//! Parts of tables: some columns, with all rows.

ghost use Rattle.std.specs.Prelude.{◌≡◌, ℕ, ◌≤◌, length, slice_get, option_map, IfSome, IfNone, None};
ghost use Rattle.ghost_model.specs.refusals.LoadFaults as faults;
ghost use Rattle.ghost_base.specs.Views.{value_of};
ghost use Rattle.csv_split.specs.Cells.{values_in};
ghost use Rattle.csv_split.specs.Parts.{part_in};
ghost use Rattle.csv_split.specs.Reading.{HaveAll};
ghost use Rattle.csv_split.specs.Tables.{IsColumn, column_values, value_in};

use crate::cells::Cells;
use crate::table::{cell_at, cells_at};
use ghost_base::{Id, Value};
use std::marker::Model;

/// Some columns of a table, which a clause sees as the list of its rows: each has one value for each of these columns,
/// and its identifier is not among them.
#[derive(Drop)]
pub struct Part {
    rows: u32,
    columns: Vec<Cells>,
}

impl Model for Part {
    ghost use Rattle.ghost_model.specs.core.Values.{Rows};
    ghost use Rattle.csv_split.specs.Parts.{IsPart, rows_of_part};

    ghost Value = { Rows };

    ghost view = { rows_of_part };

    ghost invariant = { IsPart };
}

impl Part {
    /// The rows of columns that have so many values each.
    pub fn of(rows: u32, columns: Vec<Cells>) -> Part
        requires few { rows ≤ faults.most_rows }
        requires all { HaveAll rows (column_values columns.items) }
        ensures { result ≡ part_in rows (column_values columns.items) }
    {
        Part { rows, columns }
    }

    /// The number of rows.
    pub fn rows(&self) -> u32
        ensures count { result ≡ length self.now }
        ensures few { result ≤ faults.most_rows }
    {
        self.rows
    }

    /// The value in a column of the row with an identifier, and `None` exactly where there is no such row or column.
    /// The columns are counted from 0.
    pub fn value(&self, identifier: Id, column: usize) -> Option<Value>
        ensures { option_map value_of result ≡ value_in self.now identifier column }
    {
        if identifier == 0 || identifier > self.rows {
            return None;
        }
        cell_at(&self.columns, column, identifier as usize - 1)
    }

    /// The values of a column, in the order of the rows, and none of a column that the part has not. The columns are
    /// counted from 0.
    pub fn column(&self, column: usize) -> Option<&Cells>
        ensures held { IfSome result (λ cells. IsColumn self.now column (values_in cells.now)) }
        ensures none { IfNone result ((identifier : ℕ) → value_in self.now identifier column ≡ None) }
    {
        cells_at(&self.columns, column)
    }

    /// The columns.
    pub(crate) fn columns(&self) -> &[Cells]
        ensures rows { self.now ≡ part_in (length self.now) (column_values result.now) }
        ensures all { HaveAll (length self.now) (column_values result.now) }
    {
        &self.columns
    }

    /// The columns, moved out.
    pub(crate) fn into_columns(self) -> Vec<Cells>
        ensures rows { self ≡ part_in (length self) (column_values result.items) }
        ensures all { HaveAll (length self) (column_values result.items) }
    {
        self.columns
    }
}
