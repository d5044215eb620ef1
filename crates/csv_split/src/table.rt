//! Tables in memory.

ghost use Rattle.std.specs.Prelude.{◌≡◌, ℕ, ◌≤◌, ◌<◌, pos, length, slice_get, option_map, IfSome, IfNone, None};
ghost use Rattle.ghost_model.specs.refusals.LoadFaults as faults;
ghost use Rattle.ghost_model.specs.core.Values.{Number};
ghost use Rattle.ghost_base.specs.Views.{value_of};
ghost use Rattle.csv_split.specs.Cells.{values_in};
ghost use Rattle.csv_split.specs.Reading.{HaveAll};
ghost use Rattle.csv_split.specs.Tables.{IsColumn, column_values, rows_in, value_in, value_of_columns};

use crate::cells::Cells;
use ghost_base::{Id, Value};
use std::marker::Model;

/// A table, which a clause sees as the list of its rows, each with its identifier first.
#[derive(Drop)]
pub struct Table {
    rows: u32,
    columns: Vec<Cells>,
}

impl Model for Table {
    ghost use Rattle.ghost_model.specs.core.Values.{Rows};
    ghost use Rattle.csv_split.specs.Tables.{IsTable, rows_of_table};

    ghost Value = { Rows };

    ghost view = { rows_of_table };

    ghost invariant = { IsTable };
}

impl Table {
    /// The rows of columns that have so many values each.
    pub(crate) fn of(rows: u32, columns: Vec<Cells>) -> Table
        requires few { rows ≤ faults.most_rows }
        requires all { HaveAll rows (column_values columns.items) }
        ensures { result ≡ rows_in rows (column_values columns.items) }
    {
        Table { rows, columns }
    }

    /// The number of rows.
    pub fn rows(&self) -> u32
        ensures count { result ≡ length self.now }
        ensures few { result ≤ faults.most_rows }
    {
        self.rows
    }

    /// The value in a column of the row with an identifier, and `None` exactly where there is no such row or column. In
    /// column 0 it is the identifier.
    pub fn value(&self, identifier: Id, column: usize) -> Option<Value>
        ensures { option_map value_of result ≡ value_in self.now identifier column }
    {
        if identifier == 0 || identifier > self.rows {
            return None;
        }
        if column == 0 {
            return Some(number_of(identifier));
        }
        cell_at(&self.columns, column - 1, identifier as usize - 1)
    }

    /// The values of a column, in the order of the rows. There are none of the identifier, and none of a column that the
    /// table has not.
    pub fn column(&self, column: usize) -> Option<&Cells>
        ensures held { IfSome result (λ cells. IsColumn self.now column (values_in cells.now)) }
        ensures none { IfNone result (0 < column → (identifier : ℕ) → value_in self.now identifier column ≡ None) }
    {
        if column == 0 {
            return None;
        }
        cells_at(&self.columns, column - 1)
    }

    /// The columns but the identifier, moved out.
    pub(crate) fn into_columns(self) -> Vec<Cells>
        ensures rows { self ≡ rows_in (length self) (column_values result.items) }
        ensures all { HaveAll (length self) (column_values result.items) }
    {
        self.columns
    }
}

/// An identifier as a value.
fn number_of(identifier: Id) -> Value
    ensures { value_of result ≡ Number (pos identifier) }
{
    Value::Int(i64::from(identifier))
}

/// A column, the columns being counted from 0.
pub(crate) fn cells_at(columns: &[Cells], column: usize) -> Option<&Cells>
    ensures { option_map (λ cells. values_in cells.now) result ≡ slice_get (column_values columns.now) column }
{
    columns.get(column)
}

/// The value at a place of a column, the columns being counted from 0.
pub(crate) fn cell_at(columns: &[Cells], column: usize, place: usize) -> Option<Value>
    ensures { option_map value_of result ≡ value_of_columns (column_values columns.now) column place }
{
    match columns.get(column) {
        Some(cells) => cells.get(place),
        None => None,
    }
}
