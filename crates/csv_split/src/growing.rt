//! Columns that grow row by row.

ghost use Rattle.std.specs.Prelude.{◌≡◌, ◌≤◌, ◌+◌, ◌++◌, ◌∷◌, ℕ, [], true, length, map, OnOk};
ghost use Rattle.ghost_model.specs.core.Split.{are_of_kinds};
ghost use Rattle.ghost_model.specs.refusals.LoadFaults as faults;
ghost use Rattle.ghost_base.specs.Views.{value_of};
ghost use Rattle.csv_split.specs.Cells.{kind_in};
ghost use Rattle.csv_split.specs.Parts.{part_in};
ghost use Rattle.csv_split.specs.Reading.{AtMost, HaveAll};
ghost use Rattle.csv_split.specs.Tables.{column_values};

use crate::cells::Cells;
use ghost_base::Value;
use std::alloc::AllocError;

/// Puts the values of a row, one for each column and of its kind, at the ends of the columns. Where they have as many rows as one
/// another, they are the columns of one row more then.
pub fn push_row(row: &[Value], columns: &mut [Cells]) -> Result<(), AllocError>
    requires held { are_of_kinds (map kind_in columns.old) (map value_of row.now) ≡ true }
    requires room { AtMost faults.most_rows (column_values columns.old) }
    ensures kinds { map kind_in columns.new ≡ map kind_in columns.old }
    ensures all { OnOk result ((count : ℕ) → HaveAll count (column_values columns.old) → HaveAll (count + 1) (column_values columns.new)) }
    ensures rows { OnOk result ((count : ℕ) → HaveAll count (column_values columns.old)
        → part_in (count + 1) (column_values columns.new) ≡ part_in count (column_values columns.old) ++ map value_of row.now ∷ []) }
{
    for i in 0..columns.len() {
        columns[i].push(&row[i])?;
    }
    Ok(())
}
