//! Whether foreign keys are identifiers of rows.

ghost use Rattle.std.specs.Prelude.{◌≡◌, ◌≤◌, ◌<◌, ◌+◌, length, map};
ghost use Rattle.ghost_model.specs.laws.LoadLaws as load_laws;
ghost use Rattle.ghost_model.specs.core.Database as database;
ghost use Rattle.ghost_model.specs.refusals.LoadFaults as faults;
ghost use Rattle.ghost_base.specs.Views.{value_of};
ghost use Rattle.tree_schema.specs.Views.{column_of};
ghost use Rattle.csv_split.specs.Faults.{place_of, told};
ghost use Rattle.csv_split.specs.References.{key_faults_in, row_or_none};
ghost use Rattle.csv_split.specs.Wants.{NeverWants};

use crate::faults::{LoadFault, Place};
use crate::schema_columns::columns_in;
use crate::tables::Tables;
use ghost_base::{Id, Value};
use tree_schema::{Column, Schema};

/// Tells the first foreign key, by table, record and column, that is the identifier of no row of its child table.
pub fn check_references(schema: &Schema, tables: &Tables) -> Result<(), LoadFault>
    ensures judged { load_laws.Judges told result (faults.reference_faults schema.now tables.now) }
    ensures tells { NeverWants result }
{
    for table in 0..schema.tables() {
        check_table(tables, table as u8, columns_in(schema, table))?;
    }
    Ok(())
}

/// Tells the first foreign key of a table that is the identifier of no row.
pub(crate) fn check_table(tables: &Tables, table: u8, columns: &[Column]) -> Result<(), LoadFault>
    requires { length columns.now ≤ 24 }
    ensures judged { load_laws.Judges told result (faults.table_references tables.now table 2 (map column_of columns.now) (database.rows_of tables.now table)) }
    ensures tells { NeverWants result }
{
    for place in 0..tables.rows(table as usize) {
        let at = Place {
            table,
            rec: place + 2,
            column: 0,
        };
        check_row(tables, at, columns, place + 1)?;
    }
    Ok(())
}

/// Tells the first foreign key of a row that is the identifier of no row.
fn check_row(
    tables: &Tables,
    at: Place,
    columns: &[Column],
    identifier: Id,
) -> Result<(), LoadFault>
    requires { length columns.now ≤ 24 }
    ensures judged { load_laws.Judges told result (faults.row_reference_faults tables.now at.table at.rec 0 (map column_of columns.now) (row_or_none (database.row_of tables.now at.table identifier))) }
    ensures tells { NeverWants result }
{
    for (i, column) in columns.iter().enumerate() {
        let key_at = Place {
            column: i as u8,
            ..at
        };
        check_key(tables, key_at, identifier, column.child)?;
    }
    Ok(())
}

/// Tells a value that is the identifier of no row of the child table, where the column is a foreign key.
fn check_key(tables: &Tables, at: Place, identifier: Id, child: Option<u8>) -> Result<(), LoadFault>
    ensures judged { load_laws.Judges told result (key_faults_in tables.now (place_of at) child (database.value_at_row tables.now at.table identifier at.column)) }
    ensures tells { NeverWants result }
{
    let Some(child) = child else {
        return Ok(());
    };
    let Some(value) = tables.value(at.table as usize, identifier, at.column as usize) else {
        return Ok(());
    };
    if !is_row_among(tables.rows(child as usize), &value) {
        return Err(LoadFault::BadReference(at));
    }
    Ok(())
}

/// Whether a value is the identifier of one of so many rows.
fn is_row_among(count: u32, value: &Value) -> bool
    ensures { result ≡ database.is_row_among count (value_of value.now) }
{
    match value {
        Value::Int(number) => 1 <= *number && *number <= i64::from(count),
        Value::Null | Value::Chars(_) => false,
    }
}
