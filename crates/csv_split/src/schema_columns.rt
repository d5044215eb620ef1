//! The columns of a schema's table.

ghost use Rattle.std.specs.Prelude.{◌≡◌, ◌<◌, ◌≤◌, drop, length, map};
ghost use Rattle.ghost_model.specs.core.Schema as schemas;
ghost use Rattle.tree_schema.specs.Views.{column_of};
ghost use Rattle.csv_split.specs.Reading.{AreColumns, columns_of, with_identifier};

use tree_schema::schema::schemas_are_trees;
use tree_schema::{Column, Schema};

/// The columns of a table, and none where there is no such table.
pub(crate) fn columns_in(schema: &Schema, table: usize) -> &[Column]
    ensures columns { map column_of result.now ≡ schemas.columns_of schema.now table }
    ensures few { length result.now ≤ 24 }
{
    let _tables = schema.tables();
    schemas_are_trees();
    columns_at(schema, table)
}

/// The columns of a table, whatever the schema.
fn columns_at(schema: &Schema, table: usize) -> &[Column]
    ensures { map column_of result.now ≡ schemas.columns_of schema.now table }
{
    match schema.table(table) {
        Some(found) => &found.columns,
        None => &[],
    }
}

/// The columns of a table after its identifier.
pub(crate) fn declared_columns(schema: &Schema, table: usize) -> &[Column]
    requires { table < length schema.now }
    ensures columns { with_identifier (columns_of result.now) ≡ schemas.columns_of schema.now table }
    ensures are { AreColumns (columns_of result.now) }
    ensures few { table < 12 }
{
    let _tables = schema.tables();
    schemas_are_trees();
    later_columns(columns_in(schema, table))
}

/// Columns but the first.
fn later_columns(columns: &[Column]) -> &[Column]
    ensures { result.now ≡ drop 1 columns.now }
{
    match columns.split_first() {
        Some((_, later)) => later,
        None => &[],
    }
}
