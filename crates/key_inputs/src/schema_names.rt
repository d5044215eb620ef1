//! The names that a schema's text declares, where it breaks a rule and no schema stands.

ghost use Rattle.std.specs.Prelude.{◌≡◌};
ghost use Rattle.ghost_model.specs.refusals.SchemaFaults as schemas;
ghost use Rattle.tree_schema.specs.Faults.{fault_of};
ghost use Rattle.key_inputs.specs.Rules.{schema_rule};

use crate::broken_schema::{BrokenSchema, ColumnNamed, TableNamed};
use crate::shown::Shown;
use tree_schema::{Cursor, Mark, SchemaFault};

/// The rule that a schema's text breaks, with the names that the text gives.
pub(crate) fn broken_in(text: &[u8], fault: SchemaFault) -> BrokenSchema
    ensures rule { schema_rule result ≡ fault_of fault }
{
    match fault {
        SchemaFault::Syntax { at } => BrokenSchema::Syntax { at },
        SchemaFault::Limit => BrokenSchema::Limit,
        SchemaFault::DuplicateName { table, column } => duplicate_in(text, table, column),
        SchemaFault::NoId { table } => BrokenSchema::NoId(table_in(text, table)),
        SchemaFault::UnknownTable { table, column } => {
            BrokenSchema::UnknownTable(column_in(text, table, column))
        }
        SchemaFault::TwoParents { child } => BrokenSchema::TwoParents(table_in(text, child)),
        SchemaFault::Cycle { table } => BrokenSchema::Cycle(table_in(text, table)),
        SchemaFault::NotOneRoot { roots } => BrokenSchema::NotOneRoot { roots },
    }
}

/// That the name of a column is given twice, or for column 0 that of its table.
fn duplicate_in(text: &[u8], table: usize, column: usize) -> BrokenSchema
    ensures rule { schema_rule result ≡ schemas.DuplicateName table column }
{
    if column == 0 {
        return BrokenSchema::DuplicateTable(table_in(text, table));
    }
    BrokenSchema::DuplicateColumn(column_in(text, table, column))
}

/// A table with the name that the text declares for it.
fn table_in(text: &[u8], table: usize) -> TableNamed
    ensures place { result.table ≡ table }
{
    let mut cursor = Cursor::of(text);
    let name = name_after(&mut cursor, Mark::Table, table);
    TableNamed { table, name }
}

/// A column with the names that the text declares for it and its table.
fn column_in(text: &[u8], table: usize, column: usize) -> ColumnNamed
    ensures table { result.table ≡ table }
    ensures column { result.column ≡ column }
{
    let mut cursor = Cursor::of(text);
    let table_name = name_after(&mut cursor, Mark::Table, table);
    let column_name = match column.checked_sub(1) {
        None => name_after(&mut cursor, Mark::Open, 0),
        Some(earlier) => name_after(&mut cursor, Mark::Comma, earlier),
    };
    ColumnNamed {
        table,
        column,
        table_name,
        column_name,
    }
}

/// The token after a mark that stands behind `earlier` more of its kind, empty where there are not so many.
fn name_after(cursor: &mut Cursor<'_>, mark: Mark, earlier: usize) -> Shown {
    let mut left = earlier;
    while let Some(token) = cursor.next() {
        if token.mark == mark && left == 0 {
            return token_shown(cursor);
        }
        if token.mark == mark {
            left -= 1;
        }
    }
    Shown::of(&[])
}

/// The next token, empty where there is none.
fn token_shown(cursor: &mut Cursor<'_>) -> Shown {
    match cursor.next() {
        Some(token) => Shown::of(token.bytes),
        None => Shown::of(&[]),
    }
}
