//! The rules that make the tables of a schema one tree.

ghost use Rattle.std.specs.Prelude.{◌≡◌, ◌≤◌, length, find, count_by, option_and_then};
ghost use Rattle.ghost_model.specs.core.Schema as schema;
ghost use Rattle.ghost_model.specs.core.Schema.{places_of};
ghost use Rattle.ghost_model.specs.refusals.SchemaFaults as faults;
ghost use Rattle.tree_schema.specs.Views.{schema_of, table_of};
ghost use Rattle.tree_schema.specs.Faults.{refused, is_shared, fault_of_tree};

use crate::SchemaFault;
use crate::schema::{Column, Table, is_key_to, is_table, parent_in};
use ghost_base::limits::{MAX_COLUMNS, MAX_TABLES};

/// The number of columns that are foreign keys to a table.
fn keys_in(columns: &[Column], child: usize) -> usize
    ensures keys { result ≡ count_by (λ column. schema.is_table child column.child) columns.now }
    ensures few { result ≤ length columns.now }
{
    let mut keys = 0;
    for column in columns {
        if is_key_to(column, child) {
            keys += 1;
        }
    }
    keys
}

/// The number of a table's foreign keys to a table.
fn keys_of(table: &Table, child: usize) -> usize
    ensures keys { result ≡ length (schema.references_to child (table_of table.now)) }
    ensures few { result ≤ MAX_COLUMNS }
{
    keys_in(&table.columns, child)
}

/// The number of foreign keys to a table.
fn keys_naming(tables: &[Table], child: usize) -> usize
    requires few { length tables.now ≤ MAX_TABLES }
    ensures keys { result ≡ faults.references_naming (schema_of tables.now) child }
{
    let mut keys = 0;
    for table in tables {
        keys += keys_of(table, child);
    }
    keys
}

/// The first table that two foreign keys name.
fn first_shared(tables: &[Table]) -> Option<usize>
    requires few { length tables.now ≤ MAX_TABLES }
    ensures first { result ≡ find (is_shared (schema_of tables.now)) (places_of (schema_of tables.now)) }
{
    for child in 0..tables.len() {
        if keys_naming(tables, child) > 1 {
            return Some(child);
        }
    }
    None
}

/// The parent of a table, where there is a table.
fn parent_of(tables: &[Table], table: Option<usize>) -> Option<usize>
    ensures parent { result ≡ option_and_then (schema.parent (schema_of tables.now)) table }
{
    match table {
        None => None,
        Some(here) => parent_in(tables, here),
    }
}

/// Whether following parents from a table returns to it. What returns does so in as many steps as there are tables.
fn returns(tables: &[Table], table: usize) -> bool
    ensures back { result ≡ faults.returns (schema_of tables.now) table }
{
    let mut here = Some(table);
    for step in 0..tables.len() {
        here = parent_of(tables, here);
        if is_table(here, table) {
            return true;
        }
    }
    false
}

/// The first table from which following parents returns.
fn first_in_cycle(tables: &[Table]) -> Option<usize>
    ensures first { result ≡ find (faults.returns (schema_of tables.now)) (places_of (schema_of tables.now)) }
{
    for table in 0..tables.len() {
        if returns(tables, table) {
            return Some(table);
        }
    }
    None
}

/// The number of tables without a parent.
fn roots_of(tables: &[Table]) -> usize
    ensures roots { result ≡ faults.roots_of (schema_of tables.now) }
{
    let mut roots = 0;
    for table in 0..tables.len() {
        if parent_in(tables, table).is_none() {
            roots += 1;
        }
    }
    roots
}

/// Tests the rules that make the tables one tree: none is named twice, none returns to itself, and one is the root.
pub(crate) fn check_tree(tables: &[Table]) -> Result<(), SchemaFault>
    requires few { length tables.now ≤ MAX_TABLES }
    ensures refused { refused result ≡ fault_of_tree (schema_of tables.now) }
{
    if let Some(child) = first_shared(tables) {
        return Err(SchemaFault::TwoParents { child });
    }
    if let Some(table) = first_in_cycle(tables) {
        return Err(SchemaFault::Cycle { table });
    }
    let roots = roots_of(tables);
    if roots != 1 {
        return Err(SchemaFault::NotOneRoot { roots });
    }
    Ok(())
}
