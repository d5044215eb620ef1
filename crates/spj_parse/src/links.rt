//! How the FROM tables of a text are linked.

ghost use Rattle.std.specs.Prelude.{◌≡◌, Ok, not};
ghost use Rattle.std.specs.List.{list_any};
ghost use Rattle.ghost_model.specs.refusals.QueryGrammar as grammar;
ghost use Rattle.ghost_model.specs.core.Query as query;
ghost use Rattle.ghost_model.specs.refusals.QueryMeaning as meaning;
ghost use Rattle.ghost_model.specs.readings.QueryPlaces as places;
ghost use Rattle.ghost_model.specs.core.Schema as model;
ghost use Rattle.spj_parse.specs.Conditions.{IsClear};
ghost use Rattle.spj_parse.specs.Items.{items_in};
ghost use Rattle.spj_parse.specs.Links.{lacks_join_in, top_among};

use crate::conditions::{ConditionTest, any_condition_passes};
use tree_schema::Schema;

/// Whether a table is among these.
pub(crate) fn is_among(tables: &[u8], table: usize) -> bool
    ensures among { result ≡ query.is_among tables.now table }
{
    tables.iter().any(|other| *other as usize == table)
}

/// Whether the parent of a table is among these.
fn has_parent_among(schema: &Schema, tables: &[u8], table: u8) -> bool
    ensures among { result ≡ query.is_some_among tables.now (model.parent schema.now table) }
{
    match schema.parent(table as usize) {
        None => false,
        Some(parent) => is_among(tables, parent),
    }
}

/// The one table whose parent is not among these.
pub(crate) fn top_among(schema: &Schema, from: &[u8]) -> Option<u8>
    ensures top { result ≡ top_among schema.now from.now }
{
    let mut top = None;
    for table in from {
        if !has_parent_among(schema, from, *table) {
            if top.is_some() {
                return None;
            }
            top = Some(*table);
        }
    }
    top
}

/// Whether a FROM table whose parent is in FROM is not joined with it.
fn lacks_join(schema: &Schema, from: &[u8], text: &[u8], table: u8) -> bool
    ensures lacks { result ≡ lacks_join_in schema.now from.now (items_in text.now) table }
{
    has_parent_among(schema, from, table)
        && !any_condition_passes(ConditionTest::JoinOf(table), schema, from, text)
}

/// Whether one of the FROM tables lacks its join.
fn any_lacks_join(schema: &Schema, from: &[u8], text: &[u8]) -> bool
    ensures lacks { result ≡ list_any (lacks_join_in schema.now from.now (items_in text.now)) from.now }
{
    from.iter()
        .any(|table| lacks_join(schema, from, text, *table))
}

/// Whether the tables of a text are not linked: a condition between two columns is no join, there is no one top table, or
/// another FROM table lacks its join.
pub(crate) fn is_unlinked(schema: &Schema, from: &[u8], text: &[u8]) -> bool
    ensures unlinked { (tree : grammar.QueryText) → places.syntax_of text.now ≡ Ok tree → from.now ≡ meaning.from_tables schema.now tree → IsClear schema.now tree → result ≡ meaning.is_unlinked schema.now (meaning.resolved schema.now tree) }
{
    if any_condition_passes(ConditionTest::Improper, schema, from, text) {
        return true;
    }
    if top_among(schema, from).is_none() {
        return true;
    }
    any_lacks_join(schema, from, text)
}
