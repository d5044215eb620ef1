//! The limits of a text.

ghost use Rattle.std.specs.Prelude.{◌≡◌, Ok, length, nat_lt, sum_by};
ghost use Rattle.ghost_model.specs.refusals.QueryMeaning as meaning;
ghost use Rattle.ghost_model.specs.refusals.Tokens.{in_lower_case};
ghost use Rattle.spj_parse.specs.Drafts.{item_of, piece_of};
ghost use Rattle.spj_parse.specs.Items.{items_in};
ghost use Rattle.ghost_model.specs.refusals.QueryGrammar as grammar;
ghost use Rattle.ghost_model.specs.readings.QueryPlaces as places;
ghost use Rattle.spj_parse.specs.Rules.{columns_or, is_star, selects_all, tests_of, weight_of, width_of};

use crate::drafts::{Item, PieceDraft};
use crate::names::table_named;
use crate::rules::{NameRule, breaks_name_rule};
use crate::walk::Walk;
use ghost_base::limits::{MAX_CONDITIONS, MAX_QUERY, MAX_SELECTED, MAX_TABLES};
use tree_schema::Schema;

/// What is counted: FROM tables, tests of columns, selected columns, or those that `*` stands for.
#[derive(Clone, Copy)]
pub(crate) enum Count {
    Tables,
    Tests,
    Columns,
    AllColumns,
}

/// The number of columns of the table of this name, 0 where there is no such table.
fn width_of(schema: &Schema, name: &[u8]) -> usize
    ensures width { result ≡ width_of schema.now (in_lower_case name.now) }
{
    match table_named(schema, name) {
        None => 0,
        Some(table) => schema.columns(table),
    }
}

/// How many tests of a column a part of a condition is; BETWEEN is two.
fn tests_of(piece: PieceDraft) -> usize
    ensures count { result ≡ tests_of (piece_of piece.entry) }
{
    match piece {
        PieceDraft::Tests(_, _) => 1,
        PieceDraft::LiesBetween(_, _, _) => 2,
        PieceDraft::Joins(_, _) => 0,
    }
}

/// How much a thing that a text names counts.
fn weight_of(count: Count, schema: &Schema, item: Item) -> usize
    ensures weight { result ≡ weight_of count schema.now (item_of item.entry) }
{
    match count {
        Count::Tables => match item {
            Item::From(_) => 1,
            _ => 0,
        },
        Count::Tests => match item {
            Item::Where(piece) => tests_of(piece),
            _ => 0,
        },
        Count::Columns => match item {
            Item::Selected(_) => 1,
            _ => 0,
        },
        Count::AllColumns => match item {
            Item::From(table) => width_of(schema, table),
            _ => 0,
        },
    }
}

/// Whether a text has more of something than a limit.
fn has_more_than(limit: usize, count: Count, schema: &Schema, text: &[u8]) -> bool
    ensures more { result ≡ nat_lt limit (sum_by (weight_of count schema.now) (items_in text.now)) }
{
    let mut walk = Walk::of(text);
    let mut left = limit;
    while let Some(item) = walk.next() {
        let weight = weight_of(count, schema, item);
        if weight > left {
            return true;
        }
        left -= weight;
    }
    false
}

/// Whether a thing is `*`.
fn is_star(item: Item) -> bool
    ensures star { result ≡ is_star (item_of item.entry) }
{
    match item {
        Item::Star => true,
        Item::Selected(_) => false,
        Item::From(_) => false,
        Item::Where(_) => false,
    }
}

/// Whether a text selects all columns.
fn selects_all(text: &[u8]) -> bool
    ensures all { result ≡ selects_all (items_in text.now) }
{
    let mut walk = Walk::of(text);
    let Some(item) = walk.next() else {
        return false;
    };
    is_star(item)
}

/// What counts as a selected column.
fn columns_or(all: bool) -> Count
    ensures count { result ≡ columns_or all }
{
    if all {
        Count::AllColumns
    } else {
        Count::Columns
    }
}

/// Whether a text is too long.
fn is_too_long(text: &[u8]) -> bool
    ensures long { result ≡ nat_lt MAX_QUERY (length text.now) }
{
    text.len() > MAX_QUERY
}

/// Whether a text in the grammar is beyond the limits.
pub(crate) fn is_over_limit(schema: &Schema, text: &[u8]) -> bool
    ensures over { (tree : grammar.QueryText) → places.syntax_of text.now ≡ Ok tree → result ≡ meaning.is_over_limit schema.now text.now tree }
{
    if is_too_long(text) {
        return true;
    }
    if breaks_name_rule(NameRule::LongName, schema, &[], text) {
        return true;
    }
    if has_more_than(MAX_TABLES, Count::Tables, schema, text) {
        return true;
    }
    if has_more_than(MAX_CONDITIONS, Count::Tests, schema, text) {
        return true;
    }
    let columns = columns_or(selects_all(text));
    has_more_than(MAX_SELECTED, columns, schema, text)
}
