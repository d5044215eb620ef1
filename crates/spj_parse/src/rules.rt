//! The rules of the names in a text, each tested over the whole text.

ghost use Rattle.std.specs.Prelude.{◌≡◌, ◌||◌, Ok, length, nat_lt};
ghost use Rattle.std.specs.List.{list_any};
ghost use Rattle.ghost_model.specs.refusals.QueryGrammar as grammar;
ghost use Rattle.ghost_model.specs.refusals.QueryMeaning as meaning;
ghost use Rattle.ghost_model.specs.readings.QueryPlaces as places;
ghost use Rattle.ghost_model.specs.core.Schema as model;
ghost use Rattle.ghost_model.specs.refusals.Tokens.{in_lower_case};
ghost use Rattle.spj_parse.specs.Drafts.{column_of, item_of, piece_of, test_text_of};
ghost use Rattle.spj_parse.specs.Items.{items_in};
ghost use Rattle.spj_parse.specs.Rules.{breaks_rule, column_breaks, is_long, is_unknown, name_breaks, piece_columns, test_column};

use crate::drafts::{ColumnDraft, Item, PieceDraft, TestDraft};
use crate::names::{Meaning, meaning_of, table_named};
use crate::walk::Walk;
use ghost_base::limits::MAX_NAME;
use tree_schema::Schema;

/// What may be wrong with a name: it is too long, it stands for a table and no table has it, its column has no meaning
/// among the FROM tables, or several.
#[derive(Clone, Copy)]
pub(crate) enum NameRule {
    LongName,
    NoTable,
    NoMeaning,
    SeveralMeanings,
}

/// Whether a name is too long.
fn is_long(name: &[u8]) -> bool
    ensures long { result ≡ is_long (in_lower_case name.now) }
{
    name.len() > MAX_NAME
}

/// Whether no table has this name.
fn is_unknown(schema: &Schema, name: &[u8]) -> bool
    ensures unknown { result ≡ is_unknown schema.now (in_lower_case name.now) }
{
    table_named(schema, name).is_none()
}

/// Whether the name of a FROM table breaks a rule.
fn name_breaks(rule: NameRule, schema: &Schema, name: &[u8]) -> bool
    ensures breaks { result ≡ name_breaks rule schema.now (in_lower_case name.now) }
{
    match rule {
        NameRule::LongName => is_long(name),
        NameRule::NoTable => is_unknown(schema, name),
        NameRule::NoMeaning => false,
        NameRule::SeveralMeanings => false,
    }
}

/// Whether a column has a long name, or its table has.
fn has_long_name(column: ColumnDraft) -> bool
    ensures breaks { result ≡ (is_long (meaning.column_name (column_of column.entry)) || list_any is_long (meaning.qualifier_of (column_of column.entry))) }
{
    match column {
        ColumnDraft::Bare(name) => is_long(name),
        ColumnDraft::Qualified(table, name) => is_long(name) || is_long(table),
    }
}

/// Whether a column stands after a name that no table has.
fn has_unknown_table(schema: &Schema, column: ColumnDraft) -> bool
    ensures breaks { result ≡ list_any (is_unknown schema.now) (meaning.qualifier_of (column_of column.entry)) }
{
    match column {
        ColumnDraft::Bare(_) => false,
        ColumnDraft::Qualified(table, _) => is_unknown(schema, table),
    }
}

/// Whether a column means nothing among the FROM tables.
fn has_no_meaning(schema: &Schema, from: &[u8], column: ColumnDraft) -> bool
    ensures breaks { result ≡ model.is_empty (meaning.meanings schema.now from.now (column_of column.entry)) }
{
    match meaning_of(schema, from, column) {
        Meaning::Nothing => true,
        Meaning::One(_) => false,
        Meaning::Several => false,
    }
}

/// Whether a column has several meanings among the FROM tables.
fn has_several_meanings(schema: &Schema, from: &[u8], column: ColumnDraft) -> bool
    ensures breaks { result ≡ nat_lt 1 (length (meaning.meanings schema.now from.now (column_of column.entry))) }
{
    match meaning_of(schema, from, column) {
        Meaning::Nothing => false,
        Meaning::One(_) => false,
        Meaning::Several => true,
    }
}

/// Whether a column as it is written breaks a rule.
fn column_breaks(rule: NameRule, schema: &Schema, from: &[u8], column: ColumnDraft) -> bool
    ensures breaks { result ≡ column_breaks rule schema.now from.now (column_of column.entry) }
{
    match rule {
        NameRule::LongName => has_long_name(column),
        NameRule::NoTable => has_unknown_table(schema, column),
        NameRule::NoMeaning => has_no_meaning(schema, from, column),
        NameRule::SeveralMeanings => has_several_meanings(schema, from, column),
    }
}

/// The column of a test.
fn column_of_test<'a>(test: TestDraft<'a>) -> ColumnDraft<'a>
    ensures column { column_of result ≡ test_column (test_text_of test.entry) }
{
    match test {
        TestDraft::Compares(column, _, _) => column,
        TestDraft::TestsNull(column, _) => column,
    }
}

/// Whether a column of a part of a condition breaks a rule.
fn piece_breaks(rule: NameRule, schema: &Schema, from: &[u8], piece: PieceDraft) -> bool
    ensures breaks { result ≡ list_any (column_breaks rule schema.now from.now) (piece_columns (piece_of piece.entry)) }
{
    match piece {
        PieceDraft::Tests(test, _) => column_breaks(rule, schema, from, column_of_test(test)),
        PieceDraft::LiesBetween(column, _, _) => column_breaks(rule, schema, from, column),
        PieceDraft::Joins(left, right) => {
            column_breaks(rule, schema, from, left) || column_breaks(rule, schema, from, right)
        }
    }
}

/// Whether a name of a thing that a text names breaks a rule.
fn item_breaks(rule: NameRule, schema: &Schema, from: &[u8], item: Item) -> bool
    ensures breaks { result ≡ breaks_rule rule schema.now from.now (item_of item.entry) }
{
    match item {
        Item::Star => false,
        Item::Selected(column) => column_breaks(rule, schema, from, column),
        Item::From(table) => name_breaks(rule, schema, table),
        Item::Where(piece) => piece_breaks(rule, schema, from, piece),
    }
}

/// Whether a name of a text breaks a rule, over these FROM tables.
pub(crate) fn breaks_name_rule(rule: NameRule, schema: &Schema, from: &[u8], text: &[u8]) -> bool
    ensures breaks { result ≡ list_any (breaks_rule rule schema.now from.now) (items_in text.now) }
{
    Walk::of(text).any(|item| item_breaks(rule, schema, from, item))
}

/// Whether a table stands twice among these.
fn has_repeat(tables: &[u8]) -> bool
    ensures repeat { result ≡ meaning.has_repeat tables.now }
{
    for (place, table) in tables.iter().enumerate() {
        if tables[place + 1..].contains(table) {
            return true;
        }
    }
    false
}

/// Whether a FROM name or a qualifier of a text in the grammar is no table.
pub(crate) fn has_unknown_tables(schema: &Schema, text: &[u8]) -> bool
    ensures unknown { (tree : grammar.QueryText) → places.syntax_of text.now ≡ Ok tree → result ≡ meaning.has_unknown_table schema.now tree }
{
    breaks_name_rule(NameRule::NoTable, schema, &[], text)
}

/// Whether a column of a text in the grammar has no meaning among its FROM tables.
pub(crate) fn has_unknown_columns(schema: &Schema, from: &[u8], text: &[u8]) -> bool
    ensures unknown { (tree : grammar.QueryText) → places.syntax_of text.now ≡ Ok tree → from.now ≡ meaning.from_tables schema.now tree → result ≡ meaning.has_unknown_column schema.now tree }
{
    breaks_name_rule(NameRule::NoMeaning, schema, from, text)
}

/// Whether a table stands twice in FROM, or a column of a text in the grammar has several meanings among its FROM tables.
pub(crate) fn is_ambiguous(schema: &Schema, from: &[u8], text: &[u8]) -> bool
    ensures ambiguous { (tree : grammar.QueryText) → places.syntax_of text.now ≡ Ok tree → from.now ≡ meaning.from_tables schema.now tree → result ≡ meaning.is_ambiguous schema.now tree }
{
    if has_repeat(from) {
        return true;
    }
    breaks_name_rule(NameRule::SeveralMeanings, schema, from, text)
}
