//! The query that a text means, gathered thing after thing.

ghost use Rattle.std.specs.Prelude.{◌≡◌, ℕ, false, ◌<◌, ◌≤◌, IfSome, ◌++◌, ◌∷◌, [], List, flat_map, length, map, option_map, option_to_list, take};
ghost use Rattle.ghost_base.specs.Views.{test_of, value_of};
ghost use Rattle.ghost_model.specs.core.Schema as model;
ghost use Rattle.ghost_model.specs.core.Query as query;
ghost use Rattle.ghost_model.specs.refusals.QueryMeaning as meaning;
ghost use Rattle.ghost_model.specs.refusals.Tokens.{number_of};
ghost use Rattle.ghost_model.specs.core.Values as values;
ghost use Rattle.tree_schema.specs.Marks as marks;
ghost use Rattle.spj_parse.specs.Drafts.{column_of, item_of, literal_of, piece_of, sign_of, test_text_of};
ghost use Rattle.spj_parse.specs.Conditions.{first_alone};
ghost use Rattle.spj_parse.specs.Adding.{Adds};
ghost use Rattle.spj_parse.specs.Items as items;
ghost use Rattle.spj_parse.specs.Items.{items_in};
ghost use Rattle.spj_parse.specs.Resolved as resolved;
ghost use Rattle.spj_parse.specs.Views.{field_of, join_of, member_of};

use crate::drafts::{ColumnDraft, Item, LiteralDraft, PieceDraft, Sign, TestDraft};
use crate::links::is_among;
use crate::literals::{integer_in, text_in};
use crate::names::{first_meaning, table_named};
use crate::query::{Field, Join, Member};
use crate::walk::Walk;
use arrayvec::ArrayVec;
use ghost_base::limits::{MAX_COLUMNS, MAX_CONDITIONS, MAX_SELECTED, MAX_TABLES};
use ghost_base::{Operator, Test, Text64, Value};
use tree_schema::Schema;
use tree_schema::schema::schemas_are_trees;

/// One more value, where there is room.
fn keep<T: Drop, const N: usize>(kept: &mut ArrayVec<T, N>, value: T)
    ensures room { length kept.old.items < N → kept.new.items ≡ kept.old.items ++ value ∷ [] }
    ensures full { N ≤ length kept.old.items → kept.new.items ≡ kept.old.items }
{
    if kept.is_full() {
        return;
    }
    kept.push(value);
}

/// The table that a thing names in FROM.
fn table_in(schema: &Schema, item: Item) -> Option<u8>
    ensures table { option_to_list result ≡ resolved.item_tables schema.now (item_of item.entry) }
{
    match item {
        Item::Star => None,
        Item::Selected(_) => None,
        Item::From(name) => match table_named(schema, name) {
            None => None,
            Some(table) => Some(table as u8),
        },
        Item::Where(_) => None,
    }
}

/// The table that a thing names in FROM, after those before.
fn add_table(from: &mut ArrayVec<u8, MAX_TABLES>, schema: &Schema, item: Item)
    ensures added { Adds (λ (table : ℕ). table) MAX_TABLES from.old.items from.new.items (resolved.item_tables schema.now (item_of item.entry)) }
{
    match table_in(schema, item) {
        None => {}
        Some(table) => keep(from, table),
    }
}

/// The FROM tables of a text in their order, the first 12 of those that exist.
pub(crate) fn from_tables(schema: &Schema, text: &[u8]) -> ArrayVec<u8, MAX_TABLES>
    ensures tables { result.items ≡ take MAX_TABLES (flat_map (resolved.item_tables schema.now) (items_in text.now)) }
{
    let mut from = ArrayVec::new();
    let mut walk = Walk::of(text);
    while let Some(item) = walk.next() {
        add_table(&mut from, schema, item);
    }
    from
}

/// All columns of a table, after those before.
fn add_columns(select: &mut ArrayVec<Field, MAX_SELECTED>, schema: &Schema, table: u8)
    ensures added { Adds field_of MAX_SELECTED select.old.items select.new.items (meaning.fields_of schema.now table) }
{
    let _ = schema.tables();
    schemas_are_trees();
    for column in 0..schema.columns(table as usize) {
        keep(
            select,
            Field {
                table,
                column: column as u8,
            },
        );
    }
}

/// All columns of the FROM tables, after those before.
fn add_all_columns(select: &mut ArrayVec<Field, MAX_SELECTED>, schema: &Schema, from: &[u8])
    ensures added { Adds field_of MAX_SELECTED select.old.items select.new.items (flat_map (meaning.fields_of schema.now) from.now) }
{
    for table in from {
        add_columns(select, schema, *table);
    }
}

/// The column that a column of a text means, after those before.
fn add_column(
    select: &mut ArrayVec<Field, MAX_SELECTED>,
    schema: &Schema,
    from: &[u8],
    column: ColumnDraft,
)
    ensures added { Adds field_of MAX_SELECTED select.old.items select.new.items (first_alone schema.now from.now (column_of column.entry)) }
{
    match first_meaning(schema, from, column) {
        None => {}
        Some(field) => keep(select, field),
    }
}

/// The columns that a thing selects, after those before.
fn add_fields(select: &mut ArrayVec<Field, MAX_SELECTED>, schema: &Schema, from: &[u8], item: Item)
    ensures added { Adds field_of MAX_SELECTED select.old.items select.new.items (resolved.item_fields schema.now from.now (item_of item.entry)) }
{
    match item {
        Item::Star => add_all_columns(select, schema, from),
        Item::Selected(column) => add_column(select, schema, from, column),
        Item::From(_) => {}
        Item::Where(_) => {}
    }
}

/// The columns that a text selects, the first 32.
pub(crate) fn selected(schema: &Schema, from: &[u8], text: &[u8]) -> ArrayVec<Field, MAX_SELECTED>
    ensures fields { map field_of result.items ≡ take MAX_SELECTED (flat_map (resolved.item_fields schema.now from.now) (items_in text.now)) }
{
    let mut select = ArrayVec::new();
    let mut walk = Walk::of(text);
    while let Some(item) = walk.next() {
        add_fields(&mut select, schema, from, item);
    }
    select
}

/// The value of a number; one that is outside 64 bits is 0 here.
fn number_value(sign: Sign, digits: &[u8]) -> Value
    ensures value { value_of result ≡ resolved.number_kept (meaning.with_sign (sign_of sign) (number_of digits.now)) }
{
    match integer_in(sign, digits) {
        None => Value::Int(0),
        Some(integer) => Value::Int(integer),
    }
}

/// The value of a text literal, of which 64 bytes are taken.
fn text_value(literal: &[u8]) -> Value
    ensures value { value_of result ≡ values.Text (take 64 (marks.literal_of literal.now)) }
{
    let text = text_in(literal);
    Value::Chars(Text64::of(text.front.as_slice()))
}

/// The value of a literal.
fn literal_value(literal: LiteralDraft) -> Value
    ensures value { value_of result ≡ resolved.literal_kept (literal_of literal.entry) }
{
    match literal {
        LiteralDraft::Unsigned(digits) => number_value(Sign::Positive, digits),
        LiteralDraft::Signed(sign, digits) => number_value(sign, digits),
        LiteralDraft::Written(bytes) => text_value(bytes),
    }
}

/// That a value is NULL, or that it is not.
fn null_test(negated: bool) -> Test
    ensures test { test_of result ≡ meaning.null_test negated }
{
    if negated {
        Test::IsNotNull
    } else {
        Test::IsNull
    }
}

/// A member of a group.
fn member(field: Field, test: Test, more: bool) -> Member
    ensures member { member_of result ≡ resolved.flagged more (field_of field) (test_of test) }
{
    Member { field, test, more }
}

/// A test of a column, after the members before.
fn add_test(
    kept: &mut ArrayVec<Member, MAX_CONDITIONS>,
    schema: &Schema,
    from: &[u8],
    test: TestDraft,
    more: bool,
)
    ensures added { Adds member_of MAX_CONDITIONS kept.old.items kept.new.items (resolved.members_with (first_alone schema.now from.now) (items.Tests (test_text_of test.entry) more)) }
{
    match test {
        TestDraft::Compares(column, operator, literal) => {
            match first_meaning(schema, from, column) {
                None => {}
                Some(field) => {
                    let test = Test::Compared(operator, literal_value(literal));
                    keep(kept, member(field, test, more))
                }
            }
        }
        TestDraft::TestsNull(column, negated) => match first_meaning(schema, from, column) {
            None => {}
            Some(field) => keep(kept, member(field, null_test(negated), more)),
        },
    }
}

/// The two members of a BETWEEN, after those before; each is a group of its own.
fn add_bounds(kept: &mut ArrayVec<Member, MAX_CONDITIONS>, field: Field, low: Value, high: Value)
    ensures added { Adds member_of MAX_CONDITIONS kept.old.items kept.new.items (resolved.flagged false (field_of field) (query.Compared query.AtLeast (value_of low)) ∷ resolved.flagged false (field_of field) (query.Compared query.AtMost (value_of high)) ∷ []) }
{
    keep(
        kept,
        member(field, Test::Compared(Operator::AtLeast, low), false),
    );
    keep(
        kept,
        member(field, Test::Compared(Operator::AtMost, high), false),
    );
}

/// The members that a part of a condition is, after those before.
fn add_members(
    kept: &mut ArrayVec<Member, MAX_CONDITIONS>,
    schema: &Schema,
    from: &[u8],
    piece: PieceDraft,
)
    ensures added { Adds member_of MAX_CONDITIONS kept.old.items kept.new.items (resolved.members_with (first_alone schema.now from.now) (piece_of piece.entry)) }
{
    match piece {
        PieceDraft::Tests(test, more) => add_test(kept, schema, from, test, more),
        PieceDraft::LiesBetween(column, low, high) => match first_meaning(schema, from, column) {
            None => {}
            Some(field) => add_bounds(kept, field, literal_value(low), literal_value(high)),
        },
        PieceDraft::Joins(_, _) => {}
    }
}

/// The members that a thing is, after those before.
fn add_item(kept: &mut ArrayVec<Member, MAX_CONDITIONS>, schema: &Schema, from: &[u8], item: Item)
    ensures added { Adds member_of MAX_CONDITIONS kept.old.items kept.new.items (resolved.item_members schema.now from.now (item_of item.entry)) }
{
    match item {
        Item::Star => {}
        Item::Selected(_) => {}
        Item::From(_) => {}
        Item::Where(piece) => add_members(kept, schema, from, piece),
    }
}

/// The members of a text, the first 16.
pub(crate) fn members(schema: &Schema, from: &[u8], text: &[u8]) -> ArrayVec<Member, MAX_CONDITIONS>
    ensures members { map member_of result.items ≡ take MAX_CONDITIONS (flat_map (resolved.item_members schema.now from.now) (items_in text.now)) }
{
    let mut kept = ArrayVec::new();
    let mut walk = Walk::of(text);
    while let Some(item) = walk.next() {
        add_item(&mut kept, schema, from, item);
    }
    kept
}

/// The first foreign key of a table to another.
fn key_between(schema: &Schema, holder: usize, child: u8) -> Option<usize>
    ensures key { result ≡ model.first_of (resolved.keys_between schema.now holder child) }
    ensures few { IfSome result (λ column. column < MAX_COLUMNS) }
{
    schema.reference(holder, child as usize)
}

/// The join of a table with its parent, if the parent is among the FROM tables.
fn join_to(schema: &Schema, from: &[u8], table: u8) -> Option<Join>
    ensures join { option_to_list (option_map join_of result) ≡ resolved.join_to schema.now from.now table }
{
    let _ = schema.tables();
    let Some(holder) = schema.parent(table as usize) else {
        return None;
    };
    if !is_among(from, holder) {
        return None;
    }
    match key_between(schema, holder, table) {
        None => None,
        Some(column) => Some(Join {
            key: Field {
                table: holder as u8,
                column: column as u8,
            },
            identifier: Field { table, column: 0 },
        }),
    }
}

/// The join of a table, after those before.
fn add_join(kept: &mut ArrayVec<Join, MAX_TABLES>, schema: &Schema, from: &[u8], table: u8)
    ensures added { Adds join_of MAX_TABLES kept.old.items kept.new.items (resolved.join_to schema.now from.now table) }
{
    match join_to(schema, from, table) {
        None => {}
        Some(join) => keep(kept, join),
    }
}

/// The joins of the FROM tables with their parents, the first 12.
pub(crate) fn joins(schema: &Schema, from: &[u8]) -> ArrayVec<Join, MAX_TABLES>
    ensures joins { map join_of result.items ≡ take MAX_TABLES (resolved.joins_of schema.now from.now) }
{
    let mut kept = ArrayVec::new();
    for table in from {
        add_join(&mut kept, schema, from, *table);
    }
    kept
}
