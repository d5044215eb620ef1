//! Tests of the conditions of a text, where each column means the first of its meanings.

ghost use Rattle.std.specs.Prelude.{◌≡◌, option_map};
ghost use Rattle.std.specs.List.{list_any};
ghost use Rattle.ghost_base.specs.Views.{kind_of};
ghost use Rattle.ghost_model.specs.refusals.QueryMeaning as meaning;
ghost use Rattle.ghost_model.specs.core.Query as query;
ghost use Rattle.ghost_model.specs.core.Schema as model;
ghost use Rattle.ghost_model.specs.core.Values as values;
ghost use Rattle.tree_schema.specs.Marks as marks;
ghost use Rattle.spj_parse.specs.Conditions.{conditions_meant, item_passes, passes_test};
ghost use Rattle.spj_parse.specs.Drafts.{item_of, literal_of, piece_of};
ghost use Rattle.spj_parse.specs.Items.{items_in};
ghost use Rattle.spj_parse.specs.Views.{field_of};

use crate::drafts::{Item, LiteralDraft, PieceDraft, Sign, TestDraft};
use crate::literals::{integer_in, text_in};
use crate::names::{first_meaning, is_table};
use crate::query::Field;
use crate::walk::Walk;
use ghost_base::Kind;
use tree_schema::Schema;

/// A test of a condition: its literal is of another kind than its column, or does not fit there; it is no join though it
/// is between two columns; it is the join of a table with its parent.
#[derive(Clone, Copy)]
pub(crate) enum ConditionTest {
    OtherKind,
    TooLarge,
    Improper,
    JoinOf(u8),
}

/// The kind of a column.
fn kind_at(schema: &Schema, field: Field) -> Option<Kind>
    ensures kind { option_map kind_of result ≡ model.column_kind schema.now field.table field.column }
{
    match schema.column(field.table as usize, field.column as usize) {
        None => None,
        Some(found) => Some(found.kind),
    }
}

/// Whether a literal is of another kind than a column's.
fn is_other_kind(kind: Option<Kind>, literal: LiteralDraft) -> bool
    ensures other { result ≡ meaning.is_other_kind (option_map kind_of kind) (meaning.value_of_literal (literal_of literal.entry)) }
{
    match kind {
        None => false,
        Some(Kind::Integer | Kind::IntegerOrNull) => match literal {
            LiteralDraft::Unsigned(_) => false,
            LiteralDraft::Signed(_, _) => false,
            LiteralDraft::Written(_) => true,
        },
        Some(Kind::Chars(_) | Kind::CharsOrNull(_)) => match literal {
            LiteralDraft::Unsigned(_) => true,
            LiteralDraft::Signed(_, _) => true,
            LiteralDraft::Written(_) => false,
        },
    }
}

/// Whether a text literal is longer than the texts of a column's kind.
fn is_too_long(kind: Option<Kind>, literal: &[u8]) -> bool
    ensures long { result ≡ meaning.is_too_large (option_map kind_of kind) (values.Text (marks.literal_of literal.now)) }
{
    match kind {
        None => false,
        Some(Kind::Integer | Kind::IntegerOrNull) => false,
        Some(Kind::Chars(most) | Kind::CharsOrNull(most)) => text_in(literal).len > most as usize,
    }
}

/// Whether a literal does not fit into a column of a kind.
fn is_too_large(kind: Option<Kind>, literal: LiteralDraft) -> bool
    ensures large { result ≡ meaning.is_too_large (option_map kind_of kind) (meaning.value_of_literal (literal_of literal.entry)) }
{
    match literal {
        LiteralDraft::Unsigned(digits) => integer_in(Sign::Positive, digits).is_none(),
        LiteralDraft::Signed(sign, digits) => integer_in(sign, digits).is_none(),
        LiteralDraft::Written(bytes) => is_too_long(kind, bytes),
    }
}

/// Whether the first column is a foreign key and the second the identifier of its child.
fn is_key_to(schema: &Schema, key: Field, identifier: Field) -> bool
    ensures key { result ≡ meaning.is_reference_to schema.now (field_of key) (field_of identifier) }
{
    let child = schema.child(key.table as usize, key.column as usize);
    is_table(child, identifier.table) && identifier.column == 0
}

/// Whether two columns are a join, either side first.
fn is_join(schema: &Schema, left: Field, right: Field) -> bool
    ensures join { result ≡ meaning.is_proper schema.now (query.Join (field_of left) (field_of right)) }
{
    is_key_to(schema, left, right) || is_key_to(schema, right, left)
}

/// Whether two columns are the join of a table with its parent.
fn is_join_of(schema: &Schema, table: u8, left: Field, right: Field) -> bool
    ensures join { result ≡ meaning.is_join_of schema.now table (query.Join (field_of left) (field_of right)) }
{
    (is_key_to(schema, left, right) && right.table == table)
        || (is_key_to(schema, right, left) && left.table == table)
}

/// Whether a member passes a test, whatever its operator.
fn member_passes(test: ConditionTest, schema: &Schema, field: Field, literal: LiteralDraft) -> bool
    ensures passes { (operator : query.Operator) → result ≡ passes_test test schema.now (query.compared (field_of field) operator (meaning.value_of_literal (literal_of literal.entry))) }
{
    match test {
        ConditionTest::OtherKind => is_other_kind(kind_at(schema, field), literal),
        ConditionTest::TooLarge => is_too_large(kind_at(schema, field), literal),
        ConditionTest::Improper => false,
        ConditionTest::JoinOf(_) => false,
    }
}

/// Whether a condition between two columns passes a test.
fn join_passes(test: ConditionTest, schema: &Schema, left: Field, right: Field) -> bool
    ensures passes { result ≡ passes_test test schema.now (query.Join (field_of left) (field_of right)) }
{
    match test {
        ConditionTest::OtherKind => false,
        ConditionTest::TooLarge => false,
        ConditionTest::Improper => !is_join(schema, left, right),
        ConditionTest::JoinOf(table) => is_join_of(schema, table, left, right),
    }
}

/// Whether one of the conditions that a part of a condition is passes a test, each member standing alone.
fn piece_passes(test: ConditionTest, schema: &Schema, from: &[u8], piece: PieceDraft) -> bool
    ensures passes { result ≡ list_any (passes_test test schema.now) (conditions_meant schema.now from.now (piece_of piece.entry)) }
{
    match piece {
        PieceDraft::Tests(one, _) => match one {
            TestDraft::Compares(column, _, literal) => match first_meaning(schema, from, column) {
                None => false,
                Some(field) => member_passes(test, schema, field, literal),
            },
            TestDraft::TestsNull(_, _) => false,
        },
        PieceDraft::LiesBetween(column, low, high) => match first_meaning(schema, from, column) {
            None => false,
            Some(field) => {
                member_passes(test, schema, field, low) || member_passes(test, schema, field, high)
            }
        },
        PieceDraft::Joins(left, right) => match first_meaning(schema, from, left) {
            None => false,
            Some(left) => match first_meaning(schema, from, right) {
                None => false,
                Some(right) => join_passes(test, schema, left, right),
            },
        },
    }
}

/// Whether a thing that a text names is a part of a condition that passes a test.
fn item_passes(test: ConditionTest, schema: &Schema, from: &[u8], item: Item) -> bool
    ensures passes { result ≡ item_passes test schema.now from.now (item_of item.entry) }
{
    match item {
        Item::Star => false,
        Item::Selected(_) => false,
        Item::From(_) => false,
        Item::Where(piece) => piece_passes(test, schema, from, piece),
    }
}

/// Whether a condition of a text passes a test, over these FROM tables.
pub(crate) fn any_condition_passes(
    test: ConditionTest,
    schema: &Schema,
    from: &[u8],
    text: &[u8],
) -> bool
    ensures passes { result ≡ list_any (item_passes test schema.now from.now) (items_in text.now) }
{
    Walk::of(text).any(|item| item_passes(test, schema, from, item))
}
