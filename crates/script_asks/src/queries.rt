//! The asks of one query.

ghost use Rattle.std.specs.Prelude.{◌≡◌, ℕ, ◌+◌, ◌<◌, ◌≤◌, ◌&&◌, ◌==◌, List, [], ◌∷◌, ◌++◌, length, filter, map, option_map, option_to_list, IfSome, IfNone};
ghost use Rattle.std.specs.List.{list_all, list_any};
ghost use Rattle.arrayvec.specs.ArrayVec.{array_vec_len};
ghost use Rattle.ghost_model.specs.laws.ShortWords as short;
ghost use Rattle.ghost_model.specs.core.Asks as asks;
ghost use Rattle.ghost_model.specs.core.Groups.{each_of, some_of};
ghost use Rattle.ghost_model.specs.core.Query as queries;
ghost use Rattle.ghost_model.specs.core.Schema as schemas;
ghost use Rattle.spj_parse.specs.Views.{field_of, grouped, member_of};
ghost use Rattle.channel_codec.specs.AskViews.{ask_view, test_view};
ghost use Rattle.script_asks.specs.Left.{asks_for, asks_after};
ghost use Rattle.script_asks.specs.Shown.{group_tests, mixes_column, test_with};

use arrayvec::ArrayVec;
use channel_codec::ask::{Ask, ColumnTest};
use ghost_base::limits::{MAX_COLUMNS, MAX_CONDITIONS, MAX_TABLES};
use spj_parse::{Field, Member, Query, split_group};
use tree_schema::Schema;
use tree_schema::schema::schemas_are_trees;

/// Whether a field is this column.
fn is_field(field: &Field, table: usize, column: usize) -> bool
    ensures { result ≡ short.is_field table column (field_of field.now) }
{
    field.table as usize == table && field.column as usize == column
}

/// Whether one of these fields is this column.
fn has_field(fields: &[Field], table: usize, column: usize) -> bool
    ensures { result ≡ list_any (λ field. short.is_field table column (field_of field)) fields.now }
{
    fields.iter().any(|field| is_field(field, table, column))
}

/// Whether one of these that are selected is this column.
fn selects(select: &[Field], table: usize, column: usize) -> bool
    ensures { result ≡ list_any (short.is_field table column) (map field_of select.now) }
{
    has_field(select, table, column)
}

/// Whether a member is of a visible column of a table.
fn is_shown(schema: &Schema, table: usize, member: &Member) -> bool
    ensures shown { result ≡ asks.is_shown schema.now table (member_of member.now).member }
{
    member.field.table as usize == table && schema.is_visible(table, member.field.column as usize)
}

/// Whether each of some members is of a visible column of a table.
fn are_shown(schema: &Schema, table: usize, members: &[Member]) -> bool
    ensures shown { result ≡ list_all (λ member. asks.is_shown schema.now table (member_of member).member) members.now }
{
    members.iter().all(|member| is_shown(schema, table, member))
}

/// Whether one of some members is of a visible column of a table.
fn any_shown(schema: &Schema, table: usize, members: &[Member]) -> bool
    ensures shown { result ≡ list_any (λ member. asks.is_shown schema.now table (member_of member).member) members.now }
{
    members.iter().any(|member| is_shown(schema, table, member))
}

/// Whether each member of a group is of a visible column of a table.
fn is_visible_group(schema: &Schema, table: usize, first: &Member, others: &[Member]) -> bool
    ensures visible { result ≡ each_of (asks.is_shown schema.now table) (member_of first.now).member (map (λ one. (member_of one).member) others.now) }
{
    is_shown(schema, table, first) && are_shown(schema, table, others)
}

/// Whether a group has a member of a visible column of a table.
fn has_visible_member(schema: &Schema, table: usize, first: &Member, others: &[Member]) -> bool
    ensures visible { result ≡ some_of (asks.is_shown schema.now table) (member_of first.now).member (map (λ one. (member_of one).member) others.now) }
{
    is_shown(schema, table, first) || any_shown(schema, table, others)
}

/// Whether one of some members is of this column.
fn any_names(members: &[Member], table: usize, column: usize) -> bool
    ensures named { result ≡ list_any (λ member. asks.is_column table column (member_of member).member.field) members.now }
{
    members
        .iter()
        .any(|member| is_field(&member.field, table, column))
}

/// Whether a group has a member of this column.
fn names_column(first: &Member, others: &[Member], table: usize, column: usize) -> bool
    ensures named { result ≡ some_of (λ one. asks.is_column table column one.field) (member_of first.now).member (map (λ one. (member_of one).member) others.now) }
{
    is_field(&first.field, table, column) || any_names(others, table, column)
}

/// Whether a group is a mixed one with this column.
fn is_mixed_with(
    schema: &Schema,
    first: &Member,
    others: &[Member],
    table: usize,
    column: usize,
) -> bool
    ensures mixed { result ≡ mixes_column schema.now table column (queries.OneOf (member_of first.now).member (map (λ one. (member_of one).member) others.now)) }
{
    has_visible_member(schema, table, first, others)
        && !is_visible_group(schema, table, first, others)
        && names_column(first, others, table, column)
}

/// Whether one of the groups that these members are is a mixed one with this column.
fn any_mixed_with(schema: &Schema, members: &[Member], table: usize, column: usize) -> bool
    ensures mixed { result ≡ list_any (mixes_column schema.now table column) (grouped (map member_of members.now)) }
{
    let mut left = members;
    'groups: while let Some(group) = split_group(left) {
        if is_mixed_with(schema, group.first, group.others, table, column) {
            return true;
        }
        left = group.later;
    }
    false
}

/// Whether a query has a mixed group with this column.
fn is_mixed(schema: &Schema, query: &Query, table: usize, column: usize) -> bool
    ensures mixed { result ≡ list_any (mixes_column schema.now table column) query.now.conditions }
{
    any_mixed_with(schema, query.members(), table, column)
}

/// Whether a column is visible, and selected or in a mixed group.
fn is_wanted(schema: &Schema, query: &Query, table: usize, column: usize) -> bool
    ensures wanted { result ≡ asks.is_wanted schema.now query.now table column }
{
    schema.is_visible(table, column)
        && (selects(query.select(), table, column) || is_mixed(schema, query, table, column))
}

/// The number of columns of a table.
fn column_count(schema: &Schema, table: usize) -> usize
    ensures count { result ≡ length (schemas.columns_of schema.now table) }
    ensures few { result ≤ MAX_COLUMNS }
{
    let _ = schema.tables();
    schemas_are_trees();
    schema.columns(table)
}

/// A place as a byte.
fn byte_of(place: usize) -> u8
    requires { place < 256 }
    ensures { result ≡ place }
{
    place as u8
}

/// The columns of a table that are visible, and selected or in a mixed group, ascending.
fn wanted_columns(schema: &Schema, query: &Query, table: usize) -> ArrayVec<u8, MAX_COLUMNS>
    ensures columns { result.items ≡ filter (asks.is_wanted schema.now query.now table) (schemas.places_of (schemas.columns_of schema.now table)) }
{
    let mut found = ArrayVec::new();
    for at in 0..column_count(schema, table) {
        if is_wanted(schema, query, table, at) {
            found.push(byte_of(at));
        }
    }
    found
}

/// The condition of an ask that a member is, with another of its group behind it or none.
fn test_of(member: &Member, more: bool) -> ColumnTest
    ensures test { test_view result ≡ test_with (member_of member.now).member more }
{
    ColumnTest {
        column: member.field.column,
        test: member.test,
        more,
    }
}

/// Puts the conditions of an ask that a group is behind others.
fn push_group(tests: &mut ArrayVec<ColumnTest, MAX_CONDITIONS>, first: &Member, others: &[Member])
    requires room { array_vec_len tests.old + length others.now < MAX_CONDITIONS }
    ensures tests { map test_view tests.new.items ≡ map test_view tests.old.items ++ group_tests (member_of first.now).member (map (λ one. (member_of one).member) others.now) }
    ensures count { array_vec_len tests.new ≡ array_vec_len tests.old + (length others.now + 1) }
{
    let mut last = first;
    let mut rest = others;
    'members: while let Some((next, later)) = rest.split_first() {
        tests.push(test_of(last, true));
        last = next;
        rest = later;
    }
    tests.push(test_of(last, false));
}

/// The conditions of an ask for a table that the visible groups of these members are, in their order.
fn tests_for(
    schema: &Schema,
    members: &[Member],
    table: usize,
) -> ArrayVec<ColumnTest, MAX_CONDITIONS>
    requires few { length members.now ≤ MAX_CONDITIONS }
    ensures tests { map test_view result.items ≡ short.tests_of schema.now table (grouped (map member_of members.now)) }
{
    let mut tests = ArrayVec::new();
    let mut left = members;
    'groups: while let Some(group) = split_group(left) {
        if is_visible_group(schema, table, group.first, group.others) {
            push_group(&mut tests, group.first, group.others);
        }
        left = group.later;
    }
    tests
}

/// The ask of a query for a table.
pub fn ask_for(schema: &Schema, query: &Query, table: u8) -> Ask
    ensures ask { ask_view result ≡ asks.ask_for schema.now query.now table }
{
    Ask {
        table,
        columns: wanted_columns(schema, query, table as usize),
        tests: tests_for(schema, query.members(), table as usize),
    }
}

/// Whether a table is one of these.
fn is_among(tables: &[u8], table: u8) -> bool
    ensures { result ≡ list_any (λ other. other == table) tables.now }
{
    tables.iter().any(|&other| other == table)
}

/// The ask of a query for a table, if the table is in FROM and something of it is asked.
fn needed_ask(schema: &Schema, query: &Query, table: u8) -> Option<Ask>
    ensures ask { option_to_list (option_map ask_view result) ≡ asks_for schema.now query.now (table ∷ []) }
    ensures place { IfSome result (λ ask. ask.table ≡ table) }
{
    if !is_among(query.from(), table) {
        return None;
    }
    let ask = ask_for(schema, query, table);
    if ask.columns.is_empty() && ask.tests.is_empty() {
        return None;
    }
    Some(ask)
}

/// The number of tables.
fn table_count(schema: &Schema) -> usize
    ensures count { result ≡ length schema.now }
    ensures few { result ≤ MAX_TABLES }
{
    schema.tables()
}

/// The first ask of a query for the tables from this place on. Those after it are for the tables behind its own.
pub fn next_ask(schema: &Schema, query: &Query, first: usize) -> Option<Ask>
    ensures some { IfSome result (λ ask. asks_after schema.now query.now first ≡ ask_view ask ∷ asks_after schema.now query.now (ask.table + 1)) }
    ensures none { IfNone result (asks_after schema.now query.now first ≡ []) }
{
    let tables = table_count(schema);
    let mut table = first;
    'tables: while table < tables {
        let found = needed_ask(schema, query, byte_of(table));
        if found.is_some() {
            return found;
        }
        table += 1;
    }
    None
}
