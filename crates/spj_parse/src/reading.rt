//! The reading of a query text over a schema.

ghost use Rattle.std.specs.Prelude.{◌≡◌, Err, IfErr, IfOk};
ghost use Rattle.ghost_model.specs.readings.QueryReading.{reading};
ghost use Rattle.spj_parse.specs.Resolved.{IsMeant};
ghost use Rattle.spj_parse.specs.Views.{refusal_of};

use crate::conditions::{ConditionTest, any_condition_passes};
use crate::groups::are_mixed;
use crate::limits::is_over_limit;
use crate::links::is_unlinked;
use crate::query::Query;
use crate::refusal::Refusal;
use crate::resolve::{from_tables, joins, members, selected};
use crate::rules::{has_unknown_columns, has_unknown_tables, is_ambiguous};
use crate::syntax::check_syntax;
use tree_schema::Schema;
use tree_schema::schema::schemas_are_trees;

/// The query that a text means over a schema, with each of its joins once, or why the text means none: the first rule that
/// it breaks, each rule tested over the whole text before the next.
pub fn read_query(schema: &Schema, text: &[u8]) -> Result<Query, Refusal>
    ensures meaning { IfOk result (λ query. IsMeant schema.now text.now query) }
    ensures refusal { IfErr result (λ refusal. reading schema.now text.now ≡ Err (refusal_of refusal)) }
{
    let _ = schema.tables();
    schemas_are_trees();
    if let Err(at) = check_syntax(text) {
        return Err(Refusal::Syntax { at });
    }
    if is_over_limit(schema, text) {
        return Err(Refusal::Limit);
    }
    if has_unknown_tables(schema, text) {
        return Err(Refusal::UnknownTable);
    }
    let tables = from_tables(schema, text);
    let from = tables.as_slice();
    if has_unknown_columns(schema, from, text) {
        return Err(Refusal::UnknownColumn);
    }
    if is_ambiguous(schema, from, text) {
        return Err(Refusal::Ambiguous);
    }
    if any_condition_passes(ConditionTest::OtherKind, schema, from, text) {
        return Err(Refusal::KindMismatch);
    }
    if any_condition_passes(ConditionTest::TooLarge, schema, from, text) {
        return Err(Refusal::BadLiteral);
    }
    if is_unlinked(schema, from, text) {
        return Err(Refusal::NotLinked);
    }
    let compared = members(schema, from, text);
    if are_mixed(compared.as_slice()) {
        return Err(Refusal::MixedTables);
    }
    let fields = selected(schema, from, text);
    let joined = joins(schema, from);
    Ok(Query::of(tables, fields, joined, compared))
}
