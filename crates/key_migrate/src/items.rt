//! The columns that items name.

ghost use Rattle.std.specs.Prelude.{◌≡◌, ◌≤◌, false, length, map, option_map, IfOk, IfErr, IfSome, IfNone, Some};
ghost use Rattle.std.specs.List.{list_any};
ghost use Rattle.ghost_model.specs.forms.Left.{is_same_field};
ghost use Rattle.spj_parse.specs.Views.{field_of};
ghost use Rattle.key_migrate.specs.Fields.{AreFree, AreTaken, IsTaken, IsTakenBehind, catalog_with};
ghost use Rattle.key_migrate.specs.Items as naming;

use arrayvec::ArrayVec;
use key_words::MAX_ITEMS;
use spj_parse::{Field, column_named, table_named};
use tree_schema::{Catalog, Schema};

/// The column of a table, both by their names.
fn field_called(schema: &Schema, table: &[u8], column: &[u8]) -> Option<Field>
    ensures field { option_map field_of result ≡ naming.field_called schema.now table.now column.now }
{
    let Some(table) = table_named(schema, table) else {
        return None;
    };
    match column_named(schema, table, column) {
        None => None,
        Some(column) => Some(Field {
            table: table as u8,
            column: column as u8,
        }),
    }
}

/// The column that an item names, as `table.column`.
fn item_field(schema: &Schema, item: &str) -> Option<Field>
    ensures field { option_map field_of result ≡ naming.item_field schema.now item.now }
{
    match item.split_once('.') {
        None => None,
        Some((table, column)) => field_called(schema, table.as_bytes(), column.as_bytes()),
    }
}

/// Whether two columns are the same.
fn is_same(one: Field, other: Field) -> bool
    ensures same { result ≡ is_same_field (field_of one) (field_of other) }
{
    one.table == other.table && one.column == other.column
}

/// Whether a column is one of some.
#[tactic(auto, using(std::proofs::lemmas::List::Folds::list_any_more, std::proofs::lemmas::List::Folds::list_any_at))]
fn is_among(fields: &[Field], one: Field) -> bool
    ensures among { result ≡ list_any (λ other. is_same_field (field_of one) (field_of other)) fields.now }
{
    for other in fields {
        if is_same(one, *other) {
            return true;
        }
    }
    false
}

/// The column that an item names, where it is taken behind those that name these columns.
fn taken_field(schema: &Schema, earlier: &[Field], item: &str) -> Option<Field>
    ensures taken { IfSome result (λ one. IsTaken schema.now (map field_of earlier.now) item.now (field_of one)) }
    ensures refused { IfNone result (IsTakenBehind schema.now (map field_of earlier.now) item.now false) }
{
    let Some(field) = item_field(schema, item) else {
        return None;
    };
    if !schema.may_be_null(field.table as usize, field.column as usize) {
        return None;
    }
    if is_among(earlier, field) {
        return None;
    }
    Some(field)
}

/// The columns that items name, or the number, from 1, of the first item that is not taken.
pub(crate) fn item_fields(
    schema: &Schema,
    items: &[&str],
) -> Result<ArrayVec<Field, MAX_ITEMS>, u32>
    requires few { length items.now ≤ MAX_ITEMS }
    ensures taken { IfOk result (λ fields. AreTaken schema.now (map (λ item. item.now) items.now) (map field_of fields.items)) }
    ensures refused { IfErr result (λ item. naming.refused_item schema.now (map (λ item. item.now) items.now) ≡ Some item) }
{
    let mut fields = ArrayVec::new();
    for item in items {
        match taken_field(schema, &fields, item) {
            Some(field) => fields.push(field),
            None => return Err(fields.len() as u32 + 1),
        }
    }
    Ok(fields)
}

/// The catalog in which these columns may be NULL too.
pub(crate) fn with_columns(cat: Catalog, fields: &[Field]) -> Catalog
    requires free { AreFree cat.schema (map field_of fields.now) }
    ensures catalog { result ≡ catalog_with cat (map field_of fields.now) }
{
    let mut cat = cat;
    for field in fields {
        match cat.with_null(field.table as usize, field.column as usize) {
            Some(wider) => cat = wider,
            None => unreachable!(),
        }
    }
    cat
}
