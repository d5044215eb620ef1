//! Tables from the two parts of a database.

ghost use Rattle.std.specs.Prelude.{◌≡◌, ◌++◌, ◌∷◌, [], map, drop, length, slice_get, IfOk, OnOk};
ghost use Rattle.std.specs.Vec.Iter.{into_iter_items};
ghost use Rattle.ghost_model.specs.core.Database as database;
ghost use Rattle.ghost_model.specs.core.Split as parts;
ghost use Rattle.ghost_model.specs.laws.SplitByFlags as flags;
ghost use Rattle.ghost_model.specs.core.Values as values;
ghost use Rattle.csv_split.specs.Parts.{HaveAsMany, NextMerged, both_rejoined};
ghost use Rattle.csv_split.specs.Reading.{columns_of, with_identifier};

use crate::cells::Cells;
use crate::part::Part;
use crate::parts::{Hidden, Public};
use crate::schema_columns::declared_columns;
use crate::splitting::put;
use crate::table::Table;
use crate::tables::Tables;
use ghost_model::meaning::{parts_by_flags, split_is_rejoined};
use std::alloc::{AllocError, Global};
use std::vec::IntoIter;
use tree_schema::{Column, Schema};

/// The tables of a schema from their two parts, which have as many rows as one another in each table. The columns are
/// moved. From the two parts of a database comes that database.
pub fn rejoin(
    alloc: Global,
    schema: &Schema,
    public: Public,
    hidden: Hidden,
) -> Result<Tables, AllocError>
    requires { map length public.visible ≡ map length hidden.hidden }
    ensures tables { IfOk result (λ tables. tables ≡ parts.rejoined schema.now public hidden) }
    ensures again { IfOk result (λ tables. (whole : values.Database) → database.IsDatabase schema.now whole → public ≡ parts.public_of schema.now whole → hidden ≡ parts.hidden_of schema.now whole → tables ≡ whole) }
{
    split_is_rejoined();
    parts_by_flags();
    join_tables(alloc, schema, public.into_parts(), hidden.into_parts())
}

/// The tables of a schema from their two parts.
fn join_tables(
    alloc: Global,
    schema: &Schema,
    visible: Vec<Part>,
    kept: Vec<Part>,
) -> Result<Tables, AllocError>
    requires { map length visible.items ≡ map length kept.items }
    ensures { IfOk result (λ tables. tables ≡ flags.rejoined_tables schema.now visible.items kept.items) }
{
    let mut tables = Tables::new(alloc);
    let mut visible_left = visible.into_iter();
    let mut kept_left = kept.into_iter();
    for table in 0..schema.tables() {
        let declared = declared_columns(schema, table);
        let one = next_part(&mut visible_left);
        let other = next_part(&mut kept_left);
        join_next(alloc, declared, one, other, &mut tables)?;
    }
    Ok(tables)
}

/// Takes the first of the parts left, if there is one.
fn next_part(left: &mut IntoIter<Part>) -> Option<Part>
    ensures first { result ≡ slice_get (into_iter_items left.old) 0 }
    ensures left { into_iter_items left.new ≡ drop 1 (into_iter_items left.old) }
{
    left.next()
}

/// Puts the table with two parts at the end, where there are both.
fn join_next(
    alloc: Global,
    declared: &[Column],
    one: Option<Part>,
    other: Option<Part>,
    tables: &mut Tables,
) -> Result<(), AllocError>
    requires { HaveAsMany one other }
    ensures { OnOk result (tables.new ≡ tables.old ++ both_rejoined (with_identifier (columns_of declared.now)) one other) }
{
    let Some(one) = one else {
        return Ok(());
    };
    let Some(other) = other else {
        return Ok(());
    };
    let table = join_table(alloc, declared, one, other)?;
    tables.push(table)
}

/// The table with these two parts.
fn join_table(
    alloc: Global,
    declared: &[Column],
    one: Part,
    other: Part,
) -> Result<Table, AllocError>
    requires { length one ≡ length other }
    ensures { IfOk result (λ table. table ≡ flags.rejoined_rows 1 (with_identifier (columns_of declared.now)) one other) }
{
    let rows = one.rows();
    let columns = join_columns(alloc, declared, one.into_columns(), other.into_columns())?;
    Ok(Table::of(rows, columns))
}

/// The columns of which these are the visible ones and the hidden ones.
fn join_columns(
    alloc: Global,
    declared: &[Column],
    visible: Vec<Cells>,
    kept: Vec<Cells>,
) -> Result<Vec<Cells>, AllocError>
    ensures { IfOk result (λ columns. columns.items ≡ flags.merged (flags.hidden_flags (with_identifier (columns_of declared.now))) visible.items kept.items) }
{
    let mut columns = Vec::new(alloc);
    let mut visible_left = visible.into_iter();
    let mut kept_left = kept.into_iter();
    for column in declared {
        let Some(cells) = next_column(column.hidden, &mut visible_left, &mut kept_left) else {
            return Ok(columns);
        };
        put(cells, &mut columns)?;
    }
    Ok(columns)
}

/// Takes the first of the hidden or the visible columns left, if there is one.
fn next_column(
    hidden: bool,
    visible: &mut IntoIter<Cells>,
    kept: &mut IntoIter<Cells>,
) -> Option<Cells>
    ensures { NextMerged hidden result (into_iter_items visible.old) (into_iter_items kept.old) (into_iter_items visible.new) (into_iter_items kept.new) }
{
    if hidden {
        return first_column(kept);
    }
    first_column(visible)
}

/// Takes the first of the columns left, if there is one.
fn first_column(left: &mut IntoIter<Cells>) -> Option<Cells>
    ensures first { result ≡ slice_get (into_iter_items left.old) 0 }
    ensures left { into_iter_items left.new ≡ drop 1 (into_iter_items left.old) }
{
    left.next()
}
