//! The two parts of a database from its tables.

ghost use Rattle.std.specs.Prelude.{◌≡◌, ◌++◌, ◌∷◌, [], map, take, drop, length, IfOk, OnOk};
ghost use Rattle.std.specs.Vec.Iter.{into_iter_items};
ghost use Rattle.ghost_model.specs.core.Split as parts;
ghost use Rattle.ghost_model.specs.laws.SplitByFlags as flags;
ghost use Rattle.csv_split.specs.Reading.{columns_of, with_identifier};

use crate::cells::Cells;
use crate::part::Part;
use crate::parts::{Hidden, Public};
use crate::schema_columns::declared_columns;
use crate::table::Table;
use crate::tables::Tables;
use ghost_model::meaning::parts_by_flags;
use std::alloc::{AllocError, Global};
use std::vec::IntoIter;
use tree_schema::{Column, Schema};

/// The two parts of the tables of a schema. The columns are moved.
pub fn split(alloc: Global, schema: &Schema, tables: Tables) -> Result<(Public, Hidden), AllocError>
    ensures public { IfOk result (λ two. two.0 ≡ parts.public_of schema.now tables) }
    ensures hidden { IfOk result (λ two. two.1 ≡ parts.hidden_of schema.now tables) }
    ensures counts { IfOk result (λ two. map length two.0.visible ≡ map length two.1.hidden) }
{
    parts_by_flags();
    let mut public = Public::new(alloc);
    let mut hidden = Hidden::new(alloc);
    let mut left = tables.into_tables().into_iter();
    for table in 0..schema.tables() {
        let declared = declared_columns(schema, table);
        split_next(alloc, declared, &mut left, &mut public, &mut hidden)?;
    }
    Ok((public, hidden))
}

/// Puts the two parts of the first of the tables left behind those of the tables before it. Where no table is left,
/// nothing is put.
fn split_next(
    alloc: Global,
    declared: &[Column],
    left: &mut IntoIter<Table>,
    public: &mut Public,
    hidden: &mut Hidden,
) -> Result<(), AllocError>
    ensures visible { OnOk result (public.new.visible ≡ public.old.visible ++ map (flags.rows_by flags.visible_values (with_identifier (columns_of declared.now))) (take 1 (into_iter_items left.old))) }
    ensures kept { OnOk result (hidden.new.hidden ≡ hidden.old.hidden ++ map (flags.rows_by flags.hidden_values (with_identifier (columns_of declared.now))) (take 1 (into_iter_items left.old))) }
    ensures left { OnOk result (into_iter_items left.new ≡ drop 1 (into_iter_items left.old)) }
{
    let Some(table) = left.next() else {
        return Ok(());
    };
    let (visible, kept) = split_table(alloc, declared, table)?;
    public.push(visible)?;
    hidden.push(kept)
}

/// The two parts of a table.
fn split_table(alloc: Global, declared: &[Column], table: Table) -> Result<(Part, Part), AllocError>
    ensures visible { IfOk result (λ two. two.0 ≡ flags.rows_by flags.visible_values (with_identifier (columns_of declared.now)) table) }
    ensures kept { IfOk result (λ two. two.1 ≡ flags.rows_by flags.hidden_values (with_identifier (columns_of declared.now)) table) }
{
    let rows = table.rows();
    let (visible, kept) = split_columns(alloc, declared, table.into_columns())?;
    Ok((Part::of(rows, visible), Part::of(rows, kept)))
}

/// The visible ones and the hidden ones of columns.
fn split_columns(
    alloc: Global,
    declared: &[Column],
    columns: Vec<Cells>,
) -> Result<(Vec<Cells>, Vec<Cells>), AllocError>
    ensures visible { IfOk result (λ two. two.0.items ≡ flags.visible_values (flags.hidden_flags (with_identifier (columns_of declared.now))) columns.items) }
    ensures kept { IfOk result (λ two. two.1.items ≡ flags.hidden_values (flags.hidden_flags (with_identifier (columns_of declared.now))) columns.items) }
{
    let mut visible = Vec::new(alloc);
    let mut kept = Vec::new(alloc);
    let mut left = columns.into_iter();
    for column in declared {
        put_next(column.hidden, &mut left, &mut visible, &mut kept)?;
    }
    Ok((visible, kept))
}

/// Puts the first of the columns left behind the visible ones or the hidden ones. Where no column is left, nothing is
/// put.
fn put_next(
    hidden: bool,
    left: &mut IntoIter<Cells>,
    visible: &mut Vec<Cells>,
    kept: &mut Vec<Cells>,
) -> Result<(), AllocError>
    ensures visible { OnOk result (visible.new.items ≡ visible.old.items ++ flags.visible_values (hidden ∷ []) (into_iter_items left.old)) }
    ensures kept { OnOk result (kept.new.items ≡ kept.old.items ++ flags.hidden_values (hidden ∷ []) (into_iter_items left.old)) }
    ensures left { OnOk result (into_iter_items left.new ≡ drop 1 (into_iter_items left.old)) }
{
    let Some(cells) = left.next() else {
        return Ok(());
    };
    if hidden {
        return put(cells, kept);
    }
    put(cells, visible)
}

/// Puts a column at the end.
pub(crate) fn put(cells: Cells, columns: &mut Vec<Cells>) -> Result<(), AllocError>
    ensures { OnOk result (columns.new.items ≡ columns.old.items ++ cells ∷ []) }
{
    match columns.push(cells) {
        Ok(()) => Ok(()),
        Err(_) => Err(AllocError),
    }
}
