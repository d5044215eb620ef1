//! The visible image: the catalog and the cells of the visible columns, row by row.

ghost use Rattle.std.specs.Prelude.{◌≡◌, pos, ◌≤◌, ◌<◌, ◌*◌, ◌++◌, ◌∷◌, [], map, filter, flat_map, length, replicate, get_or, vec_capacity, IfOk, OnOk};
ghost use Rattle.ghost_model.specs.forms.Catalog.{catalog_bytes};
ghost use Rattle.ghost_model.specs.forms.Cells as cells;
ghost use Rattle.ghost_model.specs.core.Split as parts;
ghost use Rattle.ghost_model.specs.core.Values.{Null, Number, Text};
ghost use Rattle.ghost_base.specs.Views.{kind_of, value_of};
ghost use Rattle.tree_schema.specs.Views.{column_of};
ghost use Rattle.csv_split.specs.Cells.{values_in};
ghost use Rattle.csv_split.specs.ImageLengths.{column_bytes, counted, image_bytes, row_bytes};
ghost use Rattle.csv_split.specs.Parts.{HaveRow, part_in};
ghost use Rattle.csv_split.specs.Reading.{HaveAll, columns_of};
ghost use Rattle.csv_split.specs.Tables.{column_values, values_at};

use crate::cells::Cells;
use crate::flat_cells::FlatCells;
use crate::part::Part;
use crate::parts::Public;
use crate::schema_columns::declared_columns;
use ghost_base::{Kind, Value, cell_width, encode_cell};
use std::alloc::{AllocError, Global};
use tree_schema::{Catalog, Column, Schema, catalog_len, catalog_part};

/// The zero bytes after a text, or of NULL.
const ZEROS: [u8; 256] = [0; 256];

/// The visible image of a public part under its catalog, byte for byte the host's file.
pub fn visible_image(alloc: Global, cat: &Catalog, public: &Public) -> Result<Vec<u8>, AllocError>
    ensures { IfOk result (λ bytes. bytes.items ≡ parts.image cat.now public.now) }
{
    let mut out = catalog_in(alloc, cat, image_len(cat, public))?;
    put_tables(alloc, cat.schema(), public, &mut out)?;
    Ok(out)
}

/// The bytes of a catalog, with room for so many bytes in all.
fn catalog_in(alloc: Global, cat: &Catalog, room: usize) -> Result<Vec<u8>, AllocError>
    ensures value { IfOk result (λ bytes. bytes.items ≡ catalog_bytes cat.now) }
    ensures room { IfOk result (λ bytes. room ≤ vec_capacity bytes) }
{
    let mut out = Vec::with_capacity(alloc, room)?;
    out.resize(catalog_len(cat) as usize, 0)?;
    catalog_part(cat, 0, &mut out);
    Ok(out)
}

/// How many bytes are to be reserved for an image: those that it has, where the public part goes with the catalog; and in any
/// case as many as the image of whole rows has, or the greatest count where they are more.
#[tactic(auto, using(crate::proofs::ImageLengths::all_lengths))]
fn image_len(cat: &Catalog, public: &Public) -> usize
    ensures rows { result ≡ counted (image_bytes cat.now public.now) }
    ensures whole { parts.IsPublic cat.now public.now → result ≡ length (parts.image cat.now public.now) }
{
    let schema = cat.schema();
    let mut len = catalog_len(cat) as usize;
    for table in 0..schema.tables() {
        if let Some(part) = public.part(table) {
            let rows = table_len(declared_columns(schema, table), part);
            len = len.saturating_add(rows);
        }
    }
    len
}

/// How many bytes are to be reserved for the rows of a table.
#[tactic(auto, using(crate::proofs::ImageLengths::scaled))]
fn table_len(declared: &[Column], part: &Part) -> usize
    ensures { result ≡ counted (row_bytes (columns_of declared.now) * length part.now) }
{
    row_width(declared).saturating_mul(part.rows() as usize)
}

/// How many bytes a column has in each row.
fn column_len(column: &Column) -> usize
    ensures { result ≡ column_bytes (column_of column.now) }
{
    if !column.hidden {
        return cell_width(column.kind);
    }
    0
}

/// How many bytes the visible columns of one row have.
#[tactic(auto, using(crate::proofs::ImageLengths::all_widths))]
fn row_width(declared: &[Column]) -> usize
    ensures { result ≡ counted (row_bytes (columns_of declared.now)) }
{
    let mut width: usize = 0;
    for column in declared {
        width = width.saturating_add(column_len(column));
    }
    width
}

/// Puts the cells of all tables, in order, at the end.
fn put_tables(
    alloc: Global,
    schema: &Schema,
    public: &Public,
    out: &mut Vec<u8>,
) -> Result<(), AllocError>
    ensures { OnOk result (out.new.items ≡ out.old.items ++ parts.cells_of_tables schema.now public.now.visible) }
{
    for table in 0..schema.tables() {
        let Some(part) = public.part(table) else {
            return Ok(());
        };
        put_table(alloc, declared_columns(schema, table), part, out)?;
    }
    Ok(())
}

/// Puts the cells of a table, row by row, at the end.
fn put_table(
    alloc: Global,
    declared: &[Column],
    part: &Part,
    out: &mut Vec<u8>,
) -> Result<(), AllocError>
    ensures { OnOk result (out.new.items ≡ out.old.items ++ flat_map (parts.cells (map parts.kind_of_column (filter parts.is_open (columns_of declared.now)))) part.now) }
{
    let kinds = visible_kinds(alloc, declared)?;
    put_rows(&kinds, part.columns(), part.rows(), out)
}

/// The kinds of the visible columns.
fn visible_kinds(alloc: Global, declared: &[Column]) -> Result<Vec<Kind>, AllocError>
    ensures { IfOk result (λ kinds. map kind_of kinds.items ≡ map parts.kind_of_column (filter parts.is_open (columns_of declared.now))) }
{
    let mut kinds = Vec::new(alloc);
    for column in declared {
        put_kind(column, &mut kinds)?;
    }
    Ok(kinds)
}

/// Puts the kind of a column at the end, where the column is visible.
fn put_kind(column: &Column, kinds: &mut Vec<Kind>) -> Result<(), AllocError>
    ensures { OnOk result (map kind_of kinds.new.items ≡ map kind_of kinds.old.items ++ map parts.kind_of_column (filter parts.is_open (column_of column.now ∷ []))) }
{
    if column.hidden {
        return Ok(());
    }
    kinds.push(column.kind)?;
    Ok(())
}

/// Puts the cells of so many rows at the end.
fn put_rows(
    kinds: &[Kind],
    columns: &[Cells],
    rows: u32,
    out: &mut Vec<u8>,
) -> Result<(), AllocError>
    requires { HaveAll rows (column_values columns.now) }
    ensures { OnOk result (out.new.items ≡ out.old.items ++ flat_map (parts.cells (map kind_of kinds.now)) (part_in rows (column_values columns.now))) }
{
    for place in 0..rows {
        put_row(kinds, columns, place as usize, out)?;
    }
    Ok(())
}

/// Puts the cells of the row at a place, the first having place 0, at the end.
fn put_row(
    kinds: &[Kind],
    columns: &[Cells],
    place: usize,
    out: &mut Vec<u8>,
) -> Result<(), AllocError>
    requires { HaveRow place (column_values columns.now) }
    ensures { OnOk result (out.new.items ≡ out.old.items ++ parts.cells (map kind_of kinds.now) (values_at (column_values columns.now) place)) }
{
    for i in 0..columns.len() {
        if i >= kinds.len() {
            return Ok(());
        }
        put_cell(kinds[i], &columns[i], place, out)?;
    }
    Ok(())
}

/// Puts the cell of the value at a place, the first having place 0, at the end.
fn put_cell(kind: Kind, column: &Cells, place: usize, out: &mut Vec<u8>) -> Result<(), AllocError>
    requires { place < length (values_in column.now) }
    ensures { OnOk result (out.new.items ≡ out.old.items ++ cells.encode_cell (kind_of kind) (get_or (values_in column.now) place (Number (pos 0)))) }
{
    match column {
        Cells::Numbers(numbers) => put_number(kind, numbers[place], out),
        Cells::Texts(texts) => put_text(kind, texts.get(place), out),
        Cells::Nullable(cells) => put_stored(kind, cells, place, out),
    }
}

/// Puts the cell of a stored value at the end, as it stands where it is of this kind.
#[tactic(auto, using(crate::proofs::KeptValues::as_stored, crate::proofs::KeptValues::value_got))]
fn put_stored(
    kind: Kind,
    stored: &FlatCells,
    place: usize,
    out: &mut Vec<u8>,
) -> Result<(), AllocError>
    requires { place < length stored.now.values }
    ensures { OnOk result (out.new.items ≡ out.old.items ++ cells.encode_cell (kind_of kind) (get_or stored.now.values place (Number (pos 0)))) }
{
    if stored.is_of(kind) {
        return out.extend_from_slice(stored.cell(place));
    }
    match stored.get(place) {
        Some(value) => put_value(kind, &value, out),
        None => Ok(()),
    }
}

/// Puts the cell of a value at the end.
fn put_value(kind: Kind, value: &Value, out: &mut Vec<u8>) -> Result<(), AllocError>
    ensures { OnOk result (out.new.items ≡ out.old.items ++ cells.encode_cell (kind_of kind) (value_of value.now)) }
{
    match value {
        Value::Null => put_null(kind, out),
        Value::Int(number) => put_number(kind, *number, out),
        Value::Chars(text) => put_text(kind, text.as_bytes(), out),
    }
}

/// Puts the cell of NULL at the end.
fn put_null(kind: Kind, out: &mut Vec<u8>) -> Result<(), AllocError>
    ensures { OnOk result (out.new.items ≡ out.old.items ++ cells.encode_cell (kind_of kind) Null) }
{
    match kind {
        Kind::Integer | Kind::Chars(_) => Ok(()),
        Kind::IntegerOrNull | Kind::CharsOrNull(_) => {
            out.extend_from_slice(zeros(cell_width(kind)))
        }
    }
}

/// Puts the cell of an integer at the end.
fn put_number(kind: Kind, number: i64, out: &mut Vec<u8>) -> Result<(), AllocError>
    ensures { OnOk result (out.new.items ≡ out.old.items ++ cells.encode_cell (kind_of kind) (Number number)) }
{
    match kind {
        Kind::Integer => {
            let mut cell = [0; 8];
            encode_cell(kind, &Value::Int(number), &mut cell);
            out.extend_from_slice(&cell)
        }
        Kind::IntegerOrNull => {
            let mut cell = [0; 9];
            encode_cell(kind, &Value::Int(number), &mut cell);
            out.extend_from_slice(&cell)
        }
        Kind::Chars(_) | Kind::CharsOrNull(_) => Ok(()),
    }
}

/// Puts the cell of a text at the end.
fn put_text(kind: Kind, text: &[u8], out: &mut Vec<u8>) -> Result<(), AllocError>
    ensures { OnOk result (out.new.items ≡ out.old.items ++ cells.encode_cell (kind_of kind) (Text text.now)) }
{
    match kind {
        Kind::Integer | Kind::IntegerOrNull => Ok(()),
        Kind::Chars(most) => put_padded(most, text, out),
        Kind::CharsOrNull(most) => {
            out.extend_from_slice(&[1])?;
            put_padded(most, text, out)
        }
    }
}

/// Puts a text at the end, and zero bytes up to a width.
fn put_padded(width: u8, text: &[u8], out: &mut Vec<u8>) -> Result<(), AllocError>
    ensures { OnOk result (out.new.items ≡ out.old.items ++ cells.padded width text.now) }
{
    out.extend_from_slice(text)?;
    out.extend_from_slice(zeros((width as usize).saturating_sub(text.len())))
}

/// So many zero bytes.
fn zeros(count: usize) -> &'static [u8]
    requires { count ≤ 256 }
    ensures { result.now ≡ replicate count 0 }
{
    &ZEROS[..count]
}
