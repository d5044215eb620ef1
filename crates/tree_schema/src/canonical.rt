//! The canonical text of a schema, written through a window.

ghost use Rattle.std.specs.Prelude.{◌≡◌, ◌++◌, codes, decimal, map, flat_map, drop};
ghost use Rattle.ghost_model.specs.forms.Catalog as catalog;
ghost use Rattle.ghost_base.specs.Views.{kind_of};
ghost use Rattle.tree_schema.specs.Views.{column_of, table_of};
ghost use Rattle.tree_schema.specs.Windows.{pane, with_text};

use crate::schema::{Column, Schema, Table};
use crate::window::Window;
use ghost_base::Kind;

/// The name of a table; where there is no such table, nothing.
#[tactic(auto, using(crate::proofs::WindowLemmas::with_texts, crate::proofs::WindowLemmas::with_no_text))]
fn put_name(window: &mut Window, out: &mut [u8], schema: &Schema, table: usize)
    ensures text { pane window.new out.new ≡ with_text (pane window.old out.old) (catalog.table_name schema.now table) }
{
    match schema.table(table) {
        Some(found) => window.put(out, &found.name),
        None => {}
    }
}

/// The kind of texts of at most so many bytes, and what follows their number.
#[tactic(auto, using(crate::proofs::WindowLemmas::with_texts, crate::proofs::WindowLemmas::with_no_text))]
fn put_chars(window: &mut Window, out: &mut [u8], most: u8, end: &[u8])
    ensures text { pane window.new out.new ≡ with_text (pane window.old out.old) (codes "CHAR(" ++ (decimal most ++ end.now)) }
{
    window.put(out, b"CHAR(");
    window.put_number(out, most);
    window.put(out, end);
}

/// A column's kind.
#[tactic(auto, using(crate::proofs::WindowLemmas::with_texts, crate::proofs::WindowLemmas::with_no_text))]
fn put_kind(window: &mut Window, out: &mut [u8], kind: Kind)
    ensures text { pane window.new out.new ≡ with_text (pane window.old out.old) (catalog.kind_text (kind_of kind)) }
{
    match kind {
        Kind::Integer => window.put(out, b"INTEGER"),
        Kind::Chars(most) => put_chars(window, out, most, b")"),
        Kind::IntegerOrNull => window.put(out, b"INTEGER NULL"),
        Kind::CharsOrNull(most) => put_chars(window, out, most, b") NULL"),
    }
}

/// The table that a foreign key names; of another column, nothing.
#[tactic(auto, using(crate::proofs::WindowLemmas::with_texts, crate::proofs::WindowLemmas::with_no_text))]
fn put_reference(window: &mut Window, out: &mut [u8], schema: &Schema, child: Option<u8>)
    ensures text { pane window.new out.new ≡ with_text (pane window.old out.old) (catalog.reference_text schema.now child) }
{
    match child {
        Some(table) => {
            window.put(out, b" REFERENCES ");
            put_name(window, out, schema, table as usize);
            window.put(out, b"(id)");
        }
        None => {}
    }
}

/// The word behind a hidden column.
#[tactic(auto, using(crate::proofs::WindowLemmas::with_texts, crate::proofs::WindowLemmas::with_no_text))]
fn put_hidden(window: &mut Window, out: &mut [u8], hidden: bool)
    ensures text { pane window.new out.new ≡ with_text (pane window.old out.old) (catalog.hidden_text hidden) }
{
    if hidden {
        window.put(out, b" HIDDEN");
    }
}

/// A column, with the comma before it.
#[tactic(auto, using(crate::proofs::WindowLemmas::with_texts, crate::proofs::WindowLemmas::with_no_text))]
fn put_column(window: &mut Window, out: &mut [u8], schema: &Schema, column: &Column)
    ensures text { pane window.new out.new ≡ with_text (pane window.old out.old) (catalog.column_text schema.now (column_of column.now)) }
{
    window.put(out, b", ");
    window.put(out, &column.name);
    window.put(out, b" ");
    put_kind(window, out, column.kind);
    put_reference(window, out, schema, column.child);
    put_hidden(window, out, column.hidden);
}

/// Columns, with a comma before each.
#[tactic(auto, using(crate::proofs::WindowLemmas::with_texts, crate::proofs::WindowLemmas::with_no_text))]
fn put_columns(window: &mut Window, out: &mut [u8], schema: &Schema, columns: &[Column])
    ensures text { pane window.new out.new ≡ with_text (pane window.old out.old) (flat_map (catalog.column_text schema.now) (map column_of columns.now)) }
{
    for column in columns {
        put_column(window, out, schema, column);
    }
}

/// The columns of a table but its identifier, with a comma before each.
#[tactic(auto, using(crate::proofs::WindowLemmas::with_texts, crate::proofs::WindowLemmas::with_no_text))]
fn put_other_columns(window: &mut Window, out: &mut [u8], schema: &Schema, table: &Table)
    ensures text { pane window.new out.new ≡ with_text (pane window.old out.old) (flat_map (catalog.column_text schema.now) (drop 1 (table_of table.now).columns)) }
{
    match table.columns.split_first() {
        Some((_identifier, others)) => put_columns(window, out, schema, others),
        None => {}
    }
}

/// A table's line.
#[tactic(auto, using(crate::proofs::WindowLemmas::with_texts, crate::proofs::WindowLemmas::with_no_text))]
fn put_table(window: &mut Window, out: &mut [u8], schema: &Schema, table: &Table)
    ensures text { pane window.new out.new ≡ with_text (pane window.old out.old) (catalog.table_text schema.now (table_of table.now)) }
{
    window.put(out, b"CREATE TABLE ");
    window.put(out, &table.name);
    window.put(out, b" (id INTEGER PRIMARY KEY");
    put_other_columns(window, out, schema, table);
    window.put(out, b");");
    window.put(out, b"\n");
}

/// The canonical text of a schema.
#[tactic(auto, using(crate::proofs::WindowLemmas::with_texts, crate::proofs::WindowLemmas::with_no_text))]
pub fn put_schema(window: &mut Window, out: &mut [u8], schema: &Schema)
    ensures text { pane window.new out.new ≡ with_text (pane window.old out.old) (catalog.canonical_text schema.now) }
{
    for at in 0..schema.tables() {
        if let Some(table) = schema.table(at) {
            put_table(window, out, schema, table);
        }
    }
}
