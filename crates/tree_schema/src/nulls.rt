//! Columns that are to be allowed NULL.

ghost use Rattle.std.specs.Prelude.{◌≡◌, ◌<◌, length, map, slice_get, Some, IfSome};
ghost use Rattle.ghost_base.specs.Views.{kind_of};
ghost use Rattle.tree_schema.specs.Views.{column_of, table_of};
ghost use Rattle.tree_schema.specs.Nulls as nulls;

use crate::schema::{Column, Table};
use ghost_base::Kind;

/// The kind that has NULL too.
fn or_null(kind: Kind) -> Kind
    ensures kind { kind_of result ≡ nulls.or_null (kind_of kind) }
{
    match kind {
        Kind::Integer | Kind::IntegerOrNull => Kind::IntegerOrNull,
        Kind::Chars(most) | Kind::CharsOrNull(most) => Kind::CharsOrNull(most),
    }
}

/// Whether a column may be allowed NULL: it is no foreign key, and not NULL already.
pub(crate) fn is_free(column: &Column) -> bool
    ensures free { result ≡ nulls.is_free (Some (column_of column.now)) }
{
    column.child.is_none() && !column.kind.is_nullable()
}

/// Allows a column NULL.
fn allow(column: &mut Column)
    ensures column { column_of column.new ≡ nulls.column_or_null (column_of column.old) }
{
    column.kind = or_null(column.kind);
}

/// Allows one of some columns NULL.
fn allow_among(columns: &mut [Column], column: usize)
    requires there { column < length columns.old }
    ensures columns { map column_of columns.new ≡ nulls.changed_at nulls.column_or_null column (map column_of columns.old) }
{
    allow(&mut columns[column]);
}

/// Allows a column of a table NULL.
fn allow_in(table: &mut Table, column: usize)
    requires there { column < length table.old.columns.items }
    ensures table { table_of table.new ≡ nulls.table_with_null column (table_of table.old) }
{
    allow_among(table.columns.as_mut_slice(), column);
}

/// Allows a column of one of some tables NULL.
pub(crate) fn allow_at(tables: &mut [Table], table: usize, column: usize)
    requires there { table < length tables.old }
    requires within { IfSome (slice_get tables.old table) (λ found. column < length found.columns.items) }
    ensures size { length tables.new ≡ length tables.old }
    ensures tables { map table_of tables.new ≡ nulls.with_null (map table_of tables.old) table column }
{
    allow_in(&mut tables[table], column);
}
