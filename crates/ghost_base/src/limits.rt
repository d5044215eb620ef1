//! The limits of the product.

/// The most tables of a schema.
pub const MAX_TABLES: usize = 12;

/// The most columns of a table, its identifier among them.
pub const MAX_COLUMNS: usize = 24;

/// The most bytes of a table's or a column's name.
pub const MAX_NAME: usize = 32;

/// The fewest bytes that a CHAR column can be declared to hold.
pub const MIN_CHARS: usize = 1;

/// The most bytes that a CHAR column can be declared to hold.
pub const MAX_CHARS: usize = 64;

/// The most bytes of a cell: those of a text of the greatest length in a column that may be NULL.
pub const MAX_CELL: usize = 65;

/// The most rows of a table, and so the greatest identifier.
pub const MAX_ROWS: u32 = 1_000_000;

/// The most bytes of a CSV file.
pub const MAX_CSV: usize = 67_108_864;

/// The most bytes of a schema's text.
pub const MAX_SCHEMA: usize = 65_536;

/// The most bytes of a script.
pub const MAX_SCRIPT: usize = 65_536;

/// The most texts of a script.
pub const MAX_TEXTS: usize = 64;

/// The most bytes of a query's text.
pub const MAX_QUERY: usize = 4_096;

/// The most conditions of a query that compare a column with literals.
pub const MAX_CONDITIONS: usize = 16;

/// The most columns that a query selects.
pub const MAX_SELECTED: usize = 32;
