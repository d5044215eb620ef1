//! What is wrong with the first line of a table's file, which has to name the columns in their order.

use std::fmt::{Display, Error as FormatError, Formatter, Write};
use text_places::encodings::is_wide;
use text_places::names::{Field, column_name};
use text_places::place::Bytes;
use tree_schema::Schema;

/// The first line of a table's file, and the table.
#[derive(Clone, Copy)]
pub(crate) struct Header<'a> {
    /// The line, without its end.
    pub(crate) line: &'a [u8],

    /// The schema.
    pub(crate) schema: &'a Schema,

    /// The table's place.
    pub(crate) table: usize,
}

/// What is wrong with a first line.
#[derive(Clone, Copy)]
enum Wrong {
    /// The file is in UTF-16.
    Wide,

    /// Another byte stands between the fields.
    Divided(u8),

    /// It has a row, and no names.
    Row,

    /// It names none of the columns.
    NoName,

    /// It names each column once, in another order.
    Order,

    /// It has more fields or fewer than there are columns.
    Count(usize),

    /// At this place it has another name.
    Other(usize),
}

impl<'a> Header<'a> {
    /// What is wrong with it.
    fn wrong(&self) -> Wrong {
        if is_wide(self.line) {
            return Wrong::Wide;
        }
        let columns = self.schema.columns(self.table);
        let count = self.line.split(is_comma).count();
        match (self.known(), self.divider()) {
            (0, _) if self.begins_row() => Wrong::Row,
            (0, Some(byte)) => Wrong::Divided(byte),
            (0, None) => Wrong::NoName,
            (known, _) if known == columns && count == columns => Wrong::Order,
            _ if count != columns => Wrong::Count(count),
            _ => Wrong::Other(self.first_other()),
        }
    }

    /// The byte in it that other files have between their fields.
    fn divider(&self) -> Option<u8> {
        self.line.iter().copied().find(is_divider)
    }

    /// How many of the columns it names.
    fn known(&self) -> usize {
        let mut known: usize = 0;
        for column in 0..self.schema.columns(self.table) {
            let field = Field {
                table: self.table,
                column,
            };
            if self.has(column_name(self.schema, field).0) {
                known = known.saturating_add(1);
            }
        }
        known
    }

    /// Whether one of its fields is this name.
    fn has(&self, name: &[u8]) -> bool {
        for field in self.line.split(is_comma) {
            if bare(field).eq_ignore_ascii_case(name) {
                return true;
            }
        }
        false
    }

    /// Whether its first field is a number.
    fn begins_row(&self) -> bool {
        let first = self.line.split(is_comma).next().unwrap_or(&[]);
        !bare(first).is_empty() && bare(first).iter().all(|byte| byte.is_ascii_digit())
    }

    /// The first place at which it has another name than the column's.
    fn first_other(&self) -> usize {
        let mut column = 0;
        for field in self.line.split(is_comma) {
            let place = Field {
                table: self.table,
                column,
            };
            if !bare(field).eq_ignore_ascii_case(column_name(self.schema, place).0) {
                return column;
            }
            column = column.saturating_add(1);
        }
        column
    }

    /// The names that it has to have.
    fn names(&self) -> HeaderNames<'a> {
        HeaderNames {
            schema: self.schema,
            table: self.table,
        }
    }

    /// Tells what is wrong where it names no column.
    fn write_unnamed<W: Write>(
        &self,
        f: &mut Formatter<W>,
        wrong: Wrong,
    ) -> Result<(), FormatError> {
        let names = self.names();
        match wrong {
            Wrong::Wide => f.write_str("the file is in UTF-16: save it as plain ASCII"),
            Wrong::Divided(b'\t') => {
                f.write_str("its fields are divided by tabs: write the file with commas")
            }
            Wrong::Divided(byte) => {
                let sign = byte as char;
                write!(
                    f,
                    "its fields are divided by {sign}: write the file with commas"
                )
            }
            Wrong::Row => write!(
                f,
                "the first line has a row and no names: put above it the line {names}"
            ),
            _ => write!(
                f,
                "the first line names no column of the schema: see that the file's columns are those of the schema, in their order, and let the first line be {names}"
            ),
        }
    }

    /// What stands in it at a place.
    fn field(&self, column: usize) -> Bytes<'a> {
        Bytes(bare(self.line.split(is_comma).nth(column).unwrap_or(&[])))
    }
}

/// Whether a byte stands between two fields.
fn is_comma(byte: &u8) -> bool {
    *byte == b','
}

/// Whether a byte stands between the fields of other files.
fn is_divider(byte: &u8) -> bool {
    *byte == b';' || *byte == b'\t' || *byte == b'|'
}

/// A field without the quotes round it, and a byte order mark before it.
fn bare(field: &[u8]) -> &[u8] {
    let field = field.strip_prefix(&[0xEF, 0xBB, 0xBF]).unwrap_or(field);
    match field {
        [b'"', inside @ .., b'"'] => inside,
        _ => field,
    }
}

/// The names of a table's columns, as the first line of its file has them.
#[derive(Clone, Copy)]
pub(crate) struct HeaderNames<'a> {
    pub(crate) schema: &'a Schema,
    pub(crate) table: usize,
}

impl<'a> Display for HeaderNames<'a> {
    fn fmt<W: Write>(&self, f: &mut Formatter<W>) -> Result<(), FormatError> {
        let HeaderNames { schema, table } = *self;
        for column in 0..schema.columns(table) {
            let comma = if column == 0 { "" } else { "," };
            write!(f, "{comma}{}", column_name(schema, Field { table, column }))?;
        }
        Ok(())
    }
}

/// What is wrong, and what to do. No field of a row is told.
impl<'a> Display for Header<'a> {
    fn fmt<W: Write>(&self, f: &mut Formatter<W>) -> Result<(), FormatError> {
        let HeaderNames { schema, table } = self.names();
        match self.wrong() {
            Wrong::Order => write!(
                f,
                "the columns stand in another order than in the schema, {} for {}: do not change this line alone, which would swap columns; bring the columns of the schema, or those of the whole file, into the other's order",
                Bytes(self.line),
                self.names()
            ),
            Wrong::Count(count) => write!(
                f,
                "the first line has {count} names, and the table {} columns, {}: let the file and the schema have the same ones",
                schema.columns(table),
                self.names()
            ),
            Wrong::Other(column) => write!(
                f,
                "name {} is {}, and in the schema {}: where it is the same column, write the same name in both; else bring the columns into one order",
                column.saturating_add(1),
                self.field(column),
                column_name(schema, Field { table, column })
            ),
            unnamed => self.write_unnamed(f, unnamed),
        }
    }
}
