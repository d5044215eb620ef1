//! Why files make no tables.

use std::fmt::{Display, Error as FormatError, Formatter, Write};
use thiserror::Error;

/// Where a rule is broken: a table, a record of its file and a column, each by its place. Records are counted from 1;
/// the record is 0 where the whole file is meant, and the column where no one column is.
#[derive(Clone, Copy, Debug, Drop)]
pub struct Place {
    /// The table, from 0.
    pub table: u8,

    /// The record of the file, the header being record 1.
    pub rec: u32,

    /// The column, from 0.
    pub column: u8,
}

impl Display for Place {
    fn fmt<W: Write>(&self, f: &mut Formatter<W>) -> Result<(), FormatError> {
        write!(
            f,
            "table {}, record {}, column {}",
            self.table, self.rec, self.column
        )
    }
}

/// Why files make no tables: want of memory, or the first rule that is broken and where.
#[derive(Clone, Copy, Debug, Drop, Error)]
pub enum LoadFault {
    /// There is not enough memory.
    #[error("out of memory")]
    NoMemory,

    /// The file is too long.
    #[error("the file is too long: {0}")]
    FileLimit(Place),

    /// The first record does not name the columns, or is missing.
    #[error("the first record does not name the columns: {0}")]
    Header(Place),

    /// There is one more row than a table may have.
    #[error("the table has too many rows: {0}")]
    RowLimit(Place),

    /// A record has not one field for each column.
    #[error("the record has not one field for each column: {0}")]
    FieldCount(Place),

    /// The identifier is not the row's number.
    #[error("the identifier is not the row's number: {0}")]
    BadId(Place),

    /// A field of an INTEGER column is no integer within 64 bits.
    #[error("the field is no integer within 64 bits: {0}")]
    BadInt(Place),

    /// A field of a CHAR column is too long, or has a byte that is no character.
    #[error("the field is too long or no text: {0}")]
    BadChars(Place),

    /// A foreign key is the identifier of no row of its child table.
    #[error("the foreign key is the identifier of no row: {0}")]
    BadReference(Place),
}
