//! The rule that the file of a table breaks.

ghost use Rattle.std.specs.Prelude.{◌≡◌, Some};
ghost use Rattle.csv_split.specs.Faults.{told};
ghost use Rattle.key_inputs.specs.Rules.{table_rule};

use crate::shown::Shown;
use csv_split::{LoadFault, Place};
use std::fmt::{Display, Error as FormatError, Formatter, Write};
use thiserror::Error;

/// A record of a table's file, or the whole file.
#[derive(Clone, Copy, Debug, Drop)]
pub struct RecordNamed {
    /// Where it stands, in column 0; record 0 is the whole file.
    pub at: Place,

    /// The name of the table.
    pub table: Shown,

    /// The line of the file, from 1, on which it begins; none of a whole file, and where it was not found again.
    pub line: Option<u32>,
}

impl Display for RecordNamed {
    fn fmt<W: Write>(&self, f: &mut Formatter<W>) -> Result<(), FormatError> {
        write!(f, "{}.csv, {}", self.table, Spot(self.line, self.at.rec))
    }
}

/// The line on which a record begins, or where that is not known the record's number.
#[derive(Clone, Copy)]
struct Spot(Option<u32>, u32);

impl Display for Spot {
    fn fmt<W: Write>(&self, f: &mut Formatter<W>) -> Result<(), FormatError> {
        match self.0 {
            Some(line) => write!(f, "line {line}"),
            None => write!(f, "record {}", self.1),
        }
    }
}

/// A field of a table's file.
#[derive(Clone, Copy, Debug, Drop)]
pub struct FieldNamed {
    /// Where it stands.
    pub at: Place,

    /// The name of the table.
    pub table: Shown,

    /// The name of the column.
    pub column: Shown,

    /// The line of the file, from 1, on which its record begins; none where it was not found again.
    pub line: Option<u32>,
}

impl Display for FieldNamed {
    fn fmt<W: Write>(&self, f: &mut Formatter<W>) -> Result<(), FormatError> {
        write!(
            f,
            "{}.csv, {}, column {}",
            self.table,
            Spot(self.line, self.at.rec),
            self.column
        )
    }
}

/// The first rule that the file of a table breaks, and where.
#[derive(Clone, Copy, Debug, Drop, Error)]
pub enum BrokenTable {
    /// The file is too long.
    #[error("{}.csv: the file has more than 67108864 bytes", .0.table)]
    FileLimit(RecordNamed),

    /// The first record does not name the columns, or is missing.
    #[error("{0}: the first line must name the table's columns in their order")]
    Header(RecordNamed),

    /// The file spells no record, so that the first one is missing: it has empty lines at most.
    #[error("{}.csv: the file is empty, and its first line must name the table's columns in their order", .0.table)]
    Empty(RecordNamed),

    /// There is one more row than a table may have.
    #[error("{0}: the table has more than 1000000 rows")]
    RowLimit(RecordNamed),

    /// A record has not one field for each column.
    #[error("{0}: the row must have one field for each column")]
    FieldCount(RecordNamed),

    /// The identifier is not the row's number.
    #[error("{field}, value {value}: the identifier must be the row's number, from 1")]
    BadId {
        field: FieldNamed,
        value: Shown,
    },

    /// A field of an INTEGER column is no integer within 64 bits.
    #[error("{field}, value {value}: the field must be an integer within 64 bits")]
    BadInt {
        field: FieldNamed,
        value: Shown,
    },

    /// A field of a CHAR column is too long, or has a byte that is no character.
    #[error("{field}, value {value}: the field is longer than its column allows, or is no text")]
    BadChars {
        field: FieldNamed,
        value: Shown,
    },

    /// A foreign key is the identifier of no row of its child table, which is named too.
    #[error("{field}: there is no {child} {value}")]
    BadReference {
        field: FieldNamed,
        child: Shown,
        value: Shown,
    },
}

impl BrokenTable {
    /// The rule by its place alone.
    pub fn rule(&self) -> LoadFault
        ensures rule { told result ≡ Some (table_rule self.now) }
    {
        match self {
            BrokenTable::FileLimit(record) => LoadFault::FileLimit(record.at),
            BrokenTable::Header(record) | BrokenTable::Empty(record) => {
                LoadFault::Header(record.at)
            }
            BrokenTable::RowLimit(record) => LoadFault::RowLimit(record.at),
            BrokenTable::FieldCount(record) => LoadFault::FieldCount(record.at),
            BrokenTable::BadId { field, .. } => LoadFault::BadId(field.at),
            BrokenTable::BadInt { field, .. } => LoadFault::BadInt(field.at),
            BrokenTable::BadChars { field, .. } => LoadFault::BadChars(field.at),
            BrokenTable::BadReference { field, .. } => LoadFault::BadReference(field.at),
        }
    }
}
