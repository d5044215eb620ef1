//! What to write in the place of what breaks the rule of a table's file.

use crate::header::{Header, HeaderNames};
use csv_split::Place;
use edge_real::file_name::FileName;
use ghost_base::Kind;
use key_inputs::{BrokenTable, Front, Shown};
use std::alloc::{AllocError, Global};
use std::fmt::{Display, Error as FormatError, Formatter, Write};
use text_places::names::{Field, kind_of};
use tree_schema::Schema;

/// A table's file that breaks a rule.
#[derive(Clone, Copy)]
pub struct BrokenFile<'a> {
    /// The file's name.
    pub file: &'a str,

    /// The schema that describes it.
    pub schema: &'a Schema,

    /// The rule that it breaks.
    pub broken: BrokenTable,

    /// The first bytes of the line on which the record begins that breaks it, empty where they are not at hand.
    pub line: &'a [u8],
}

/// The line, without its end, that tells what to write in a table's file. Of a row it has nothing.
pub fn table_line(alloc: Global, file: &BrokenFile<'_>) -> Result<String, AllocError> {
    let name = FileName::of(file.file);
    format!(in alloc; "{name}: {file}")
}

impl<'a> BrokenFile<'a> {
    /// The names of a table's columns.
    fn names(&self, at: &Place) -> HeaderNames<'a> {
        HeaderNames {
            schema: self.schema,
            table: usize::from(at.table),
        }
    }

    /// The first line, and the table whose columns it has to name.
    fn header(&self, at: &Place) -> Header<'a> {
        Header {
            line: self.line,
            schema: self.schema,
            table: usize::from(at.table),
        }
    }
}

impl<'a> Display for BrokenFile<'a> {
    fn fmt<W: Write>(&self, f: &mut Formatter<W>) -> Result<(), FormatError> {
        match self.broken {
            BrokenTable::FileLimit(_) | BrokenTable::RowLimit(_) => {
                f.write_str("leave out rows, or parts of them in a table of their own")
            }
            BrokenTable::Empty(record) => {
                write!(f, "write as the first line {}", self.names(&record.at))
            }
            BrokenTable::Header(record) => write!(f, "{}", self.header(&record.at)),
            BrokenTable::FieldCount(record) => write!(
                f,
                "write in each line {}, and \" round a value that has a comma or a line end",
                self.names(&record.at)
            ),
            BrokenTable::BadId { .. } => f.write_str(
                "write 1, 2, 3 and so on; examples/number_rows.py makes them of other keys",
            ),
            BrokenTable::BadInt { field, value } => {
                f.write_str(number_cure(&value, is_reference(self.schema, &field.at)))
            }
            BrokenTable::BadChars { field, value } => {
                let most = length_at(self.schema, &field.at);
                write!(f, "{}", CharsFault { value, most })
            }
            BrokenTable::BadReference { child, .. } => {
                write!(f, "write the id of a row that {child}.csv has")
            }
        }
    }
}

/// Whether the column at a place is a foreign key.
fn is_reference(schema: &Schema, at: &Place) -> bool {
    match schema.column(usize::from(at.table), usize::from(at.column)) {
        Some(column) => column.child.is_some(),
        None => false,
    }
}

/// What to write in place of a field that is no number, in a foreign key or in another column.
fn number_cure(value: &Shown, is_reference: bool) -> &'static str {
    match value {
        Shown::Whole(front) if front.len == 0 && is_reference => {
            "it is empty, and a foreign key is never NULL: write the id of a row"
        }
        Shown::Whole(front) if front.len == 0 => {
            "it is empty: write NULL behind INTEGER in the schema, or a number that stands for it, as -1"
        }
        Shown::Whole(front) if has(front, b'.') || has(front, b',') => {
            "write a whole number, and keep tenths, as 142 for 14.2"
        }
        Shown::Whole(front) if has(front, b'-') || has(front, b'/') => {
            "write a whole number, as 5 or -12, and a date as 20240131"
        }
        _ => "write a whole number, as 5 or -12, with no blank; NULL is an empty field",
    }
}

/// Whether one of the bytes behind the first one is this.
fn has(front: &Front, wanted: u8) -> bool {
    for byte in front.places.iter().take(front.len).skip(1) {
        if *byte == wanted {
            return true;
        }
    }
    false
}

/// The most bytes of a text in the column at a place.
fn length_at(schema: &Schema, at: &Place) -> u8 {
    let field = Field {
        table: usize::from(at.table),
        column: usize::from(at.column),
    };
    match kind_of(schema, field) {
        Kind::Chars(most) | Kind::CharsOrNull(most) => most,
        Kind::Integer | Kind::IntegerOrNull => 0,
    }
}

/// What is wrong with a field of a CHAR column of at most so many bytes.
#[derive(Clone, Copy)]
struct CharsFault {
    value: Shown,
    most: u8,
}

impl Display for CharsFault {
    fn fmt<W: Write>(&self, f: &mut Formatter<W>) -> Result<(), FormatError> {
        let most = self.most;
        let bytes = if most == 1 { "byte" } else { "bytes" };
        match self.value {
            Shown::Unread => write!(
                f,
                "write at most {most} {bytes}, each from 20 to 7E: no accented letter, tab or line end"
            ),
            Shown::Cut(front) => match foreign(&front) {
                Some(foreign) => write!(f, "{foreign}"),
                None => write!(
                    f,
                    "it has more than 100 bytes: write at most {most} {bytes}"
                ),
            },
            Shown::Whole(front) => match foreign(&front) {
                Some(foreign) => write!(f, "{foreign}"),
                None => write!(
                    f,
                    "it has {} bytes: write at most {most} {bytes}",
                    front.len
                ),
            },
        }
    }
}

/// A byte of a field that is no character.
#[derive(Clone, Copy)]
struct ForeignByte {
    byte: u8,
    place: usize,
}

/// The first byte that is no character.
fn foreign(front: &Front) -> Option<ForeignByte> {
    let mut place: usize = 0;
    for byte in front.places.iter().take(front.len) {
        place = place.saturating_add(1);
        if *byte < b' ' || *byte > b'~' {
            return Some(ForeignByte { byte: *byte, place });
        }
    }
    None
}

impl Display for ForeignByte {
    fn fmt<W: Write>(&self, f: &mut Formatter<W>) -> Result<(), FormatError> {
        let ForeignByte { byte, place } = *self;
        let sort = match byte {
            0x80..=0xFF => "of an accented letter: write it as plain letters, as ae",
            b'\t' => "a tab: write a blank",
            b'\n' | b'\r' => "a line end: write a blank",
            _ => "no character: leave it out",
        };
        write!(
            f,
            "byte {place} of it is {byte:02X}, {sort}; a text has bytes from 20 to 7E"
        )
    }
}
