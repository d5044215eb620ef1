//! The lines of a rule of the inputs that is broken.

use crate::broken_schema::{BrokenText, schema_lines};
use crate::table_lines::{BrokenFile, table_line};
use key_inputs::{BrokenTable, InputFault, Shown};
use std::alloc::{AllocError, Global};
use tree_schema::Schema;

/// The files that were read of a schema and its tables.
#[derive(Clone, Copy)]
pub struct FilesRead<'a> {
    /// The name of the schema's file.
    pub schema_file: &'a str,

    /// The folder of the tables' files.
    pub folder: &'a str,

    /// The schema's bytes.
    pub schema_read: &'a [u8],

    /// The first bytes of the file that was read last.
    pub front: &'a [u8],
}

/// The lines, without the end of the last one, that show where a schema breaks a rule, and tell what to write in it or in a table's
/// file; none where the rule itself says it, or the schema is not at hand.
pub fn broken_lines(
    alloc: Global,
    files: &FilesRead<'_>,
    schema: Option<&Schema>,
    fault: &InputFault,
) -> Result<String, AllocError> {
    match (fault, schema) {
        (InputFault::Schema(broken), _) => {
            let text = BrokenText {
                file: files.schema_file,
                schema: files.schema_read,
                broken: *broken,
            };
            schema_lines(alloc, &text)
        }
        (InputFault::Table(broken), Some(schema)) => {
            let name = format!(in alloc; "{}/{}.csv", files.folder, table_of(broken))?;
            let file = BrokenFile {
                file: name.as_str(),
                schema,
                broken: *broken,
                line: first_line(files.front),
            };
            table_line(alloc, &file)
        }
        _ => Ok(String::new(alloc)),
    }
}

/// The table whose file breaks a rule.
fn table_of(broken: &BrokenTable) -> Shown {
    match broken {
        BrokenTable::FileLimit(record)
        | BrokenTable::Empty(record)
        | BrokenTable::Header(record)
        | BrokenTable::RowLimit(record)
        | BrokenTable::FieldCount(record) => record.table,
        BrokenTable::BadId { field, .. }
        | BrokenTable::BadInt { field, .. }
        | BrokenTable::BadChars { field, .. }
        | BrokenTable::BadReference { field, .. } => field.table,
    }
}

/// The first line that is not empty.
fn first_line(bytes: &[u8]) -> &[u8] {
    for line in bytes.split(is_line_end) {
        if !line.is_empty() {
            return line;
        }
    }
    &[]
}

/// Whether a byte ends a line.
fn is_line_end(byte: &u8) -> bool {
    *byte == b'\n' || *byte == b'\r'
}
