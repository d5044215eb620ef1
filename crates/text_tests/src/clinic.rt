//! The clinic: its schema, its files, and how its values are written in the tables of cases.

use csv_split::Tables;
use ghost_base::{Text64, Value};
use std::alloc::{AllocError, Global};
use std::fmt::Write;
use tree_schema::Schema;

/// The canonical text of its schema.
pub(crate) const SCHEMA: &str =
    "CREATE TABLE doctor (id INTEGER PRIMARY KEY, specialty CHAR(8), country CHAR(2) HIDDEN);
CREATE TABLE patient (id INTEGER PRIMARY KEY, age INTEGER, name CHAR(8) HIDDEN);
CREATE TABLE visit (id INTEGER PRIMARY KEY, day INTEGER, purpose CHAR(8) HIDDEN, doc INTEGER REFERENCES doctor(id) HIDDEN, pat INTEGER REFERENCES patient(id) HIDDEN);
";

/// Its files.
pub(crate) const FILES: [&str; 3] = [
    "id,specialty,country\n1,cardio,FR\n2,neuro,ES\n3,cardio,ES\n",
    "id,age,name\n1,30,Ann\n2,41,Bob\n",
    "id,day,purpose,doc,pat\n1,5,flu,1,1\n2,5,check,3,2\n3,9,flu,3,1\n4,2,flu,2,2\n",
];

/// Files of these texts.
pub(crate) fn files_of(alloc: Global, texts: &[&str]) -> Result<Vec<Vec<u8>>, AllocError> {
    let mut files = Vec::new(alloc);
    for text in texts {
        let file = text.as_bytes().to_vec(alloc)?;
        let Ok(()) = files.push(file) else {
            return Err(AllocError);
        };
    }
    Ok(files)
}

/// The bytes of a catalog: what stands before the length of its text, the text, and the number of rows of each table.
pub(crate) fn catalog_bytes(
    alloc: Global,
    head: &[u8],
    text: &str,
    counts: &[u32],
) -> Result<Vec<u8>, AllocError> {
    let mut bytes = head.to_vec(alloc)?;
    bytes.extend_from_slice(&u32::try_from(text.len()).unwrap_or(0).to_be_bytes())?;
    bytes.extend_from_slice(text.as_bytes())?;
    for count in counts {
        bytes.extend_from_slice(&count.to_be_bytes())?;
    }
    Ok(bytes)
}

/// The value of a text, which has at most 64 bytes.
pub(crate) fn chars(text: &str) -> Value {
    if text.len() > 64 {
        return Value::Int(0);
    }
    Value::Chars(Text64::of(text.as_bytes()))
}

/// Writes a value: a number, a text between quotes, or NULL.
pub(crate) fn put_value(out: &mut String, value: &Value) -> Result<(), AllocError> {
    match value {
        Value::Null => write!(out, "NULL"),
        Value::Int(number) => write!(out, "{number}"),
        Value::Chars(text) => match std::str::from_utf8(text.as_bytes()) {
            Ok(chars) => write!(out, "'{chars}'"),
            Err(_) => write!(out, "no text"),
        },
    }
}

/// The rows of a table on one line.
pub(crate) fn rows_of(
    alloc: Global,
    schema: &Schema,
    tables: &Tables,
    table: usize,
) -> Result<String, AllocError> {
    let mut out = String::new(alloc);
    for identifier in 1..=tables.rows(table) {
        for column in 0..schema.columns(table) {
            write!(out, "{}", if column == 0 { "" } else { " " })?;
            if let Some(value) = tables.value(table, identifier, column) {
                put_value(&mut out, &value)?;
            }
        }
        write!(out, ";")?;
    }
    Ok(out)
}

/// The rows of all tables, each table on a line.
pub(crate) fn all_rows(
    alloc: Global,
    schema: &Schema,
    tables: &Tables,
) -> Result<String, AllocError> {
    let mut out = String::new(alloc);
    for table in 0..schema.tables() {
        let rows = rows_of(alloc, schema, tables, table)?;
        writeln!(out, "{rows}")?;
    }
    Ok(out)
}
