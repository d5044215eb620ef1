//! What is wrong with the groups of a text.

use crate::found::{Found, Read};
use crate::meanings::meanings;
use crate::parts::{Column, Part};
use std::alloc::AllocError;
use text_places::names::{Field, table_name};

/// The first column of a group that is of another table than the group's first column.
pub(crate) fn mixed(text: &Read<'_>) -> Result<Option<Found>, AllocError> {
    let mut first: Option<Field> = None;
    let mut inside = false;
    for part in &text.parts {
        match part {
            Part::Opened(_) => {
                inside = true;
                first = None;
            }
            Part::Closed => inside = false,
            Part::Compared(column, _) | Part::Tested(column) if inside => {
                let fields = meanings(text.alloc, text.schema, &text.tables, column)?;
                match (first, fields.first()) {
                    (Some(other), Some(field)) if other.table != field.table => {
                        return Ok(Found::at(column.at(), two_tables(text, other, *field, column)?));
                    }
                    (None, Some(field)) => first = Some(*field),
                    _ => {}
                }
            }
            _ => {}
        }
    }
    Ok(None)
}

/// That a column of a group is of another table than the first one.
fn two_tables(
    text: &Read<'_>,
    first: Field,
    field: Field,
    column: &Column<'_>,
) -> Result<String, AllocError> {
    let one = table_name(text.schema, first.table);
    let other = table_name(text.schema, field.table);
    format!(in text.alloc;
        "between these parentheses stand columns of {one}, and {column} is one of {other}: write there tests of one table, or a text for each table"
    )
}
