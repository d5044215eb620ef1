//! Which limit of a query a text is beyond.

use crate::found::{Found, Read};
use crate::parts::Part;
use ghost_base::limits::{MAX_CONDITIONS, MAX_NAME, MAX_QUERY, MAX_SELECTED, MAX_TABLES};
use std::alloc::{AllocError, Global};
use text_places::names::table_named;
use text_places::place::Word;
use tree_schema::Token;

/// That a text has more bytes than it may have, where it has.
pub(crate) fn too_long(alloc: Global, text: &[u8]) -> Result<Option<Found>, AllocError> {
    let len = text.len();
    if len <= MAX_QUERY {
        return Ok(None);
    }
    let told = format!(in alloc; "it has {len} bytes: write at most {MAX_QUERY}")?;
    Ok(Found::at(0, told))
}

/// The first thing of a text that is one more than it may have, or a name that is too long.
pub(crate) fn over_limit(text: &Read<'_>) -> Result<Option<Found>, AllocError> {
    let mut count = Count {
        tables: 0,
        columns: 0,
        conditions: 0,
    };
    for part in &text.parts {
        if let Some(name) = long_name(part) {
            let len = name.bytes.len();
            let told = format!(in text.alloc;
                "the name {} has {len} bytes: write at most {MAX_NAME}",
                Word(name)
            )?;
            return Ok(Found::at(name.at, told));
        }
        if let Some(beyond) = count.beyond(part) {
            return Ok(Found::at(at_of(part), String::from_str(text.alloc, beyond)?));
        }
    }
    stars(text)
}

/// What was counted of a text.
#[derive(Drop)]
struct Count {
    tables: usize,
    columns: usize,
    conditions: usize,
}

impl Count {
    /// Counts a part, and answers what there are too many of with it.
    fn beyond(&mut self, part: &Part<'_>) -> Option<&'static str> {
        match part {
            Part::Table(_) => self.tables = self.tables.saturating_add(1),
            Part::Selected(_) => self.columns = self.columns.saturating_add(1),
            Part::Compared(_, _) | Part::Tested(_) => {
                self.conditions = self.conditions.saturating_add(1)
            }
            Part::Between(_, _, _) => self.conditions = self.conditions.saturating_add(2),
            Part::Star(_) | Part::Joined(_, _) | Part::Opened(_) | Part::Closed => {}
        }
        if self.tables > MAX_TABLES {
            Some("FROM names more than 12 tables: write at most 12")
        } else if self.columns > MAX_SELECTED {
            Some("more than 32 columns are selected: write at most 32")
        } else if self.conditions > MAX_CONDITIONS {
            Some(
                "there are more than 16 conditions, BETWEEN being two, IN one for each value, and a join none: write at most 16",
            )
        } else {
            None
        }
    }
}

/// Where a part begins.
fn at_of(part: &Part<'_>) -> usize {
    match part {
        Part::Star(token) | Part::Table(token) | Part::Opened(token) => token.at,
        Part::Compared(column, literal) => column.at().max(literal.at()),
        Part::Closed => 0,
        Part::Selected(column)
        | Part::Tested(column)
        | Part::Between(column, _, _)
        | Part::Joined(column, _) => column.at(),
    }
}

/// The first name of a part that is too long.
fn long_name<'a>(part: &Part<'a>) -> Option<Token<'a>> {
    if let Part::Table(name) = part {
        return long(Some(*name));
    }
    for column in part.columns() {
        if let Some(column) = column {
            if let Some(name) = long(column.table) {
                return Some(name);
            }
            if let Some(name) = long(Some(column.name)) {
                return Some(name);
            }
        }
    }
    None
}

/// The name, where it is too long.
fn long(name: Option<Token<'_>>) -> Option<Token<'_>> {
    let name = name?;
    if name.bytes.len() > MAX_NAME {
        Some(name)
    } else {
        None
    }
}

/// That `*` stands for more columns than may be selected.
fn stars(text: &Read<'_>) -> Result<Option<Found>, AllocError> {
    let mut columns: usize = 0;
    let mut star = None;
    for part in &text.parts {
        match part {
            Part::Star(token) => star = Some(token.at),
            Part::Table(name) => {
                if let Some(table) = table_named(text.schema, name.bytes) {
                    columns = columns.saturating_add(text.schema.columns(table));
                }
            }
            _ => {}
        }
    }
    match star {
        Some(at) if columns > MAX_SELECTED => {
            let told = format!(in text.alloc;
                "* stands for {columns} columns here: write at most {MAX_SELECTED} by their names"
            )?;
            Ok(Found::at(at, told))
        }
        _ => Ok(None),
    }
}
