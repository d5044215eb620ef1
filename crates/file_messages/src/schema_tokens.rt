//! Where in its text the rule of a schema is broken.

use ghost_base::limits::{MAX_CHARS, MAX_COLUMNS, MAX_NAME, MAX_TABLES};
use key_inputs::BrokenSchema;
use text_places::place::token_from;
use tree_schema::{Cursor, Mark, Token};

/// The token at which a schema breaks a rule, if it is one.
pub(crate) fn broken_token<'a>(schema: &'a [u8], broken: &BrokenSchema) -> Option<Token<'a>> {
    match broken {
        BrokenSchema::Syntax { at } => Some(token_from(schema, *at)),
        BrokenSchema::Limit => Beyond::new().first(schema),
        BrokenSchema::DuplicateTable(named)
        | BrokenSchema::NoId(named)
        | BrokenSchema::TwoParents(named)
        | BrokenSchema::Cycle(named) => table_name(schema, named.table),
        BrokenSchema::DuplicateColumn(named) => column_name(schema, named.table, named.column),
        BrokenSchema::UnknownTable(named) => child_name(schema, named.table, named.column),
        BrokenSchema::NotOneRoot { .. } => None,
    }
}

/// The name of a table of a schema that is in the grammar, by the table's place.
fn table_name(schema: &[u8], table: usize) -> Option<Token<'_>> {
    Tokens::of(schema).behind(Mark::Table, table)
}

/// The name of a column of a schema that is in the grammar, by the places of its table and of the column in it.
fn column_name(schema: &[u8], table: usize, column: usize) -> Option<Token<'_>> {
    Tokens::of(schema).to_column(table, column)
}

/// The table that a foreign key of a schema names, by the places of its own table and of its column in it.
fn child_name(schema: &[u8], table: usize, column: usize) -> Option<Token<'_>> {
    let mut tokens = Tokens::of(schema);
    tokens.to_column(table, column)?;
    tokens.behind(Mark::References, 0)
}

/// The tokens of a schema that were not given yet, of which there are at most so many.
#[derive(Drop)]
struct Tokens<'a> {
    cursor: Cursor<'a>,
    most: usize,
}

/// A schema is in the grammar where its columns are sought. A comma stands there between two columns and nowhere else.
impl<'a> Tokens<'a> {
    /// The name of a column, by the places of its table and of the column in it.
    fn to_column(&mut self, table: usize, column: usize) -> Option<Token<'a>> {
        self.behind(Mark::Table, table)?;
        match column.checked_sub(1) {
            None => self.behind(Mark::Open, 0),
            Some(earlier) => self.behind(Mark::Comma, earlier),
        }
    }

    /// All tokens of a schema.
    fn of(schema: &'a [u8]) -> Tokens<'a> {
        Tokens {
            cursor: Cursor::of(schema),
            most: schema.len(),
        }
    }

    /// The token behind the next one of a sort that stands behind `earlier` more of that sort.
    fn behind(&mut self, mark: Mark, earlier: usize) -> Option<Token<'a>> {
        let mut left = earlier;
        for _ in 0..self.most {
            let token = self.cursor.next()?;
            if token.mark == mark {
                if left == 0 {
                    return self.cursor.next();
                }
                left = left.saturating_sub(1);
            }
        }
        None
    }
}

/// What was counted of a schema while it is searched for what is beyond the limits.
#[derive(Drop)]
struct Beyond {
    tables: usize,
    columns: usize,
}

impl Beyond {
    /// Before the first token.
    fn new() -> Beyond {
        Beyond {
            tables: 0,
            columns: 0,
        }
    }

    /// The first token of a schema that is beyond the limits.
    fn first<'a>(&mut self, schema: &'a [u8]) -> Option<Token<'a>> {
        let mut cursor = Cursor::of(schema);
        for _ in 0..schema.len() {
            let token = cursor.next()?;
            if self.is_beyond(&token) {
                return Some(token);
            }
        }
        None
    }

    /// Whether the limits end at this token, which is counted.
    fn is_beyond(&mut self, token: &Token<'_>) -> bool {
        match token.mark {
            Mark::Table => {
                self.tables = self.tables.saturating_add(1);
                self.columns = 1;
                self.tables > MAX_TABLES
            }
            Mark::Comma => {
                self.columns = self.columns.saturating_add(1);
                self.columns > MAX_COLUMNS
            }
            Mark::Name => token.bytes.len() > MAX_NAME,
            Mark::Digits => !is_length(token.bytes),
            _ => false,
        }
    }
}

/// Whether digits are the length of a CHAR.
fn is_length(digits: &[u8]) -> bool {
    match std::str::from_utf8(digits) {
        Ok(text) => match text.parse::<usize>() {
            Ok(number) => 1 <= number && number <= MAX_CHARS,
            Err(_) => false,
        },
        Err(_) => false,
    }
}
