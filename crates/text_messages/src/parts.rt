//! The parts of a query text that is in the grammar, with the tokens that spell them.

use std::alloc::{AllocError, Global};
use std::fmt::{Display, Error as FormatError, Formatter, Write};
use text_places::place::Word;
use tree_schema::{Cursor, Mark, Token};

/// A column as a text writes it.
#[derive(Clone, Copy)]
pub(crate) struct Column<'a> {
    /// The name before its point, where there is one.
    pub(crate) table: Option<Token<'a>>,

    /// The name of the column itself.
    pub(crate) name: Token<'a>,
}

impl<'a> Column<'a> {
    /// Where it begins in the text.
    pub(crate) fn at(&self) -> usize {
        match self.table {
            Some(table) => table.at,
            None => self.name.at,
        }
    }
}

impl<'a> Display for Column<'a> {
    fn fmt<W: Write>(&self, f: &mut Formatter<W>) -> Result<(), FormatError> {
        if let Some(table) = self.table {
            write!(f, "{}.", Word(table))?;
        }
        write!(f, "{}", Word(self.name))
    }
}

/// A literal as a text writes it.
#[derive(Clone, Copy)]
pub(crate) struct Literal<'a> {
    /// Its sign, where it has one.
    pub(crate) sign: Option<Token<'a>>,

    /// Its digits, or the text in its quotes.
    pub(crate) token: Token<'a>,
}

impl<'a> Literal<'a> {
    /// Where it begins in the text.
    pub(crate) fn at(&self) -> usize {
        match self.sign {
            Some(sign) => sign.at,
            None => self.token.at,
        }
    }
}

impl<'a> Display for Literal<'a> {
    fn fmt<W: Write>(&self, f: &mut Formatter<W>) -> Result<(), FormatError> {
        if let Some(sign) = self.sign {
            write!(f, "{}", Word(sign))?;
        }
        write!(f, "{}", Word(self.token))
    }
}

/// A part of a text.
#[derive(Clone, Copy)]
pub(crate) enum Part<'a> {
    /// All columns.
    Star(Token<'a>),

    /// A selected column.
    Selected(Column<'a>),

    /// A table of FROM.
    Table(Token<'a>),

    /// A column that is compared with a literal.
    Compared(Column<'a>, Literal<'a>),

    /// A column that is NULL, or is not.
    Tested(Column<'a>),

    /// A column that lies between two literals.
    Between(Column<'a>, Literal<'a>, Literal<'a>),

    /// Two columns that are compared.
    Joined(Column<'a>, Column<'a>),

    /// The beginning of a group, whose parts follow.
    Opened(Token<'a>),

    /// The end of a group.
    Closed,
}

impl<'a> Part<'a> {
    /// The columns that it names, the left one first.
    pub(crate) fn columns(&self) -> [Option<Column<'a>>; 2] {
        match *self {
            Part::Star(_) | Part::Table(_) | Part::Opened(_) | Part::Closed => [None, None],
            Part::Selected(column)
            | Part::Compared(column, _)
            | Part::Tested(column)
            | Part::Between(column, _, _) => [Some(column), None],
            Part::Joined(left, right) => [Some(left), Some(right)],
        }
    }

    /// The literals with which its column is compared.
    pub(crate) fn literals(&self) -> [Option<Literal<'a>>; 2] {
        match *self {
            Part::Compared(_, literal) => [Some(literal), None],
            Part::Between(_, low, high) => [Some(low), Some(high)],
            _ => [None, None],
        }
    }
}

/// Which list of a text its parts belong to.
#[derive(Clone, Copy)]
enum Section {
    Select,
    From,
    Where,
}

/// The tokens of a text that were not gone over yet, of which the first is at hand.
#[derive(Drop)]
struct Reader<'a> {
    cursor: Cursor<'a>,
    token: Token<'a>,
    section: Section,

    /// The column whose values behind IN are gone over.
    listed: Option<Column<'a>>,
}

impl<'a> Reader<'a> {
    /// The tokens of a text from its first one on.
    fn of(text: &'a [u8]) -> Reader<'a> {
        let mut reader = Reader {
            cursor: Cursor::of(text),
            token: end_of(text),
            section: Section::Select,
            listed: None,
        };
        let _first = reader.take();
        reader
    }

    /// Goes over the token at hand, and answers it. The last one stays.
    fn take(&mut self) -> Token<'a> {
        let taken = self.token;
        if let Some(next) = self.cursor.next() {
            self.token = next;
        }
        taken
    }

    /// The column that begins here.
    fn column(&mut self) -> Column<'a> {
        let first = self.take();
        if self.token.mark != Mark::Point {
            return Column {
                table: None,
                name: first,
            };
        }
        let _point = self.take();
        Column {
            table: Some(first),
            name: self.take(),
        }
    }

    /// The literal that begins here.
    fn literal(&mut self) -> Literal<'a> {
        match self.token.mark {
            Mark::Plus | Mark::Minus => Literal {
                sign: Some(self.take()),
                token: self.take(),
            },
            _ => Literal {
                sign: None,
                token: self.take(),
            },
        }
    }

    /// The condition that begins here.
    fn condition(&mut self) -> Part<'a> {
        let column = self.column();
        let operator = self.take();
        match (operator.mark, self.token.mark) {
            (Mark::Is, _) => Part::Tested(column),
            (Mark::In, _) => {
                let _open = self.take();
                self.listed = Some(column);
                Part::Compared(column, self.literal())
            }
            (Mark::Between, _) => {
                let low = self.literal();
                let _and = self.take();
                Part::Between(column, low, self.literal())
            }
            (_, Mark::Name) => Part::Joined(column, self.column()),
            _ => Part::Compared(column, self.literal()),
        }
    }

    /// The part that begins with the name at hand.
    fn named(&mut self) -> Part<'a> {
        match self.section {
            Section::Select => Part::Selected(self.column()),
            Section::From => Part::Table(self.take()),
            Section::Where => self.condition(),
        }
    }

    /// Goes over the token at hand behind the first value of an IN, or over the value that it begins.
    fn next_listed(&mut self, column: Column<'a>) -> Option<Part<'a>> {
        match self.token.mark {
            Mark::Comma => {}
            Mark::Closing => self.listed = None,
            _ => return Some(Part::Compared(column, self.literal())),
        }
        let _gone = self.take();
        None
    }

    /// Goes over the token at hand, or over the part that it begins.
    fn next(&mut self) -> Option<Part<'a>> {
        if let Some(column) = self.listed {
            return self.next_listed(column);
        }
        match self.token.mark {
            Mark::Open => return Some(Part::Opened(self.take())),
            Mark::Closing => {
                let _closing = self.take();
                return Some(Part::Closed);
            }
            Mark::Name => return Some(self.named()),
            Mark::Star => return Some(Part::Star(self.take())),
            Mark::From => self.section = Section::From,
            Mark::Where => self.section = Section::Where,
            _ => {}
        }
        let _gone = self.take();
        None
    }
}

/// The end of a text.
fn end_of(text: &[u8]) -> Token<'_> {
    Token {
        mark: Mark::End,
        at: text.len(),
        bytes: &[],
    }
}

/// The parts of a text that is in the grammar, in their order.
pub(crate) fn parts_of(alloc: Global, text: &[u8]) -> Result<Vec<Part<'_>>, AllocError> {
    let mut reader = Reader::of(text);
    let mut parts = Vec::new(alloc);
    for _ in 0..text.len() {
        if reader.token.mark == Mark::End {
            break;
        }
        if let Some(part) = reader.next() {
            parts.push(part)?;
        }
    }
    Ok(parts)
}
