//! A place in a text, told by its line and shown by a caret.

ghost use Rattle.std.specs.Prelude.{◌≡◌, ◌+◌, ◌<◌, ◌^◌, false, not, length, filter, reverse, take, take_while, drop, IfSome};
ghost use Rattle.std.specs.Char.{is_control};
ghost use Rattle.tree_schema.specs.Marks.{token_of};
ghost use Rattle.text_places.specs.Places as places;
ghost use Rattle.text_places.specs.Places.{column_behind, line_behind};

use std::fmt::{Display, Error as FormatError, Formatter, Write};
use tree_schema::{Cursor, Mark, Token};

/// The most bytes that are shown of a line before a place, and from it on.
const MOST_BEFORE: usize = 60;

const MOST_BEHIND: usize = 40;

/// A place in a text.
#[derive(Clone, Copy, Drop)]
pub struct Place<'a> {
    /// The bytes before it.
    before: &'a [u8],

    /// The bytes from it on.
    behind: &'a [u8],
}

impl<'a> Place<'a> {
    /// The place of this offset in a text, or its end where the text has no such place.
    pub fn of(text: &'a [u8], at: usize) -> Place<'a>
        ensures before { result.before.now ≡ take at text.now }
        ensures behind { result.behind.now ≡ drop at text.now }
    {
        Place {
            before: text.get(..at).unwrap_or(text),
            behind: text.get(at..).unwrap_or(&[]),
        }
    }

    /// The number of its line, from 1.
    fn line(&self) -> usize
        ensures line { result ≡ line_behind self.now.before.now }
    {
        lines_in(self.before) + 1
    }

    /// Its column, from 1 and in bytes.
    fn column(&self) -> usize
        ensures column { result ≡ column_behind self.now.before.now }
    {
        bytes_behind_line(self.before) + 1
    }

    /// What stands in its line before it, of which there are so many bytes at most.
    fn front(&self, most: usize) -> &'a [u8] {
        let shown = bytes_behind_line(self.before).min(most);
        let from = self.before.len().saturating_sub(shown);
        self.before.get(from..).unwrap_or(&[])
    }

    /// What stands in its line from it on.
    fn back(&self) -> &'a [u8] {
        self.behind.split(is_line_end).next().unwrap_or(&[])
    }

    /// The line and the column, from 1 and in bytes, as they are told.
    pub fn numbers(self) -> Numbers
        ensures line { result.line ≡ line_behind self.entry.before.now }
        ensures column { result.column ≡ column_behind self.entry.before.now }
    {
        Numbers {
            line: self.line(),
            column: self.column(),
        }
    }
}

/// How many lines end in these bytes.
fn lines_in(before: &[u8]) -> usize
    ensures lines { result ≡ length (filter places.is_line_feed before.now) }
    ensures room { result + 1 < 2 ^ 64 }
{
    before.iter().filter(|byte| is_line_feed(**byte)).count()
}

/// How many of these bytes stand behind the last end of a line.
fn bytes_behind_line(before: &[u8]) -> usize
    ensures bytes { result ≡ length (take_while (λ byte. not (places.is_line_end byte)) (reverse before.now)) }
    ensures room { result + 1 < 2 ^ 64 }
{
    before
        .iter()
        .rev()
        .take_while(|byte| !is_line_end(byte))
        .count()
}

/// Whether a byte is a line feed, by which lines are counted.
fn is_line_feed(byte: u8) -> bool
    ensures { result ≡ places.is_line_feed byte }
{
    byte == b'\n'
}

/// Whether a byte ends a line.
fn is_line_end(byte: &u8) -> bool
    ensures { result ≡ places.is_line_end byte.now }
{
    *byte == b'\n' || *byte == b'\r'
}

/// A line and a column.
#[derive(Clone, Copy, Drop)]
pub struct Numbers {
    line: usize,
    column: usize,
}

impl Display for Numbers {
    fn fmt<W: Write>(&self, f: &mut Formatter<W>) -> Result<(), FormatError> {
        write!(f, "line {}, column {}", self.line, self.column)
    }
}

/// The part of the line round the place, and below it a caret under the place.
impl<'a> Display for Place<'a> {
    fn fmt<W: Write>(&self, f: &mut Formatter<W>) -> Result<(), FormatError> {
        let near = self.front(MOST_BEFORE);
        let back = self.back();
        let next = back.get(..MOST_BEHIND).unwrap_or(back);
        write!(f, "    {}{}\n    ", Bytes(near), Bytes(next))?;
        for _ in near {
            f.write_char(' ')?;
        }
        f.write_char('^')
    }
}

/// Bytes as a line shows them: a question mark in the place of each that is not printable, and of a tab a blank.
#[derive(Clone, Copy, Drop)]
pub struct Bytes<'a>(pub &'a [u8]);

impl<'a> Display for Bytes<'a> {
    fn fmt<W: Write>(&self, f: &mut Formatter<W>) -> Result<(), FormatError> {
        for byte in self.0 {
            f.write_char(shown(*byte))?;
        }
        Ok(())
    }
}

/// The character that is shown for a byte.
fn shown(byte: u8) -> char
    ensures plain { is_control result ≡ false }
{
    match byte {
        b' '..=b'~' => byte as char,
        b'\t' => ' ',
        _ => '?',
    }
}

/// Where a token of a text is shown: the end behind the last token that is there.
pub fn place_in(text: &[u8], token: &Token<'_>) -> usize {
    match token.mark {
        Mark::End => text.trim_ascii_end().len(),
        _ => token.at,
    }
}

/// A token as a line tells of it.
#[derive(Clone, Copy)]
pub struct Word<'a>(pub Token<'a>);

impl<'a> Display for Word<'a> {
    fn fmt<W: Write>(&self, f: &mut Formatter<W>) -> Result<(), FormatError> {
        let bytes = self.0.bytes;
        match self.0.mark {
            Mark::End => f.write_str("its end"),
            _ => {
                let shown = bytes.get(..MOST_BEHIND).unwrap_or(bytes);
                let dots = if shown.len() == bytes.len() {
                    ""
                } else {
                    "..."
                };
                write!(f, "{}{dots}", Bytes(shown))
            }
        }
    }
}

/// The first token of a text that begins at an offset or later, or its end.
pub fn token_from(text: &[u8], at: usize) -> Token<'_>
    ensures token { IfSome (places.token_from text.now at) (λ token. token ≡ token_of result) }
{
    let mut cursor = Cursor::of(text);
    while let Some(token) = cursor.next() {
        if token.at >= at {
            return token;
        }
    }
    Token {
        mark: Mark::End,
        at: text.len(),
        bytes: &[],
    }
}
