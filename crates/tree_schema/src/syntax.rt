//! The syntax of the texts that declare tables.

ghost use Rattle.std.specs.Prelude.{◌≡◌, ◌≢◌, Err, ℕ, ◌∷◌, [], Bool, true, false, List, length, ◌<◌, ◌≤◌, IfOk, IfErr, OnOk, IfSome, IfNone, option_map};
ghost use Rattle.ghost_model.specs.refusals.Tokens as tokens;
ghost use Rattle.ghost_model.specs.refusals.SchemaGrammar as grammar;
ghost use Rattle.ghost_model.specs.readings.SchemaPlaces as places;
ghost use Rattle.tree_schema.specs.Marks.{symbol_of, token_of};
ghost use Rattle.tree_schema.specs.Drafts.{reference_of, column_of, in_column_of, place_of, Takes, IsOut, ReadsColumn, StopsColumn, Leads, Stops, named, opened, ReadsName, StopsName, ReadsNext, ReadsEnd, StopsEnd, ReadsOthers, StopsOthers, ReadsText, ReadsTable};
ghost use Rattle.tree_schema.specs.declared.tokens.Mark.TheVariants.{End};

use crate::tokens::{Cursor, Mark, Token, is_word};
use arrayvec::ArrayVec;
use ghost_base::limits::MAX_TABLES;

/// REFERENCES: the name of a table, and whether `( id )` follows it.
#[derive(Clone, Copy)]
pub struct ReferenceDraft<'a> {
    pub table: &'a [u8],
    pub says_id: bool,
}

/// A column as it is written: its name, after which comes what else the text says of it. The last says whether HIDDEN is
/// written, and at a CHAR the one before whether NULL is.
#[derive(Clone, Copy)]
pub enum ColumnDraft<'a> {
    Chars(&'a [u8], &'a [u8], bool, bool),
    Integer(&'a [u8], bool, Option<ReferenceDraft<'a>>, bool),
    IntegerOrNull(&'a [u8], bool),
}

/// A table as it is written.
#[derive(Drop)]
pub struct TableDraft<'a> {
    pub name: &'a [u8],
    pub first: ColumnDraft<'a>,
    pub others: ArrayVec<ColumnDraft<'a>, 23>,
}

/// A place within a column.
#[derive(Clone, Copy)]
enum InColumn<'a> {
    Named(&'a [u8]),
    AfterChar(&'a [u8]),
    AfterOpen(&'a [u8]),
    AfterLength(&'a [u8], &'a [u8]),
    AfterPrimary(&'a [u8]),
    AfterReferences(&'a [u8], bool),
    OpensId(&'a [u8], bool, &'a [u8]),
    AfterId(&'a [u8], bool, &'a [u8]),
    Whole(ColumnDraft<'a>),
}

/// What a token does within a table's columns: it goes on in a column, it ends it, or it stands in a wrong place.
#[derive(Clone, Copy)]
enum Move<'a> {
    Goes(InColumn<'a>),
    Ends(ColumnDraft<'a>, bool),
    Stops,
}

/// The tokens left of a text, and the offset of the one before.
#[derive(Drop)]
struct Reader<'a> {
    cursor: Cursor<'a>,
    at: usize,
}

/// Where a token leads after INTEGER and what was written after it.
fn after_integer<'a>(
    name: &'a [u8],
    primary: bool,
    reference: Option<ReferenceDraft<'a>>,
    token: Token<'a>,
) -> Option<InColumn<'a>>
    ensures { option_map in_column_of result ≡ places.after_integer (tokens.in_lower_case name.now) primary (option_map reference_of reference.entry) (symbol_of token.entry.mark token.entry.bytes.now) }
{
    match token.mark {
        Mark::Hidden => Some(InColumn::Whole(ColumnDraft::Integer(name, primary, reference, true))),
        Mark::References => match reference {
            None => Some(InColumn::AfterReferences(name, primary)),
            Some(_) => None,
        },
        Mark::Primary => match reference {
            None => if primary {
                None
            } else {
                Some(InColumn::AfterPrimary(name))
            },
            Some(_) => None,
        },
        Mark::Null => match reference {
            None => if primary {
                None
            } else {
                Some(InColumn::Whole(ColumnDraft::IntegerOrNull(name, false)))
            },
            Some(_) => None,
        },
        Mark::Open => match reference {
            Some(to) => if to.says_id {
                None
            } else {
                Some(InColumn::OpensId(name, primary, to.table))
            },
            None => None,
        },
        _ => None,
    }
}

/// Where a token leads after what may stand as a column.
fn after_column<'a>(column: ColumnDraft<'a>, token: Token<'a>) -> Option<InColumn<'a>>
    ensures { option_map in_column_of result ≡ places.after_column (column_of column.entry) (symbol_of token.entry.mark token.entry.bytes.now) }
{
    match column {
        ColumnDraft::Chars(name, digits, nullable, hidden) => {
            if hidden {
                return None;
            }
            match token.mark {
                Mark::Hidden => Some(InColumn::Whole(ColumnDraft::Chars(
                    name, digits, nullable, true,
                ))),
                Mark::Null => if nullable {
                    None
                } else {
                    Some(InColumn::Whole(ColumnDraft::Chars(name, digits, true, false)))
                },
                _ => None,
            }
        }
        ColumnDraft::Integer(name, primary, reference, hidden) => {
            if hidden {
                return None;
            }
            after_integer(name, primary, reference, token)
        }
        ColumnDraft::IntegerOrNull(name, hidden) => {
            if hidden {
                return None;
            }
            match token.mark {
                Mark::Hidden => Some(InColumn::Whole(ColumnDraft::IntegerOrNull(name, true))),
                _ => None,
            }
        }
    }
}

/// Where a token leads within a column.
fn step_in<'a>(last: InColumn<'a>, token: Token<'a>) -> Option<InColumn<'a>>
    ensures { option_map in_column_of result ≡ places.step_in (in_column_of last.entry) (symbol_of token.entry.mark token.entry.bytes.now) }
{
    match last {
        InColumn::Named(name) => match token.mark {
            Mark::Char => Some(InColumn::AfterChar(name)),
            Mark::Integer => Some(InColumn::Whole(ColumnDraft::Integer(name, false, None, false))),
            _ => None,
        },
        InColumn::AfterChar(name) => match token.mark {
            Mark::Open => Some(InColumn::AfterOpen(name)),
            _ => None,
        },
        InColumn::AfterOpen(name) => match token.mark {
            Mark::Digits => Some(InColumn::AfterLength(name, token.bytes)),
            _ => None,
        },
        InColumn::AfterLength(name, digits) => match token.mark {
            Mark::Closing => Some(InColumn::Whole(ColumnDraft::Chars(name, digits, false, false))),
            _ => None,
        },
        InColumn::AfterPrimary(name) => match token.mark {
            Mark::Key => Some(InColumn::Whole(ColumnDraft::Integer(name, true, None, false))),
            _ => None,
        },
        InColumn::AfterReferences(name, primary) => match token.mark {
            Mark::Name => Some(InColumn::Whole(ColumnDraft::Integer(
                name,
                primary,
                Some(ReferenceDraft {
                    table: token.bytes,
                    says_id: false,
                }),
                false,
            ))),
            _ => None,
        },
        InColumn::OpensId(name, primary, table) => match token.mark {
            Mark::Name => if is_word(token.bytes, b"id") {
                Some(InColumn::AfterId(name, primary, table))
            } else {
                None
            },
            _ => None,
        },
        InColumn::AfterId(name, primary, table) => match token.mark {
            Mark::Closing => Some(InColumn::Whole(ColumnDraft::Integer(
                name,
                primary,
                Some(ReferenceDraft {
                    table,
                    says_id: true,
                }),
                false,
            ))),
            _ => None,
        },
        InColumn::Whole(column) => after_column(column, token),
    }
}

/// Where a token leads, or that it leads nowhere.
fn goes<'a>(next: Option<InColumn<'a>>) -> Move<'a>
    ensures { (tables : grammar.SchemaText) (name : List ℕ) (columns : List grammar.ColumnDeclaration) → place_of tables name columns result ≡ option_map (places.Within tables name columns) (option_map in_column_of next.entry) }
{
    match next {
        Some(last) => Move::Goes(last),
        None => Move::Stops,
    }
}

/// What a token does within a table's columns.
fn step_within<'a>(last: InColumn<'a>, token: Token<'a>) -> Move<'a>
    ensures { (tables : grammar.SchemaText) (name : List ℕ) (columns : List grammar.ColumnDeclaration) → place_of tables name columns result ≡ places.step_within tables name columns (in_column_of last.entry) (symbol_of token.entry.mark token.entry.bytes.now) }
{
    match last {
        InColumn::Whole(column) => match token.mark {
            Mark::Comma => Move::Ends(column, true),
            Mark::Closing => Move::Ends(column, false),
            _ => goes(after_column(column, token)),
        },
        _ => goes(step_in(last, token)),
    }
}

impl<'a> Reader<'a> {
    /// The next token; behind the end there is none.
    fn next(&mut self) -> Option<Token<'a>>
        ensures read { IfSome result (λ token. Takes self.old token self.new) }
        ensures none { IfNone result (IsOut self.old self.new) }
        ensures last { IfSome result (λ token. token.mark ≡ End → self.new.cursor ≡ []) }
        ensures fewer { IfSome result (λ _. length self.new.cursor < length self.old.cursor) }
    {
        match self.cursor.next() {
            Some(token) => {
                self.at = token.at;
                Some(token)
            }
            None => None,
        }
    }

    /// The rest of a column whose name was read, and whether a comma follows it.
    fn column(&mut self, name: &'a [u8]) -> Result<(ColumnDraft<'a>, bool), usize>
        ensures read { IfOk result (λ found. ReadsColumn self.old (tokens.in_lower_case name.now) self.new found.0 found.1) }
        ensures stops { IfErr result (λ at. StopsColumn self.old (tokens.in_lower_case name.now) at) }
        ensures fewer { OnOk result (length self.new.cursor ≤ length self.old.cursor) }
    {
        let mut last = InColumn::Named(name);
        loop {
            let Some(token) = self.next() else {
                return Err(self.at);
            };
            match step_within(last, token) {
                Move::Ends(column, more) => return Ok((column, more)),
                Move::Goes(next) => last = next,
                Move::Stops => return Err(token.at),
            }
        }
    }

    /// TABLE, behind CREATE.
    fn table_word(&mut self) -> Result<(), usize>
        ensures read { OnOk result (Leads places.AfterCreate places.AfterTable self.old self.new) }
        ensures stops { IfErr result (λ at. Stops places.AfterCreate self.old at) }
        ensures fewer { OnOk result (length self.new.cursor < length self.old.cursor) }
    {
        let Some(token) = self.next() else {
            return Err(self.at);
        };
        match token.mark {
            Mark::Table => Ok(()),
            _ => Err(token.at),
        }
    }

    /// The name of a table.
    fn table_name(&mut self) -> Result<&'a [u8], usize>
        ensures read { IfOk result (λ name. Leads places.AfterTable (named (tokens.in_lower_case name.now)) self.old self.new) }
        ensures stops { IfErr result (λ at. Stops places.AfterTable self.old at) }
        ensures fewer { OnOk result (length self.new.cursor < length self.old.cursor) }
    {
        let Some(token) = self.next() else {
            return Err(self.at);
        };
        match token.mark {
            Mark::Name => Ok(token.bytes),
            _ => Err(token.at),
        }
    }

    /// The parenthesis before the columns.
    fn parenthesis(&mut self) -> Result<(), usize>
        ensures read { OnOk result ((name : List ℕ) → Leads (named name) (opened name) self.old self.new) }
        ensures stops { IfErr result (λ at. (name : List ℕ) → Stops (named name) self.old at) }
        ensures fewer { OnOk result (length self.new.cursor < length self.old.cursor) }
    {
        let Some(token) = self.next() else {
            return Err(self.at);
        };
        match token.mark {
            Mark::Open => Ok(()),
            _ => Err(token.at),
        }
    }

    /// The name of a column.
    fn column_name(&mut self) -> Result<&'a [u8], usize>
        ensures read { IfOk result (λ name. ReadsName self.old self.new (tokens.in_lower_case name.now)) }
        ensures stops { IfErr result (λ at. StopsName self.old at) }
        ensures fewer { OnOk result (length self.new.cursor < length self.old.cursor) }
    {
        let Some(token) = self.next() else {
            return Err(self.at);
        };
        match token.mark {
            Mark::Name => Ok(token.bytes),
            _ => Err(token.at),
        }
    }

    /// The semicolon behind a table.
    fn semicolon(&mut self) -> Result<(), usize>
        ensures read { OnOk result (ReadsEnd self.old self.new) }
        ensures stops { IfErr result (λ at. StopsEnd self.old at) }
        ensures fewer { OnOk result (length self.new.cursor < length self.old.cursor) }
    {
        let Some(token) = self.next() else {
            return Err(self.at);
        };
        match token.mark {
            Mark::Semicolon => Ok(()),
            _ => Err(token.at),
        }
    }

    /// A column, and whether a comma follows it.
    fn next_column(&mut self) -> Result<(ColumnDraft<'a>, bool), usize>
        ensures read { IfOk result (λ found. ReadsNext self.old self.new found.0 found.1) }
        ensures stops { IfErr result (λ at. StopsName self.old at) }
        ensures fewer { OnOk result (length self.new.cursor < length self.old.cursor) }
    {
        let name = self.column_name()?;
        self.column(name)
    }

    /// The columns of a table behind its first, which a comma follows if there are more. Where there are more than 23,
    /// they are not kept.
    fn other_columns(&mut self, more: bool) -> Result<Option<ArrayVec<ColumnDraft<'a>, 23>>, usize>
        ensures read { IfOk result (λ kept. ReadsOthers self.old more self.new kept) }
        ensures stops { IfErr result (λ at. StopsOthers self.old more at) }
        ensures fewer { OnOk result (length self.new.cursor ≤ length self.old.cursor) }
    {
        let mut others = ArrayVec::new();
        let mut over = false;
        let mut follows = more;
        while follows {
            let (column, again) = self.next_column()?;
            if others.is_full() {
                over = true;
            } else {
                others.push(column);
            }
            follows = again;
        }
        Ok(if over { None } else { Some(others) })
    }

    /// A table behind CREATE. Where it has more than 24 columns, it is not kept.
    fn table(&mut self) -> Result<Option<TableDraft<'a>>, usize>
        ensures read { IfOk result (λ kept. ReadsTable self.old self.new kept) }
        ensures stops { IfErr result (λ at. Stops places.AfterCreate self.old at) }
        ensures fewer { OnOk result (length self.new.cursor < length self.old.cursor) }
    {
        self.table_word()?;
        let name = self.table_name()?;
        self.parenthesis()?;
        let (first, more) = self.next_column()?;
        let kept = self.other_columns(more)?;
        self.semicolon()?;
        match kept {
            Some(others) => Ok(Some(TableDraft {
                name,
                first,
                others,
            })),
            None => Ok(None),
        }
    }
}

/// The tables that a text declares, and `None` where there are more tables or columns than a schema may have. A text that
/// is not in the grammar gives the offset of its fault.
pub fn read_tables<'a>(
    text: &'a [u8],
) -> Result<Option<ArrayVec<TableDraft<'a>, MAX_TABLES>>, usize>
    ensures read { IfOk result (λ kept. ReadsText text.now kept) }
    ensures stops { IfErr result (λ at. places.schema_syntax_of text.now ≡ Err at) }
{
    let mut reader = Reader {
        cursor: Cursor::of(text),
        at: 0,
    };
    let mut tables = ArrayVec::new();
    let mut over = false;
    loop {
        let Some(token) = reader.next() else {
            return Err(reader.at);
        };
        match token.mark {
            Mark::End => return Ok(if over { None } else { Some(tables) }),
            Mark::Create => {}
            _ => return Err(token.at),
        }
        let kept = match reader.table() {
            Ok(kept) => kept,
            Err(at) => return Err(at),
        };
        match kept {
            None => over = true,
            Some(table) => {
                if tables.is_full() {
                    over = true;
                } else {
                    tables.push(table);
                }
            }
        }
    }
}

impl<'a> Default for TableDraft<'a> {
    fn default() -> Self {
        TableDraft {
            name: &[],
            first: ColumnDraft::default(),
            others: ArrayVec::new(),
        }
    }
}

impl<'a> Default for ColumnDraft<'a> {
    fn default() -> Self {
        ColumnDraft::Chars(&[], &[], false, false)
    }
}
