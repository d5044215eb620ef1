//! The lines of a refused text.

use crate::broken_groups::mixed;
use crate::broken_links::unlinked;
use crate::broken_literals::{LiteralRule, broken_literal};
use crate::broken_names::{ambiguous, unknown_column, unknown_table};
use crate::found::{Found, Read};
use crate::limits::{over_limit, too_long};
use crate::texts::{TextAt, text_of};
use edge_real::file_name::FileName;
use spj_parse::Refusal;
use std::alloc::{AllocError, Global};
use text_places::cures::Stop;
use text_places::encodings::encoding_cure;
use text_places::place::{Place, Word, place_in, token_from};
use tree_schema::{Mark, Schema};

/// A text that was refused.
#[derive(Clone, Copy)]
pub struct RefusedText<'a, 's> {
    /// The name of the script's file.
    pub file: &'a str,

    /// The script.
    pub script: &'a [u8],

    /// The schema that the text was read with, where it is at hand.
    pub schema: Option<&'s Schema>,

    /// The number of the text, from 1.
    pub text: u32,

    /// Why it was refused.
    pub refusal: Refusal,
}

/// The lines, without the end of the last one, that tell of a refused text what is wrong, where in its script, and what to
/// write, and that show the place.
pub fn refused_lines(alloc: Global, refused: &RefusedText<'_, '_>) -> Result<String, AllocError> {
    let Some(found) = text_of(refused.script, refused.text) else {
        return lost_line(alloc, refused);
    };
    if let Refusal::Syntax { at } = refused.refusal {
        return syntax_lines(alloc, refused, &found, at);
    }
    let at = token_from(found.text, 0).at;
    match found_in(alloc, refused, found.text)? {
        Some(wrong) => lines_at(alloc, refused, &found, wrong.at.max(at), &wrong.told),
        None => lines_at(alloc, refused, &found, at, remedy(&refused.refusal)),
    }
}

/// The lines that tell this of an offset of a text.
fn lines_at(
    alloc: Global,
    refused: &RefusedText<'_, '_>,
    found: &TextAt<'_>,
    at: usize,
    told: &str,
) -> Result<String, AllocError> {
    let name = FileName::of(refused.file);
    let place = Place::of(refused.script, found.at.saturating_add(at));
    let numbers = place.numbers();
    let number = refused.text;
    format!(in alloc; "{name}, {numbers}: text {number}: {told}\n{place}")
}

/// The lines of a text that is not in the grammar, from the token at this offset on.
fn syntax_lines(
    alloc: Global,
    refused: &RefusedText<'_, '_>,
    found: &TextAt<'_>,
    at: usize,
) -> Result<String, AllocError> {
    let name = FileName::of(refused.file);
    let number = refused.text;
    let stop = Stop::of(found.text, at);
    let token = stop.token;
    let shown = place_in(found.text, &token);
    let place = Place::of(refused.script, found.at.saturating_add(shown));
    let numbers = place.numbers();
    if let Some(cure) = encoding_cure(refused.script) {
        return format!(in alloc; "{name}, line 1, column 1: text {number}: {cure}");
    }
    if token.mark == Mark::End {
        return format!(in alloc;
            "{name}, {numbers}: text {number} cannot end here: {stop}\n{place}"
        );
    }
    let word = Word(token);
    format!(in alloc; "{name}, {numbers}: text {number} cannot go on with {word}: {stop}\n{place}")
}

/// What is wrong with a text that is in the grammar, where its schema is at hand.
fn found_in(
    alloc: Global,
    refused: &RefusedText<'_, '_>,
    text: &[u8],
) -> Result<Option<Found>, AllocError> {
    let Some(schema) = refused.schema else {
        return Ok(None);
    };
    if let Refusal::Limit = refused.refusal {
        let found = too_long(alloc, text)?;
        if found.is_some() {
            return Ok(found);
        }
    }
    let read = Read::of(alloc, schema, text)?;
    match refused.refusal {
        Refusal::Syntax { .. } => Ok(None),
        Refusal::Limit => over_limit(&read),
        Refusal::UnknownTable => unknown_table(&read),
        Refusal::UnknownColumn => unknown_column(&read),
        Refusal::Ambiguous => ambiguous(&read),
        Refusal::KindMismatch => broken_literal(&read, LiteralRule::Kind),
        Refusal::BadLiteral => broken_literal(&read, LiteralRule::Size),
        Refusal::NotLinked => unlinked(&read),
        Refusal::MixedTables => mixed(&read),
    }
}

/// The line of a text that is not at hand.
fn lost_line(alloc: Global, refused: &RefusedText<'_, '_>) -> Result<String, AllocError> {
    let number = refused.text;
    match refused.refusal {
        Refusal::Syntax { at } => {
            format!(in alloc; "text {number} cannot go on as it does at byte {at}")
        }
        refusal => format!(in alloc; "text {number}: {}", remedy(&refusal)),
    }
}

/// What is wrong with a text and what to write, where neither its schema nor its place is at hand.
fn remedy(refusal: &Refusal) -> &'static str {
    match refusal {
        Refusal::Syntax { .. } => "it is no text of the grammar",
        Refusal::Limit => {
            "it is too large: write at most 4096 bytes, 12 tables, 32 columns, 16 conditions (BETWEEN is two, IN one for each value, a join none), and 32 bytes a name"
        }
        Refusal::UnknownTable => {
            "it names a table that is not there: write behind FROM, and before a point, the names of the schema's tables"
        }
        Refusal::UnknownColumn => {
            "it names a column that its tables do not have: write a column of a table in FROM, or that table in FROM too"
        }
        Refusal::Ambiguous => {
            "it has a table twice in FROM, or a column that several of its tables have: write each table once, and such a column with its table, as visit.id"
        }
        Refusal::KindMismatch => {
            "it compares a number with a text: write a number, as 5, for an INTEGER column and a text, as 'flu', for a CHAR column"
        }
        Refusal::BadLiteral => {
            "it has a value that its column cannot have: write a number within 64 bits, or a text no longer than the column's n"
        }
        Refusal::NotLinked => {
            "it does not link its tables: write, for each table in FROM that another one there references, a condition as doc = doctor.id, and compare no other two columns"
        }
        Refusal::MixedTables => {
            "between parentheses it tests columns of two tables: write there tests of one table, or a text for each table"
        }
    }
}
