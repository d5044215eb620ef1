//! What is wrong with the literals of a text.

use crate::found::{Found, Read};
use crate::meanings::meanings;
use crate::parts::{Column, Literal, Part};
use ghost_base::Kind;
use std::alloc::AllocError;
use text_places::names::{Field, KindOf, kind_of, table_name};
use tree_schema::Mark;

/// A rule of literals.
#[derive(Clone, Copy)]
pub(crate) enum LiteralRule {
    /// Each is of its column's kind.
    Kind,

    /// Each fits its column.
    Size,
}

/// The first literal of the text that breaks a rule.
pub(crate) fn broken_literal(
    text: &Read<'_>,
    rule: LiteralRule,
) -> Result<Option<Found>, AllocError> {
    for part in &text.parts {
        let found = broken_in(text, rule, part)?;
        if found.is_some() {
            return Ok(found);
        }
    }
    Ok(None)
}

/// The first literal of a part that breaks a rule.
fn broken_in(
    text: &Read<'_>,
    rule: LiteralRule,
    part: &Part<'_>,
) -> Result<Option<Found>, AllocError> {
    let [left, _] = part.columns();
    let Some(column) = left else {
        return Ok(None);
    };
    let fields = meanings(text.alloc, text.schema, &text.tables, &column)?;
    let Some(field) = fields.first() else {
        return Ok(None);
    };
    let [low, high] = part.literals();
    match fault(text, rule, *field, &column, low)? {
        Some(found) => Ok(Some(found)),
        None => fault(text, rule, *field, &column, high),
    }
}

/// That a literal breaks a rule, where it does.
fn fault(
    text: &Read<'_>,
    rule: LiteralRule,
    field: Field,
    column: &Column<'_>,
    literal: Option<Literal<'_>>,
) -> Result<Option<Found>, AllocError> {
    let Some(literal) = literal else {
        return Ok(None);
    };
    let told = match rule {
        LiteralRule::Kind => other_kind(text, field, column, &literal)?,
        LiteralRule::Size => too_large(text, field, column, &literal)?,
    };
    Ok(told.map(|told| Found {
        at: literal.at(),
        told,
    }))
}

/// That a literal is of another kind than its column, where it is.
fn other_kind(
    text: &Read<'_>,
    field: Field,
    column: &Column<'_>,
    literal: &Literal<'_>,
) -> Result<Option<String>, AllocError> {
    let schema = text.schema;
    let kind = KindOf { schema, field };
    let told = match (
        kind_of(schema, field).plain(),
        literal.token.mark == Mark::Quoted,
    ) {
        (Kind::Integer, true) => match schema.child(field.table, field.column) {
            None => format!(in text.alloc;
                "{column} is {kind}, and {literal} a text: write a whole number without quotes"
            )?,
            Some(child) => a_text_for_a_key(text, child, column, literal)?,
        },
        (Kind::Chars(_), false) => {
            format!(in text.alloc; "{column} is {kind}, and {literal} a number: write '{literal}'")?
        }
        _ => return Ok(None),
    };
    Ok(Some(told))
}

/// That a text stands beside a foreign key, which has the ids of a table.
fn a_text_for_a_key(
    text: &Read<'_>,
    child: usize,
    column: &Column<'_>,
    literal: &Literal<'_>,
) -> Result<String, AllocError> {
    let table = table_name(text.schema, child);
    format!(in text.alloc;
        "{column} has the ids of {table}, and {literal} is a text: write an id, or AND {column} = {table}.id with {table} in FROM, and compare a column of {table}"
    )
}

/// That a literal does not fit its column, where it does not.
fn too_large(
    text: &Read<'_>,
    field: Field,
    column: &Column<'_>,
    literal: &Literal<'_>,
) -> Result<Option<String>, AllocError> {
    let schema = text.schema;
    let kind = KindOf { schema, field };
    let told = match kind_of(schema, field).plain() {
        Kind::Integer if !is_within(literal) => {
            format!(in text.alloc;
                "{literal} is outside 64 bits: write a number from -9223372036854775808 to 9223372036854775807"
            )?
        }
        Kind::Chars(most) if length_of(literal.token.bytes) > usize::from(most) => {
            let length = length_of(literal.token.bytes);
            format!(in text.alloc;
                "{column} is {kind}, and {literal} has {length} bytes: write at most {most}"
            )?
        }
        _ => return Ok(None),
    };
    Ok(Some(told))
}

/// Whether a number is within 64 bits.
fn is_within(literal: &Literal<'_>) -> bool {
    let Ok(digits) = std::str::from_utf8(literal.token.bytes) else {
        return false;
    };
    let Ok(number) = digits.parse::<u64>() else {
        return false;
    };
    match literal.sign {
        Some(sign) if sign.mark == Mark::Minus => number <= 1 << 63,
        _ => number < 1 << 63,
    }
}

/// The bytes of a text literal's value, where two quotes inside stand for one.
fn length_of(quoted: &[u8]) -> usize {
    let quotes = quoted.iter().filter(|byte| **byte == b'\'').count();
    let doubled = quotes.saturating_sub(2) / 2;
    quoted.len().saturating_sub(2).saturating_sub(doubled)
}
