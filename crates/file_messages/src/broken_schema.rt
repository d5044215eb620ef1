//! The lines of a schema that breaks a rule.

use crate::schema_cures::schema_cure;
use crate::schema_tokens::broken_token;
use edge_real::file_name::FileName;
use key_inputs::BrokenSchema;
use std::alloc::{AllocError, Global};
use text_places::cures::Stop;
use text_places::encodings::encoding_cure;
use text_places::place::{Place, Word, place_in};

/// A schema that breaks a rule.
#[derive(Clone, Copy)]
pub struct BrokenText<'a> {
    /// The name of its file.
    pub file: &'a str,

    /// Its bytes.
    pub schema: &'a [u8],

    /// The rule that it breaks.
    pub broken: BrokenSchema,
}

/// The lines, without the end of the last one, that show where a schema breaks a rule, if that is one place, and tell what
/// to write, where the rule itself does not say it.
pub fn schema_lines(alloc: Global, text: &BrokenText<'_>) -> Result<String, AllocError> {
    let name = FileName::of(text.file);
    let mut lines = String::new(alloc);
    if let Some(token) = broken_token(text.schema, &text.broken) {
        let place = Place::of(text.schema, place_in(text.schema, &token));
        let numbers = place.numbers();
        let word = Word(token);
        let shown = format!(in alloc; "{name}, {numbers}, at {word}:\n{place}")?;
        lines.push_str(&shown)?;
    }
    if let Some(cure) = cure_of(text) {
        let end = if lines.is_empty() { "" } else { "\n" };
        let told = format!(in alloc; "{end}{name}: {cure}")?;
        lines.push_str(&told)?;
    }
    Ok(lines)
}

/// What to write in place of what breaks the rule, where the rule itself does not say it.
fn cure_of(text: &BrokenText<'_>) -> Option<&'static str> {
    match text.broken {
        BrokenSchema::Syntax { at } => match encoding_cure(text.schema) {
            Some(cure) => Some(cure),
            None => Some(schema_cure(&Stop::of(text.schema, at))),
        },
        BrokenSchema::UnknownTable(_) => {
            Some("write CREATE TABLE for this table too, or the name of one that is there")
        }
        BrokenSchema::TwoParents(_) => Some(
            "leave out REFERENCES in all but one of the columns that name this table: the tables must form a tree",
        ),
        BrokenSchema::Cycle(_) => {
            Some("leave out a REFERENCES that leads back: the tables must form a tree")
        }
        BrokenSchema::NotOneRoot { roots: 0 } => {
            Some("there is no table in it: write CREATE TABLE for each one")
        }
        BrokenSchema::NotOneRoot { .. } => {
            Some("REFERENCES of another table must name each table but one")
        }
        _ => None,
    }
}
