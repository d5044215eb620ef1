//! A text as its rules are tested, and what is found wrong with it.

use crate::meanings::tables_of;
use crate::parts::{Part, parts_of};
use std::alloc::{AllocError, Global};
use tree_schema::Schema;

/// A text that is in the grammar, and the schema that it was read with.
#[derive(Drop)]
pub(crate) struct Read<'a> {
    pub(crate) alloc: Global,

    /// The schema.
    pub(crate) schema: &'a Schema,

    /// The text's parts.
    pub(crate) parts: Vec<Part<'a>>,

    /// The tables of FROM that the schema has.
    pub(crate) tables: Vec<usize>,
}

impl<'a> Read<'a> {
    /// A text, read with a schema.
    pub(crate) fn of(
        alloc: Global,
        schema: &'a Schema,
        text: &'a [u8],
    ) -> Result<Read<'a>, AllocError> {
        let parts = parts_of(alloc, text)?;
        let tables = tables_of(alloc, schema, &parts)?;
        Ok(Read {
            alloc,
            schema,
            parts,
            tables,
        })
    }

    /// Whether it has a condition.
    pub(crate) fn has_conditions(&self) -> bool {
        for part in &self.parts {
            match part {
                Part::Star(_) | Part::Selected(_) | Part::Table(_) => {}
                _ => return true,
            }
        }
        false
    }
}

/// What is wrong with a text, and where in it.
#[derive(Drop)]
pub(crate) struct Found {
    /// The offset in the text.
    pub(crate) at: usize,

    /// What is wrong, and what to write.
    pub(crate) told: String,
}

impl Found {
    /// This, found at this offset.
    pub(crate) fn at(at: usize, told: String) -> Option<Found> {
        Some(Found { at, told })
    }
}
