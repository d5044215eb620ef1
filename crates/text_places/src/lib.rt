//! Places in texts and the words that stand there, names of a schema, and what to write in the place of a word: of these the lines
//! are made that the key's program tells on standard error.
//!
//! All is made of plain values: the bytes of a text, and a schema. `docs/QUERIES.md` and `docs/DATA.md` state the rules.
#![tactic(auto)]

pub mod cures;
pub mod encodings;
pub mod names;
pub mod place;
