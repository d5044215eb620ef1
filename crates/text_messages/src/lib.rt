//! What the key's program tells on standard error of the refused texts of a script: of each what is wrong, where, and what to write,
//! and at the end how many they are.
//!
//! All is made of plain values: the bytes of a script, the schema that its texts were read with, and what was told of each.
//! `docs/QUERIES.md` states the rules, `docs/SESSION.md` what the lines say.
#![tactic(auto)]

mod broken_groups;
mod broken_links;
mod broken_literals;
mod broken_names;
mod found;
mod limits;
mod links;
mod meanings;
mod parts;
pub mod refused;
pub mod script;
pub mod tally;
mod texts;

pub use refused::{RefusedText, refused_lines};
pub use script::{ScriptRead, script_lines};
pub use tally::RefusedCount;
