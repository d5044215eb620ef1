//! What the key's program tells on standard error of a broken schema and a broken table's file: what is wrong, where, and what to write.
//!
//! All is made of plain values: the bytes of a schema or of a first line, and the rule that is broken. `docs/DATA.md` states the
//! rules, `docs/SESSION.md` what the lines say.
#![tactic(auto)]

pub mod broken_schema;
mod header;
pub mod inputs;
mod schema_cures;
mod schema_tokens;
pub mod table_lines;

pub use broken_schema::{BrokenText, schema_lines};
pub use inputs::{FilesRead, broken_lines};
pub use table_lines::{BrokenFile, table_line};
