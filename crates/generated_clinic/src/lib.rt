//! A clinic of any size, drawn from a number: the text of its schema, its three files, and a script of up to forty texts.
//!
//! Every value follows from its row's number and the seed, and each text from its number alone, as the definition in
//! `ghost_model` says. The files break no rule of loading, and each text means a query.
#![tactic(auto)]

mod clinic;
mod drawing;
mod files;
pub mod laws;
mod lines;
mod scripts;

pub use clinic::Generated;
pub use drawing::{generated, schema_text};
