//! The files of hidden columns, read row by row: the value in the slot of a row, tested for what its column may have.
//!
//! A file has one cell for each row. A slot whose bytes spell no value of the column's kind, or whose foreign key is not
//! the identifier of a row, is damaged. None of the calls takes memory.
#![tactic(auto)]

pub mod file;
pub mod laws;
mod range;

pub use file::ColumnFile;
