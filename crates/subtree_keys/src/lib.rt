//! Subtree key tables, read row by row: the rows of all tables below that a row leads to, side by side in one record.
//!
//! A slot with an identifier of no row of its table is damaged. None of the calls takes memory.
#![tactic(auto)]

mod identifiers;
pub mod laws;
pub mod table;

pub use table::{Ids, SubtreeTable};
