//! The asks of a script, one at a time: what the key asks the host for each text that means a query.
//!
//! A text has one ask for each table of its query that has a group with a visible column or a selected visible column, in the
//! schema's order. Texts are read as their asks come due. None of the calls here takes memory.
#![tactic(auto)]

pub mod queries;
pub mod scripts;
