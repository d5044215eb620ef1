//! Runs of records on a flash device: one record by its number, a list of ascending identifiers, and a run that is written.
//!
//! A reader has the lease of a page buffer, and a page that stands there is not read again, so that neighbouring records of
//! one page cost one read. A writer gathers the records of a page in such a buffer and writes it when it is full.
#![tactic(auto)]

pub mod cells;
pub mod code_filler;
pub mod codes;
pub mod cursor;
pub mod fault;
pub mod filler;
pub mod filling;
pub mod fixed;
pub mod load;
pub mod places;
mod standing;
pub mod writer;

pub use ghost_base::runs::{ListRef, Run, per_page};
