//! The files of one index: its directory and its level files.
//!
//! An index has entries, and at each of its levels a list of rows for each entry. The directory has a record for each entry:
//! the entry's own bytes, and for each level where its list begins and how many rows it has. A level file has the
//! identifiers of all lists of its level as gaps, one list after another. All of it is written from the ranks of the rows at each
//! level, each page once: for a climbing index and for an id index alike.
#![tactic(auto)]

mod directory;
pub mod faults;
pub mod laws;
mod levels;
mod records;
pub mod writing;

pub use directory::NoHeads;
pub use faults::IndexFault;
pub use writing::write_lists;
