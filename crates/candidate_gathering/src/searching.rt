//! What finds the rows of a query's top table by the indexes.
//!
//! `EntrySearch` finds the entries of a condition on a hidden column, `TermLists` are the lists of a term, as a source of lists, and
//! `Taking` takes them into candidates.

pub mod laws;
pub mod search;
pub mod taking;
pub mod term_lists;

pub use search::EntrySearch;
pub use taking::Taking;
pub use term_lists::TermLists;
