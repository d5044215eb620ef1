//! Lists of identifiers that an index tells, one after another, as a source to be merged.
//!
//! `EntryLists` gives the lists that entries of an index have at a level, `ReplyLists` those of the identifiers of a reply.
#![tactic(auto)]

pub mod entries;
mod giving;
pub mod laws;
mod listed;
mod replied;
pub mod replies;

pub use entries::EntryLists;
pub use replies::ReplyLists;
