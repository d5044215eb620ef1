//! The rows of replies on the flash, found by their identifiers.
//!
//! The spool has two halves, each with an area for each table. The replies of a text lie in the half of its number's parity.
//! A row is written as it comes, its identifier in four bytes and the asked cells; the identifiers of a reply ascend.
#![tactic(auto)]

pub mod area;
mod cells;
pub mod find;
pub mod half;
pub mod hand;
mod judging;
pub mod laws;
pub mod reply;
pub mod row;
pub mod search;
pub mod sides;
pub mod spool;

pub use half::Half;
pub use reply::Reply;
pub use row::SpoolRow;
pub use spool::Spool;
