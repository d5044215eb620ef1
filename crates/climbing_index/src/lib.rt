//! Climbing indexes: for each value of a hidden column, or each identifier of a table, the lists of rows that lead to it,
//! at the table itself and at every table above it.
//!
//! An index has entries in the order of their values. `find` tells those between two bounds, and `list` where the list of
//! an entry stands at a level. A slot that is out of its range is damaged. None of the calls takes memory.
#![tactic(auto)]

pub mod damage;
pub mod directory;
pub mod find;
pub mod ids;
pub mod index;
pub mod laws;
pub mod search;

pub use directory::Directory;
pub use index::{ClimbingIndex, IdIndex};
pub use search::{Bound, Group, Search, Step};
