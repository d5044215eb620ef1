//! The union of a key's group: the rows of a table that meet some of its members.
//!
//! A member is a test that the key makes by itself, of an identifier or of a hidden column. `GroupUnion` takes the members in one after
//! another, beside nothing else: the ranges of the table's own identifiers at once, the entries of a hidden column after a search, and
//! lists through `Taking`. Where the lists in hand leave too few buffers, the union so far is written as one list. At the end all of it
//! stands as one list.

pub mod beginning;
pub mod going;
pub mod group_union;
pub mod laws;

pub use group_union::GroupUnion;
