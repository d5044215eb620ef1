//! The ascending intersection of unions of ascending identifiers, each read once from lists on flash or counted from a range.
//!
//! A merge has cursors, and unions of them in order. What it gives is in each union, that is ahead of one of its cursors, and
//! comes once, in ascending order. It goes on in steps of at most one call of the flash each.
#![tactic(auto)]

pub mod cursor;
pub mod merge;
mod reach;
mod round;
pub mod spared;

pub use cursor::Cursor;
pub use merge::{MAX_CURSORS, Merge, Step};
