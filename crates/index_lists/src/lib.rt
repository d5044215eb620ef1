//! The lists of indexes, in memory.
//!
//! An index has an entry for each value of a column, ascending, and at each of its levels a list of rows for each entry. All
//! of it is told by numbers: the rank of a row, which is the number of its value, and at a table above the rank of the row
//! that a foreign key names. So one index takes four bytes for each row of a level, and four more for the rows of its own table
//! in order; while these are put in order sixteen more, and while those of a level above are four and four for each entry.
#![tactic(auto)]

pub mod column;
pub mod laws;
pub mod levels;
pub mod lists;
pub mod ordering;
pub mod ranking;

pub use column::{Column, Numbers, head_of};
pub use levels::{places_referred, ranks_above};
pub use lists::{list_starts, rows_by_rank};
pub use ordering::{order_numbers, order_rows};
pub use ranking::{Ranking, rank_column, rank_numbers, rank_ordered};
