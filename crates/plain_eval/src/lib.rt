//! The plain answer of a query over unsplit tables, row by row, and as a whole.
//!
//! An answer follows the foreign keys from each row of the top table; a law of the definitions says that this is the
//! plain meaning. `answer_plain` alone takes memory.
#![tactic(auto)]

pub mod answer;
mod rows;
pub mod ways;
pub mod whole;

pub use answer::{Answer, Row};
pub use whole::{answer_plain, count_plain};
