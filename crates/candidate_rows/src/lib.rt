//! Rows of a query's top table, one after another: whether a row is in the answer, and the values of its line, in steps of one
//! call on the flash at most.
//!
//! A plan says what each row is judged by; it is made once a query, for all rows of the top table or for those that are known to
//! meet the conditions that the indexes have the rows of. The work on a row makes a test, takes a value or goes on to the rows below
//! at each step: it reads each foreign key once at most or, for such rows, one record of the subtree key table. The groups that are
//! left are tested last, on the values that were taken. None of the calls takes memory.
#![tactic(auto)]

mod cells;
pub mod costs;
mod hops;
mod keys;
mod known;
pub mod laws;
mod left;
pub mod next;
mod numbers;
pub mod plan;
mod reading;
mod row;
mod testing;
pub mod values;
pub mod work;

pub use plan::RowPlan;
pub use work::{RowWork, Stage};
