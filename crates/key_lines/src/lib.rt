//! The lines that a program prints for its texts: a row, the number of rows, or why there is no answer.
//!
//! `docs/QUERIES.md` states the forms of the lines. Each line goes to the sink as one piece.
#![tactic(auto)]

pub mod line;
pub mod printer;
pub mod told;

pub use printer::{Fault, Printer};
pub use told::{ToldText, ToldTexts};
