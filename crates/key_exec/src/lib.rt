//! The answer of a query by the key, row by row of its top table, from the hidden columns, their indexes and the replies, which stand
//! on the flash; and the lines of one text of a session.
//!
//! A row of the top table leads along the foreign keys, which are hidden, to one row of each table below. It is printed
//! where the row of each asked table stands in its reply and each group with a hidden column or an identifier holds. By the plan
//! that scans each row of the top table is looked at. By those that go by the indexes the rows that meet the groups whose rows these
//! have are gathered first, in scratch behind the spool, and linked there with the replies that conditions were sent for, by united
//! lists or by filters (`forms`); those that are left alone are looked at. The other groups are tested on each row that is looked at.
//! No call here takes memory. `docs/SESSION.md` states the rules.
//!
//! A refused text has the line of its refusal, a text whose asks did not all come to their end the line of what ended them,
//! a text whose replies could not be written that of the flash's fault, and every other text the rows of its answer and their
//! number, or a fault of the key's flash behind some of them. They are
//! told in steps of one line, or of a few calls on the flash, at most.
#![tactic(auto)]

pub mod damage;
pub mod examples;
pub mod forms;
pub mod job;
pub mod laws;
mod lending;
pub mod telling;
pub mod text;
mod walking;

pub use damage::Damage;
pub use job::{Job, Turn};
pub use telling::Telling;
pub use text::Told;
