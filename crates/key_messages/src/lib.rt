//! What the key's program tells on standard error of a command that did not end well: what is wrong, in which file and where, and what
//! to do; and of refused words those of the command.
//!
//! What is told of refused texts and of broken files beside it lies in `text_messages` and `file_messages`. `docs/SESSION.md` states
//! what the lines say.
#![tactic(auto)]

mod audits;
pub mod ended;
mod generated;
mod input_lines;
mod migrations;
mod refusing;
mod sessions;
pub mod telling;
pub mod usage;

pub use ended::{broken_rule, ended_lines};
pub use telling::line_of;
pub use usage::usage_lines;
