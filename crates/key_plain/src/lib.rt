//! The command `plain`: the answers to a script over tables that are not split, as one call.
//!
//! The schema, its tables and the script are read from a depot, and the lines of each text go to a sink in the order of
//! the texts. There is no key and no channel. `docs/SESSION.md` states the command.
#![tactic(auto)]

pub mod command;
pub mod faults;
mod printing;

pub use command::plain;
pub use faults::PlainFault;
