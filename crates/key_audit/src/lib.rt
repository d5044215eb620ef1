//! The command `audit`: whether a recorded journal is one that a key may have left, as one call.
//!
//! The catalog is read from the head of the visible file, then the script, then the journal line by line. No key is needed:
//! what the next move is goes by these files alone. `docs/SESSION.md` states the command, `docs/CHANNEL.md` the lines.
#![tactic(auto)]

pub mod command;
pub mod failures;
mod head;
mod journal;
mod judging;
mod lines;
mod telling;
mod window;

pub use command::audit;
pub use failures::{AuditFailure, Audited};
