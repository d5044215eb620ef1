//! The command `local`: a session of a key with a host in one process, over the files that the words name, as one call.
//!
//! The schema, its tables and the script are read from a depot. The hidden part of the tables goes to a flash that is made
//! for it, the visible part to a host in the process, and the key then asks this host as it would ask one elsewhere. Whichever
//! calls on a flash that tells its pages fail, a text has the lines of its meaning, or some rows from the front of its answer and
//! the word of the flash.
//! `docs/SESSION.md` states the command.

pub mod command;
pub mod ends;
pub(crate) mod laws;
pub(crate) mod making;
pub(crate) mod preparing;
pub(crate) mod running;

pub use command::local;
pub use ends::{LocalEnd, LocalFailure, LocalRun};
