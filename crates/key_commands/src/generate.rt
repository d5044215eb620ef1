//! The command `gen`: a session of a key with a host in one process, over a clinic that is drawn from a number, as one call.
//!
//! No file is read or written. The clinic's files and the script over it are made in memory and read as any files are, the rows of each
//! text's plain answer are counted, and the session is held as `local` holds it, its lines printed nowhere. Then a line counts each text,
//! and one the moves of the session. `docs/SESSION.md` states the command.

pub mod command;
mod counting;
mod drawing;
pub mod ends;
mod nowhere;
mod preparing;
mod printing;
mod running;

pub use command::generate;
pub use ends::{GenEnd, GenFailure, GenRun};
