//! A session of the key with a host: it asks what the texts of a script need, move by move, and tells their answers.
//!
//! A session makes one step at a time: a move of the channel, or a slice of the work on the text that comes next, once the asks
//! of it are over. The pace says how many slices may come between two moves. No ask of a text is sent before the text two before
//! it was told, so the replies of two texts are kept at most: of the text at hand, and of the one before it.
//!
//! Rows of a reply go to the spool on the flash as they come. It has two halves: a text has that of its number's parity, so the
//! replies of a text go over those of the text two before it.
//!
//! The frame at hand lies in a page buffer, and so does the page of the spool that is being written. The first step takes the two,
//! and the step gives them back after which nothing more is due.
#![tactic(auto)]

mod ask;
pub mod buffers;
mod counts;
mod fits;
pub mod laws;
pub mod options;
pub mod pace;
mod refusing;
pub mod replies;
pub mod session;
pub mod tally;
mod teller;
mod telling;
mod texts;

pub use buffers::Buffers;
pub use key_exec::Damage;
pub use options::Options;
pub use pace::Due;
pub use replies::Replies;
pub use session::{Session, run_session};
pub use tally::{SessionStatus, Tally};
