//! The command `query`: a session of the key with a host, over a flash that was loaded, as one call.
//!
//! The script and the catalog are read before the first move on the link, and all memory is taken before it. What each
//! text then prints is the session's. `docs/SESSION.md` and `docs/FLASH.md` state what is read, in which order.

pub mod command;
pub mod failures;
mod opening;
mod public_pages;

pub use command::query;
pub use failures::QueryFailure;
