//! The command `migrate`: a new flash and a new host's file from old ones, as one call.
//!
//! The old flash may be of either version, the new one is of the version that is made. The rows stay; columns that are named may be NULL
//! afterwards. `docs/DATA.md` and `docs/FLASH.md` state what is read and what is written.
#![tactic(auto)]

pub mod command;
pub mod examples;
pub mod failures;
mod items;
mod line;
mod opening;
mod parts;
mod preparing;
pub mod public_pages;
mod reading;
mod writing;

pub use command::migrate;
pub use failures::MigrateFailure;
