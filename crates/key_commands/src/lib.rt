//! The commands of the key as one call: its words choose the command.
//!
//! The words are read by `clap`. The commands `local`, `query` and `gen`, which hold a session, have a folder each; `plain`, `load`,
//! `audit` and `migrate` are crates of their own, which stand beside sessions. `docs/SESSION.md` states what each command does.
#![tactic(auto)]

pub mod command;
pub mod ending;
pub mod generate;
pub mod local;
pub mod query;

pub use command::key_main;
pub use ending::{Ended, PlainRun};
