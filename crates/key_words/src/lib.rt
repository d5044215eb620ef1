//! The words of the key's program, read by `clap`.
//!
//! A command has options of one value each. What the words are read as is a function of the words alone, and so is
//! whether they are refused. `docs/SESSION.md` lists the commands and their options.
#![tactic(auto)]

pub mod app;
pub mod examples;
pub mod plans;
pub mod reading;
pub mod refusing;
pub mod shown;
pub mod values;
pub mod words;

pub use reading::read_words;
pub use shown::ShownWord;
pub use words::{
    AuditWords, GenWords, KeyWords, LoadWords, LocalWords, MAX_ITEMS, MAX_NUMBERS, MigrateWords,
    PlainWords, QueryWords, UsageFault, WordsFault,
};
