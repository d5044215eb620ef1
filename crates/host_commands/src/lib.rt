//! The program of the host as one call: it reads its file, listens, tells its port, and serves one key.
//!
//! The words are read by `clap`. `docs/SESSION.md` states what the program takes and how it ends.
#![tactic(auto)]

mod app;
pub mod hosting;
pub mod port;
pub mod status;
pub mod telling;
pub mod words;

pub use hosting::host_main;
pub use status::HostStatus;
pub use telling::line_of;
pub use words::{HostWords, WordsFault, read_words};
