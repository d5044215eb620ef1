//! Whether the moves of a recorded journal are those that a key makes, line by line.
//!
//! An audit needs the catalog and the script alone: by them and by the answers before it each move of the key is decided, and the
//! pump gives it. A line is read, and its move is compared with the one that is due; a pump makes that move on a link that answers
//! as the line tells. So the next move is computed here by nothing but the pump. `docs/CHANNEL.md` states the lines.
#![tactic(auto)]

pub mod audit;
mod digits;
mod hexadecimal;
pub mod laws;
pub mod line;
mod replay;
pub mod words;

pub use audit::{Audit, Due, Step};
