//! Laws of sessions that need no code: whatever host and link there are, of what becomes of each text and how long the
//! channel can become; of sessions with an honest host; and of those whose host is in the key's own process.
#![tactic(auto)]

pub mod bounds;
pub mod honest_sessions;
pub mod local;
pub mod text_cases;
pub mod text_ends;
