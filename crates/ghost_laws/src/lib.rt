//! Laws of the definitions that more than one crate stands on and that need no code.
#![tactic(auto)]

pub mod followed;
pub mod scans;
pub mod selected;
