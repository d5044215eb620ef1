//! Tests of the channel: frames and asks as bytes, the key's side over hosts of every kind, the host, and a session in one
//! process.
//!
//! It has no code of its own. Each test shows what no clause of a contract says: the worked bytes of docs/CHANNEL.md, that
//! a call can succeed, and that a generic function can be called.
#![tactic(auto)]

#[cfg(test)]
mod clinic;
#[cfg(test)]
mod frames_and_asks;
#[cfg(test)]
mod host_sessions;
#[cfg(test)]
mod key_sessions;
#[cfg(test)]
mod one_process;
#[cfg(test)]
mod public_parts;
