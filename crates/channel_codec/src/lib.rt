//! The frames of the channel and the asks in them, as bytes, both ways.
//!
//! A frame has a header of 8 bytes and a payload of at most 2,040: the kind, the version 2, the payload's length in 2
//! bytes and the serial in 4, most significant byte first. An ask is the payload of an ASK frame. `docs/CHANNEL.md`
//! states the rules.
#![tactic(auto)]

pub mod ask;
pub mod asking;
pub mod bytes;
pub mod frame;
pub mod reading;
