//! The outside of the product: where files lie, where lines go, and links to the other end of a channel.
//!
//! Each object of the outside counts its faults. The count never falls, and it stays at its last value, 2^64 - 1.
//! A call answers `Failed` exactly where the count rose in that call, or stands at its last value. What an object holds,
//! or how it moved, is told by objects in memory alone; the real ones tell nothing, and then no clause on contents claims
//! anything.
#![tactic(auto)]

mod aside;
pub mod counting;
pub mod depot;
pub mod flash;
pub mod link;
pub mod marks;
pub mod mem_depot;
pub mod mem_flash;
pub mod mem_link;
pub mod mem_sink;
mod named_pages;
pub mod peer;
pub mod reading;
pub mod room;
pub mod script;
pub mod sink;
mod slots;
pub mod taking;
pub mod told;
pub mod writing;

/// A call on the outside failed, and the object counted it as a fault.
#[derive(Clone, Copy)]
pub struct Failed;
