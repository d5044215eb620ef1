//! The host over a depot's visible file.
//!
//! A host keeps the file's name, its catalog and where the rows of each table begin. It reads the file through once when
//! it begins, and then answers each ask from the file itself: the conditions are tested and the cells are copied as bytes.
//! `docs/CHANNEL.md` states the rules.
#![tactic(auto)]

mod begin;
mod checking;
mod columns;
mod filling;
mod form;
mod gathering;
pub mod host;
pub mod laws;
mod piece;
mod places;
pub mod reading;
mod reply;
mod saying;
pub mod serving;
pub mod session;
mod stage;
mod turning;

pub use host::Host;
pub use reading::{ReadPublicFault, read_public};
pub use serving::BeginFault;
pub use session::Served;
