//! Links of the key in its own process: to a host that answers there, one that keeps the journal of another link, and one
//! that counts its moves and bytes.
#![tactic(auto)]

pub mod counted;
pub mod counts;
mod handing;
pub mod host_link;
mod journal;
pub mod journaled;
pub mod laws;
mod speech;

pub use counted::Counted;
pub use counts::Counts;
pub use host_link::HostLink;
pub use journaled::Journaled;
