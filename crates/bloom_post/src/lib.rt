//! A Bloom filter over the page buffers of a pool: a set of bits in which each identifier that was added has set three.
//!
//! It never denies an identifier that was added, and may have others. It reads and writes nothing but the buffers that it has
//! leased, and takes no memory.
#![tactic(auto)]

mod bits;
pub mod filter;
pub mod laws;

pub use filter::Filter;
