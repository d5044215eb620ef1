//! Tests of merges, of reductions and of candidates that are sifted, over a device in memory, against sets.
//!
//! Lists of identifiers come from a seeded generator; what a merge, a reduction or a sifting gives is compared with a table of the rows.
#![tactic(auto)]

pub mod areas;
pub mod codes;
pub mod device;
#[cfg(test)]
mod merges;
pub mod pieces;
#[cfg(test)]
mod reducing;
pub mod reductions;
pub mod rows;
#[cfg(test)]
mod sifting;
pub mod unions;
#[cfg(test)]
mod uniting;
