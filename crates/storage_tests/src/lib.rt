//! Tests of the outside and of the flash: objects in memory, real files and connections, and what stands on which page.
//!
//! It has no code of its own. Each test shows what no clause of a contract says: that a call can succeed, that a generic
//! function can be called, what real objects do, and the worked rows of docs/FLASH.md.
#![tactic(auto)]

#[cfg(test)]
mod buffers;
#[cfg(test)]
mod clinic;
#[cfg(test)]
mod devices;
#[cfg(test)]
mod leases;
#[cfg(test)]
mod lines_and_files;
#[cfg(test)]
mod links;
#[cfg(test)]
mod no_writes;
#[cfg(test)]
mod nullable_columns;
#[cfg(test)]
mod places;
#[cfg(test)]
mod ranks;
#[cfg(test)]
mod runs;
