//! Tests of what indexes find on a device in memory that was loaded with a small database.
//!
//! It has no code of its own. What climbing indexes, id indexes and subtree key tables give is compared as text.
#![tactic(auto)]

#[cfg(test)]
mod damage;
#[cfg(test)]
mod device;
#[cfg(test)]
mod found;
#[cfg(test)]
mod ids;
#[cfg(test)]
mod level_files;
#[cfg(test)]
mod lines;
#[cfg(test)]
mod rows;
#[cfg(test)]
mod shapes;
#[cfg(test)]
mod values;
