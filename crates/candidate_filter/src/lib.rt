//! Candidates sifted by a filter of the identifiers of a list, that of a reply or of other candidates: the filter is filled first, and
//! then the candidates are written as one list that lead to a row which it may have.
//!
//! Every row of the list passes, and maybe others: so what is written has still to be looked up in the reply. Each step makes at
//! most eight calls of the flash, and goes on where the last one ended.
#![tactic(auto)]

pub mod filling;
pub mod laws;
pub mod sifting;

pub use filling::Filling;
pub use sifting::Sifting;
