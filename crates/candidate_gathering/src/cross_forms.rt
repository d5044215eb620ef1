//! The rows of a lower table that a cross form goes on with: those of its reply that meet the terms on the table or below it.
//!
//! `Crossing` writes the candidates of the top table as one list first, so that they hold no buffer. Then it gathers the rows of the
//! lower table that meet all its terms, and writes them as one list too: the set. The candidates stand in an area of scratch that the
//! gathering spares. At the end both are lists, and no buffer is held; or no row of the table meets all its terms.

pub mod crossing;
pub mod going;
pub mod laws;
pub mod stage;

pub use crossing::Crossing;
pub use stage::CrossStage;
