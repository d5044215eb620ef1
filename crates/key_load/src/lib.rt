//! The command `load`: a key's flash and the host's file from a schema and CSV files, as one call.
//!
//! The hidden part goes to the flash, the visible part to a file of a depot. The catalog, by which a flash is known to be
//! whole, is written last. `docs/DATA.md` and `docs/FLASH.md` state what is read and what is written. The making of both ends' files is a
//! call of its own, for a catalog and parts that come from elsewhere.
#![tactic(auto)]

pub mod command;
pub mod failures;
pub mod line;
pub mod making;
pub mod preparing;

pub use command::load;
pub use failures::LoadFailure;
pub use line::rows_of;
pub use making::make_both;
pub use preparing::{Prepared, blocks_of};
