//! The candidates of a text: the identifiers of its top table's rows that are in each of several unions of ascending lists.
//!
//! They begin as all rows. A union of ranges, of one list, or of all lists of a source is taken in, one after another. What fits
//! the buffers is a union of one merge that is not run yet, and each of its lists has a buffer. Where the merge in hand would leave
//! too few buffers, the candidates are written to the flash as one list, which takes one buffer, or none until it is opened again.
//! Candidates that hold no list, unions of ranges alone, take no buffer and need not be written: they stay in hand while lists that
//! do not fit the buffers are merged into one.
//!
//! The lists of several sources are taken in as one union too. Where all fit the buffers, they are opened behind the cursors in hand one
//! source after another, before the union is one of those (`Uniting`). Otherwise the union is gathered as candidates of its own, which
//! begin as no row (`Candidates::none`) and are united with the lists of one source after another (`unite` in place of `end`): these are
//! opened or merged as beside any candidates, and what is united so far is written as one list where it takes too many buffers. The
//! candidates before stand as a list meanwhile, in an area that is not written (`Scratch::grouped`).
#![tactic(auto)]

pub mod candidates;
pub mod closing;
pub mod few;
pub mod joining;
pub mod opening;
pub mod reduced;
pub mod reducing;
pub mod scratch;
pub mod spared;
pub mod uniting;

pub use candidates::Candidates;
pub use closing::{Closed, Closing};
pub use joining::Joining;
pub use opening::Opening;
pub use reducing::Reducing;
pub use scratch::Scratch;
pub use uniting::Uniting;
