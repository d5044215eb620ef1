//! What a merge gives, written to the flash as one ascending list.
//!
//! A merge reads its lists through a buffer each; what it gives is put into a run in an area of its own, through one buffer
//! more. The list stands there whole at the end, and the lists that are read stay as they were. The work goes on in steps of at
//! most eight calls of the flash each.
//!
//! Several such lists can lie one behind another in a run. Their places, where each begins and how many identifiers it has,
//! are records of eight bytes, and are read back in order. `Groups` writes them: it takes lists into a group, merges the group
//! behind the lists of the groups before it, and begins an empty one.
//!
//! A source gives lists one after another; a reader of places is one. `Pass` takes all lists of a source in groups, and `Reduce`
//! makes passes, each over the lists of the one before it, until one list is left, which stands where it was asked for. However
//! many lists there are, no more leases are out than there is room for: three, and one for each list of a group.
#![tactic(auto)]

pub mod counting;
pub mod examples;
pub mod groups;
pub mod lists;
pub mod merging;
pub mod passes;
pub mod placed;
pub mod places;
pub mod reduce;
pub mod source;
pub mod spared;
pub mod works;

pub use groups::Groups;
pub use merging::MergeInto;
pub use passes::Pass;
pub use places::PlaceReader;
pub use reduce::{Areas, Reduce};
pub use source::ListSource;
pub use works::{Work, go_on};
