//! Where everything lies on the flash: the runs of the files and areas of a catalog, and the pages that a device must have.
//!
//! Pages 0 to 63 hold the catalog's bytes; at version 2 pages 64 to 255 are the gate's and the headers'. Behind these public pages the
//! static files follow one another, each on pages of its own, table by table: column files, the subtree key table, the climbing
//! indexes, the id index. The static part ends at a block. Then come the two halves of the spool and the scratch areas, six at
//! version 1 and eight at version 2, and at version 2 two areas for appended rows of the root, each area of whole blocks. `Layout`
//! tells them all; it is made once from a catalog. None of the calls here takes memory, and each has its answer for every catalog.
#![tactic(auto)]

mod adding;
pub mod areas;
mod columns;
pub mod files;
mod indexes;
pub mod layout;
pub mod limits;
mod places;
pub mod public;
pub mod runs;
mod tables;

pub use columns::is_hidden;
pub use files::{column_file, need};
pub use layout::Layout;
pub use public::{public_pages, scratch_count};
pub use runs::{pages, run_pages};
