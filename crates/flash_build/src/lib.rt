//! Building a flash: the hidden part of a database on its pages, and then the catalog, which seals it.
//!
//! `build` writes the static files table by table, each page once: the column files, the subtree key table, the climbing
//! indexes of the hidden columns, and the id index. Indexes are made of numbers: the rank of each row, level by level, and
//! the memory of one index is given back before the next. `seal` writes, at version 2, the gate and the header that
//! counts, and then the catalog's pages from the last to page 0, so that the pages spell no catalog before all is there. `make_and_build` and `load_flash` do all of it on a new device. Where the
//! flash fails, nothing more is written.
#![tactic(auto)]

pub mod building;
pub mod catalogs;
mod columns;
pub mod faults;
mod gates;
mod id_indexes;
mod indexes;
mod keys;
mod kinds;
pub mod laws;
mod levels;
pub mod loading;
mod number_rows;
mod places;
pub mod reading;
pub mod sealing;
mod shown;
mod source;
mod subtrees;
mod tables;
mod texts;
mod values;
mod writing;

pub use building::build;
pub use catalogs::catalog_of;
pub use faults::{BuildFault, ReadFault};
pub use loading::{load_flash, make_and_build};
pub use reading::read_hidden;
pub use sealing::seal;
