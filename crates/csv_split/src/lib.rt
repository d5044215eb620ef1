//! Tables from CSV files, column by column.
//!
//! A table's rows stand in columns of flat cells: an INTEGER takes 8 bytes a row, a CHAR(n) n bytes, either one more where NULL
//! may stand beside it, and the identifier, which is the row's number, nothing. A clause sees a table as the list of its rows,
//! the identifier first, and tables as the database. `docs/DATA.md` states what a file may hold and which fault is told.
#![tactic(auto)]

pub mod cells;
pub mod faults;
mod fields;
pub mod flat_cells;
pub mod growing;
mod header;
pub mod image;
pub mod laws;
pub mod loading;
pub mod part;
pub mod parts;
mod reading;
pub mod records;
pub mod references;
pub mod rejoining;
mod rows;
mod schema_columns;
pub mod splitting;
pub mod table;
pub mod tables;
pub mod texts;

pub use cells::Cells;
pub use faults::{LoadFault, Place};
pub use flat_cells::FlatCells;
pub use growing::push_row;
pub use image::visible_image;
pub use loading::{read_table, read_tables};
pub use part::Part;
pub use parts::{Hidden, Public};
pub use references::check_references;
pub use rejoining::rejoin;
pub use splitting::split;
pub use table::Table;
pub use tables::Tables;
pub use texts::Texts;
