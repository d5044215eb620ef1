//! The inputs of a command, read from a depot: a schema, the files of its tables, and a script.
//!
//! Each file is judged before the next one is read, and the first broken rule is told. `docs/DATA.md` and
//! `docs/QUERIES.md` state the rules.
#![tactic(auto)]

pub mod broken_schema;
pub mod broken_table;
pub mod faults;
mod field_values;
pub mod file_lines;
pub mod laws;
pub mod names;
mod naming;
pub mod opening;
mod record_search;
mod schema_names;
pub mod script;
pub mod shown;
pub mod whole;

pub use broken_schema::{BrokenSchema, ColumnNamed, TableNamed};
pub use broken_table::{BrokenTable, FieldNamed, RecordNamed};
pub use faults::{InputFault, OpenFault};
pub use file_lines::line_of_record;
pub use opening::{Input, open_tables};
pub use script::open_script;
pub use shown::{Front, Shown};
pub use whole::{Opened, open_inputs};
