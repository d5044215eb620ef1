//! Schemas, the texts that declare them, and catalogs.
//!
//! A schema lies in itself: at most 12 tables of at most 24 columns, with names of at most 32 bytes. None of the calls
//! here takes memory.
#![tactic(auto)]

mod building;
mod canonical;
pub mod catalog;
pub mod catalog_bytes;
mod catalog_reading;
pub mod faults;
mod nulls;
mod reading;
mod rules;
pub mod schema;
mod syntax;
pub mod tokens;
mod trees;
pub mod version;
mod window;

pub use catalog::Catalog;
pub use catalog_bytes::{catalog_len, catalog_part, is_catalog_part};
pub use catalog_reading::read_catalog;
pub use faults::SchemaFault;
pub use reading::read_schema;
pub use schema::{Column, Schema, Table};
pub use tokens::{Cursor, Mark, Token};
pub use version::Version;
