//! The vocabulary of the product: kinds and values, their cells, and the limits.
//!
//! A value is a 64-bit integer, a text of at most 64 printable bytes, or NULL. It lies in itself, so none of the calls
//! here takes memory. A cell is the bytes of one value in a column of a kind; the byte order of the cells of one kind is
//! the order of their values.
#![tactic(auto)]

pub mod cells;
pub mod kind;
pub mod laws;
pub mod limits;
pub mod operator;
pub mod runs;
pub mod test;
pub mod text;
pub mod value;

pub use cells::{cell_width, decode_cell, encode_cell, is_of_kind, is_printable_text};
pub use kind::Kind;
pub use operator::Operator;
pub use test::Test;
pub use text::Text64;
pub use value::{Value, compare};

/// The identifier of a row: its number in its table, from 1 to the number of the table's rows.
pub type Id = u32;
