//! The plans by which a key answers a text from its hidden columns and the replies, and the forms by which a plan links the rows
//! of replies with those of hidden columns.
//!
//! A plan says by which files the key goes. It is nothing that the host hears of, and each plan gives the same rows.
#![tactic(auto)]

pub mod form;
pub mod laws;
pub mod plan;

pub use form::{Form, choose, has_visible_condition};
pub use plan::Plan;
