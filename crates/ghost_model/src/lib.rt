//! The definitions that every promise of the product cites, and the laws over them.
//!
//! The definitions stand in `specs/`, one module a subject. Each law is the contract of a function with an empty body;
//! so are the worked examples, which the check computes.
#![tactic(auto)]

pub mod catalogs;
pub mod cells;
pub mod channel;
pub mod flash;
pub mod gaps;
pub mod generated;
pub mod groups;
pub mod layout;
pub mod meaning;
pub mod non_members;
pub mod query;
pub mod query_work;
pub mod recorded;
pub mod runs;
pub mod schema;
pub mod session_laws;
pub mod sessions;
pub mod tokens;
