//! Query texts: the texts of a script, and the query that a text means over a schema.
//!
//! A query lies in itself, and none of the calls here takes memory. A text is read in passes over its tokens: whether it
//! is in the grammar, then one rule after another, each over the whole text, then the query.
#![tactic(auto)]

mod conditions;
mod drafts;
pub mod groups;
pub mod laws;
mod limits;
mod links;
mod literals;
mod names;
pub mod query;
mod reading;
pub mod refusal;
mod resolve;
mod rules;
mod spots;
mod syntax;
pub mod texts;
mod walk;

pub use groups::{GroupSplit, split_group};
pub use names::{column_named, table_named};
pub use query::{Field, Join, Member, Query};
pub use reading::read_query;
pub use refusal::Refusal;
pub use texts::{Texts, text_count};
