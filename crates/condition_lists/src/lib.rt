//! The conditions of a query as lists of identifiers of its top table.
//!
//! Each test of an identifier or of a hidden column that is a group by itself is a term, but for IS NOT NULL of a column that cannot be
//! NULL, which all rows meet; a group of several members is none for now. So is each reply to an ask with conditions, of the top table
//! or of one that is linked by the plain form which unites lists: the lists that an index has at the top table's level for the entries
//! between bounds, for identifiers or for the rows of a reply. A row of the top table meets a term exactly where it stands in one of its
//! lists. In a list of terms each says whether the next one is of its group, of which a row has to meet one. The same terms at a table
//! below, whose rows they are met by then, are made of those at the top table. None of the calls takes memory.
#![tactic(auto)]

pub mod bounds;
pub mod costs;
pub mod laws;
pub mod levels;
pub mod term;
pub mod terms;

pub use bounds::{Between, Bounds, bounds_of};
pub use levels::{levels_at, terms_at};
pub use term::{GroupTerm, Term};
pub use terms::{key_terms, reply_term, terms_of};
