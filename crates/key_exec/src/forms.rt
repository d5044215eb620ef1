//! The candidates of a query, linked with the replies of the tables below the top one.
//!
//! `Linking` gathers the candidates by all terms first. Each lower table whose reply is no term is linked by itself then, in the order of
//! the tables. By a cross form its set is gathered: the rows of the reply that meet the terms on the table and below it. By a form that
//! does not unite lists a filter is filled with the identifiers of the reply or of the set, and the candidates are written as one list
//! that lead to a row which it may have; by one that does, the lists of the set's identifiers are united, and the candidates
//! intersected with the union. At the end there is a merge that gives the candidates, ascending. Each row of the answer is one of
//! them, and maybe others: so each is still to be looked up in the replies, and tested by the groups that are left.

pub mod crossing;
pub mod going;
pub mod link;
pub mod linking;
pub mod passing;
pub mod stage;
pub mod uniting;

pub use link::Link;
pub use linking::Linking;
pub use stage::LinkStage;
