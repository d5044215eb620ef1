//! The candidates of a query: the rows of a table that meet all terms of it, gathered term by term from the indexes and the replies. The
//! table is the top one, or one below it, of which the rows are a set that rows of the top table have to lead to.
//!
//! `Gathering` takes the terms in one after another: ranges of identifiers and the reply of the table at once, the entries of a
//! hidden column after a search, and the lists of entries and of replies through `Taking`. Where the lists in hand leave too few
//! buffers, the candidates are written to scratch as one list. At the end it answers a merge that gives the candidates, ascending, or
//! the candidates themselves.
//!
//! `searching` has what finds the entries of a condition and takes the lists of a term into the candidates, `known` what is known of
//! the pages, and `cross_forms` the rows of a lower table that a cross form goes on with.
#![tactic(auto)]

pub mod beginning;
pub mod cross_forms;
pub mod gathering;
pub mod going;
pub mod groups;
pub mod known;
pub mod lists;
pub mod places;
pub mod searching;
pub mod stage;

pub use gathering::Gathering;
pub use stage::Stage;
