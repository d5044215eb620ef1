//! Why a text declares no schema.

use thiserror::Error;

/// Why a text declares no schema: the first rule that it breaks, and of this rule the first place. Tables and columns are
/// given by their places. The fault of a table's name has column 0.
#[derive(Clone, Copy, Debug, Drop, Error)]
pub enum SchemaFault {
    /// The text is not in the grammar, from the token at this offset on.
    #[error("the text breaks the grammar at byte {at}")]
    Syntax { at: usize },

    /// There are too many tables or columns, a name is too long, or a CHAR has a length that it may not have.
    #[error("the text is beyond the limits of a schema")]
    Limit,

    /// A name stands twice.
    #[error("column {column} of table {table} repeats a name")]
    DuplicateName { table: usize, column: usize },

    /// A table does not begin with its identifier, or has a second one.
    #[error("table {table} does not begin with its one identifier")]
    NoId { table: usize },

    /// A foreign key names no table.
    #[error("column {column} of table {table} references no table")]
    UnknownTable { table: usize, column: usize },

    /// Two foreign keys name one table.
    #[error("table {child} is referenced twice")]
    TwoParents { child: usize },

    /// Following parents from a table returns to it.
    #[error("following parents from table {table} returns to it")]
    Cycle { table: usize },

    /// Other than one table has no parent.
    #[error("{roots} tables have no parent")]
    NotOneRoot { roots: usize },
}
