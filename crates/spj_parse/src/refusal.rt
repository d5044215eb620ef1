//! Why a text is refused.

use thiserror::Error;

/// Why a text means no query: the first rule that it breaks. Each rule is tested over the whole text before the next.
#[derive(Clone, Copy, Debug, Drop, Error)]
pub enum Refusal {
    /// The text is not in the grammar, from the token at this offset on.
    #[error("the text breaks the grammar at byte {at}")]
    Syntax { at: usize },

    /// The text, a name in it, or one of its lists is too long.
    #[error("the text is beyond the limits of a query")]
    Limit,

    /// A name stands for a table, and there is no such table.
    #[error("a table is unknown")]
    UnknownTable,

    /// A column's table is not in FROM or lacks it, or no FROM table has it.
    #[error("a column is unknown")]
    UnknownColumn,

    /// A table stands twice in FROM, or several FROM tables have a column that stands without its table.
    #[error("a table stands twice, or a column stands for several")]
    Ambiguous,

    /// A literal is of another kind than its column.
    #[error("a literal is of another kind than its column")]
    KindMismatch,

    /// An integer is outside 64 bits, or a text is longer than its column's texts.
    #[error("a literal does not fit its column")]
    BadLiteral,

    /// Two columns are compared that are no foreign key and the identifier of its child, there is no one top table, or
    /// another FROM table is not joined with its parent.
    #[error("the tables are not linked by their foreign keys")]
    NotLinked,

    /// A group has columns of several tables.
    #[error("a group has columns of several tables")]
    MixedTables,
}
