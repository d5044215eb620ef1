//! The rule that a schema's text breaks. No schema stands then, so the names are those of the text.

ghost use Rattle.std.specs.Prelude.{◌≡◌};
ghost use Rattle.tree_schema.specs.Faults.{fault_of};
ghost use Rattle.key_inputs.specs.Rules.{schema_rule};

use crate::shown::Shown;
use std::fmt::{Display, Error as FormatError, Formatter, Write};
use thiserror::Error;
use tree_schema::SchemaFault;

/// A table of a schema's text, by its place and by the name that the text gives it.
#[derive(Clone, Copy, Debug, Drop)]
pub struct TableNamed {
    /// Its place, from 0.
    pub table: usize,

    /// Its name.
    pub name: Shown,
}

impl Display for TableNamed {
    fn fmt<W: Write>(&self, f: &mut Formatter<W>) -> Result<(), FormatError> {
        write!(f, "table {}", self.name)
    }
}

/// A column of a schema's text, by places and by the names that the text gives.
#[derive(Clone, Copy, Debug, Drop)]
pub struct ColumnNamed {
    /// The place of its table, from 0.
    pub table: usize,

    /// Its place in the table, from 0.
    pub column: usize,

    /// The name of its table.
    pub table_name: Shown,

    /// Its name.
    pub column_name: Shown,
}

impl Display for ColumnNamed {
    fn fmt<W: Write>(&self, f: &mut Formatter<W>) -> Result<(), FormatError> {
        write!(f, "table {}, column {}", self.table_name, self.column_name)
    }
}

/// The first rule that a schema's text breaks, and where.
#[derive(Clone, Copy, Debug, Drop, Error)]
pub enum BrokenSchema {
    /// The text is not in the grammar, from the token at this offset on.
    #[error("the text breaks the grammar at byte {at}")]
    Syntax { at: usize },

    /// The text has more, or what is longer, than a schema may have.
    #[error("there are more than 12 tables or 24 columns in one, a name has more than 32 bytes, or the length of a CHAR is not 1 to 64")]
    Limit,

    /// A table has the name of an earlier one.
    #[error("{0}: the name is given twice")]
    DuplicateTable(TableNamed),

    /// A column has the name of an earlier one of its table.
    #[error("{0}: the name is given twice")]
    DuplicateColumn(ColumnNamed),

    /// A table does not begin with its identifier, or has a second one.
    #[error("{0}: the first column must be `id INTEGER PRIMARY KEY`, and no other a primary key")]
    NoId(TableNamed),

    /// A foreign key names no table.
    #[error("{0}: it references no table")]
    UnknownTable(ColumnNamed),

    /// Two foreign keys name one table.
    #[error("{0}: two foreign keys reference it")]
    TwoParents(TableNamed),

    /// Following parents from a table returns to it.
    #[error("{0}: references lead from it back to it")]
    Cycle(TableNamed),

    /// Other than one table has no parent.
    #[error("{roots} tables are named by no foreign key, and one alone must be")]
    NotOneRoot { roots: usize },
}

impl BrokenSchema {
    /// The rule by its numbers alone.
    pub fn rule(&self) -> SchemaFault
        ensures rule { fault_of result ≡ schema_rule self.now }
    {
        match self {
            BrokenSchema::Syntax { at } => SchemaFault::Syntax { at: *at },
            BrokenSchema::Limit => SchemaFault::Limit,
            BrokenSchema::DuplicateTable(named) => SchemaFault::DuplicateName {
                table: named.table,
                column: 0,
            },
            BrokenSchema::DuplicateColumn(named) => SchemaFault::DuplicateName {
                table: named.table,
                column: named.column,
            },
            BrokenSchema::NoId(named) => SchemaFault::NoId { table: named.table },
            BrokenSchema::UnknownTable(named) => SchemaFault::UnknownTable {
                table: named.table,
                column: named.column,
            },
            BrokenSchema::TwoParents(named) => SchemaFault::TwoParents { child: named.table },
            BrokenSchema::Cycle(named) => SchemaFault::Cycle { table: named.table },
            BrokenSchema::NotOneRoot { roots } => SchemaFault::NotOneRoot { roots: *roots },
        }
    }

    /// Whether the rule is broken at one table or column, and its text begins with the name.
    pub fn is_at_a_table(&self) -> bool {
        match self {
            BrokenSchema::Syntax { .. } | BrokenSchema::Limit | BrokenSchema::NotOneRoot { .. } => {
                false
            }
            _ => true,
        }
    }
}
