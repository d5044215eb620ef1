//! Why an input was not read.

ghost use Rattle.std.specs.Prelude.{◌≡◌};
ghost use Rattle.key_inputs.specs.Renaming.{as_fault};

use crate::broken_schema::BrokenSchema;
use crate::broken_table::BrokenTable;
use edge_traits::reading::ReadFault;
use thiserror::Error;

/// A broken rule of an input.
#[derive(Clone, Copy, Debug, Drop, Error)]
pub enum InputFault {
    /// The schema's file is too long.
    #[error("the schema has more than 65536 bytes")]
    SchemaBytes,

    /// The schema breaks a rule.
    #[error("the schema: {0}")]
    Schema(BrokenSchema),

    /// A table's file breaks a rule.
    #[error("{0}")]
    Table(BrokenTable),

    /// The script's file is too long.
    #[error("the script has more than 65536 bytes")]
    ScriptBytes,

    /// The script has too many texts.
    #[error("the script has more than 64 texts")]
    ScriptTexts,
}

/// Why an input was not read.
#[derive(Clone, Copy, Debug, Drop, Error)]
pub enum OpenFault {
    /// There was no memory.
    #[error("out of memory")]
    NoMemory,

    /// The depot failed.
    #[error("a file could not be read")]
    Depot,

    /// A rule is broken.
    #[error("{0}")]
    Input(InputFault),
}

/// What stands for the fault of a file's reading, where `too_long` is the rule that too long a file breaks: want of memory
/// for want of memory alone.
pub(crate) fn unread(fault: ReadFault, too_long: InputFault) -> OpenFault
    ensures { result ≡ as_fault too_long fault }
{
    match fault {
        ReadFault::Depot => OpenFault::Depot,
        ReadFault::NoMemory => OpenFault::NoMemory,
        ReadFault::TooLong => OpenFault::Input(too_long),
    }
}
