//! How an audit ends.

ghost use Rattle.std.specs.Prelude.{◌≡◌};
ghost use Rattle.key_audit.specs.Renaming.{as_failure};

use channel_audit::Due;
use key_inputs::{InputFault, OpenFault};
use thiserror::Error;

/// What is said of a journal each of whose moves is the one that was due.
#[derive(Clone, Copy, Drop)]
pub struct Audited {
    /// How many moves it has.
    pub moves: u32,

    /// Whether the last of them is the close.
    pub closed: bool,
}

/// Why no journal was found to be proper.
#[derive(Clone, Copy, Debug, Drop, Error)]
pub enum AuditFailure {
    /// There was no memory for the script.
    #[error("out of memory")]
    NoMemory,

    /// A file could not be read.
    #[error("a file could not be read")]
    Depot,

    /// A rule of the script is broken.
    #[error("{0}")]
    Input(InputFault),

    /// The line could not be printed.
    #[error("the line could not be printed")]
    Sink,

    /// The visible file begins with no catalog.
    #[error("the visible file begins with no catalog")]
    NotTheFile,

    /// A move is not the one that was due.
    #[error("move {at} is {told}, where {due} was due")]
    Wrong {
        /// The number of the move, from 1.
        at: u32,
        /// The move.
        told: Due,
        /// The move that was due.
        due: Due,
    },

    /// A line of the journal tells no move.
    #[error("line {line} of the journal tells no move")]
    BadJournal {
        /// The number of the line, from 1.
        line: u32,
    },
}

/// What stands for a fault of the script: want of memory for want of memory alone.
pub(crate) fn failure_of(fault: OpenFault) -> AuditFailure
    ensures { result ≡ as_failure fault }
{
    match fault {
        OpenFault::NoMemory => AuditFailure::NoMemory,
        OpenFault::Depot => AuditFailure::Depot,
        OpenFault::Input(fault) => AuditFailure::Input(fault),
    }
}
