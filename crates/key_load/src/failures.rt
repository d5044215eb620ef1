//! Why the command ended early.

ghost use Rattle.std.specs.Prelude.{◌≡◌};
ghost use Rattle.key_load.specs.Renaming.{as_failure};

use key_inputs::{InputFault, OpenFault};
use thiserror::Error;

/// Why the command ended before its line was printed.
#[derive(Clone, Copy, Debug, Drop, Error)]
pub enum LoadFailure {
    /// There was no memory for what the files hold.
    #[error("out of memory")]
    NoMemory,

    /// A file could not be read, or the host's file could not be written.
    #[error("a file could not be read or written")]
    Depot,

    /// A rule of an input is broken.
    #[error("{0}")]
    Input(InputFault),

    /// The flash was to have fewer pages than the tables need.
    #[error("the flash would have {have} pages and needs {need}")]
    TooSmall {
        /// The pages that the tables need.
        need: u32,
        /// The pages that the flash was to have.
        have: u32,
    },

    /// The flash could not be made or written.
    #[error("the flash failed")]
    Flash,

    /// The line could not be printed.
    #[error("the line could not be printed")]
    Sink,
}

/// What stands for a fault of the inputs: want of memory for want of memory alone.
pub(crate) fn failure_of(fault: OpenFault) -> LoadFailure
    ensures { result ≡ as_failure fault }
{
    match fault {
        OpenFault::NoMemory => LoadFailure::NoMemory,
        OpenFault::Depot => LoadFailure::Depot,
        OpenFault::Input(fault) => LoadFailure::Input(fault),
    }
}
