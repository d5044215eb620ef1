//! Why no session was begun.

ghost use Rattle.std.specs.Prelude.{◌≡◌};
ghost use Rattle.key_commands.specs.query.Renaming.{as_failure};

use key_inputs::{InputFault, OpenFault};
use thiserror::Error;

/// Why no session was begun.
#[derive(Clone, Copy, Debug, Drop, Error)]
pub enum QueryFailure {
    /// There was no memory for the script, for what is known of the flash, or for the page buffers.
    #[error("out of memory")]
    NoMemory,

    /// The script could not be read.
    #[error("the script could not be read")]
    Depot,

    /// A rule of the script is broken.
    #[error("{0}")]
    Input(InputFault),

    /// The flash could not be opened, or one of its public pages could not be read.
    #[error("the flash failed")]
    Flash,

    /// The public pages of the flash begin with no catalog of the version that is made.
    #[error("the flash has no catalog of this version: load makes one")]
    NotAKey,

    /// The flash has fewer pages than its catalog needs.
    #[error("the flash has {have} pages and needs {need}")]
    TooSmall {
        /// The pages that the catalog needs.
        need: u32,
        /// The pages that the flash has.
        have: u32,
    },
}

/// What stands for a fault of the script: want of memory for want of memory alone.
pub(crate) fn failure_of(fault: OpenFault) -> QueryFailure
    ensures { result ≡ as_failure fault }
{
    match fault {
        OpenFault::NoMemory => QueryFailure::NoMemory,
        OpenFault::Depot => QueryFailure::Depot,
        OpenFault::Input(fault) => QueryFailure::Input(fault),
    }
}
