//! Why the command ended early.

ghost use Rattle.std.specs.Prelude.{◌≡◌};
ghost use Rattle.key_plain.specs.Renaming.{as_fault};

use key_inputs::{InputFault, OpenFault};
use thiserror::Error;

/// Why the command ended before all lines were printed.
#[derive(Clone, Copy, Debug, Drop, Error)]
pub enum PlainFault {
    /// There was no memory for what the files hold.
    #[error("out of memory")]
    NoMemory,

    /// A file could not be read.
    #[error("a file could not be read")]
    Depot,

    /// A rule of an input is broken.
    #[error("{0}")]
    Input(InputFault),

    /// A line could not be printed.
    #[error("the lines could not be printed")]
    Sink,
}

/// What stands for a fault of the inputs: want of memory for want of memory alone.
pub(crate) fn fault_of(fault: OpenFault) -> PlainFault
    ensures { result ≡ as_fault fault }
{
    match fault {
        OpenFault::NoMemory => PlainFault::NoMemory,
        OpenFault::Depot => PlainFault::Depot,
        OpenFault::Input(fault) => PlainFault::Input(fault),
    }
}
