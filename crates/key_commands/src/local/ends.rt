//! How the command ended.

ghost use Rattle.std.specs.Prelude.{◌≡◌};
ghost use Rattle.key_commands.specs.local.Renaming.{as_failure};

use key_inputs::{InputFault, OpenFault};
use key_lines::ToldTexts;
use key_session::Damage;
use thiserror::Error;

/// How a session ended: the first of these that is so, in the order `Sink`, `Depot`, `Flash`, `Damaged`, `Ok`.
#[derive(Clone, Copy, Debug, Drop, Error)]
pub enum LocalEnd {
    /// All lines were printed, and the journal was written where one was to be kept.
    #[error("done")]
    Ok,

    /// A line could not be printed.
    #[error("the lines could not be printed")]
    Sink,

    /// A line of the journal could not be written.
    #[error("the journal could not be written")]
    Depot,

    /// The flash failed in a text.
    #[error("the flash failed")]
    Flash,

    /// A slot of the flash has no value which may stand there.
    #[error("the flash is damaged: {0}")]
    Damaged(Damage),
}

/// A session that was held.
#[derive(Clone, Copy, Drop)]
pub struct LocalRun {
    /// How it ended.
    pub end: LocalEnd,

    /// Of each text the rule by which it is refused, and the rows that were given.
    pub told: ToldTexts,
}

/// Why there was no session: nothing was printed, and no move was made.
#[derive(Clone, Copy, Debug, Drop, Error)]
pub enum LocalFailure {
    /// There was no memory for what the files hold.
    #[error("out of memory")]
    NoMemory,

    /// A file could not be read, or the journal's file could not be begun.
    #[error("a file could not be read or written")]
    Depot,

    /// A rule of an input is broken.
    #[error("{0}")]
    Input(InputFault),

    /// The flash could not be made or written.
    #[error("the flash failed")]
    Flash,
}

/// What stands for a fault of the inputs: want of memory for want of memory alone.
pub(crate) fn failure_of(fault: OpenFault) -> LocalFailure
    ensures { result ≡ as_failure fault }
{
    match fault {
        OpenFault::NoMemory => LocalFailure::NoMemory,
        OpenFault::Depot => LocalFailure::Depot,
        OpenFault::Input(fault) => LocalFailure::Input(fault),
    }
}
