//! How the command ended.

ghost use Rattle.std.specs.Prelude.{◌≡◌, true};
ghost use Rattle.key_commands.specs.generate.Ends.{EndsAs, IsUnmadeBy, is_held, is_sink};
ghost use Rattle.key_commands.specs.declared.local.ends.LocalFailure.TheVariants as failure;

use crate::local::{LocalEnd, LocalFailure};
use key_lines::ToldTexts;
use key_session::Damage;
use thiserror::Error;

/// How a session over a drawn clinic ended, and the printing after it: the first of these that is so, in the order `Sink`, `Flash`,
/// `Damaged`, `Ok`.
#[derive(Clone, Copy, Debug, Drop, Error)]
pub enum GenEnd {
    /// All texts were answered, and all lines were printed.
    #[error("done")]
    Ok,

    /// A line could not be printed.
    #[error("the lines could not be printed")]
    Sink,

    /// The flash failed in a text.
    #[error("the flash failed")]
    Flash,

    /// A slot of the flash has no value which may stand there.
    #[error("the flash is damaged: {0}")]
    Damaged(Damage),
}

/// A session that was held and counted.
#[derive(Clone, Copy, Drop)]
pub struct GenRun {
    /// How it ended.
    pub end: GenEnd,

    /// Of each text the rows that were given. None is refused.
    pub told: ToldTexts,
}

/// Why there was no session: nothing was printed, and no move was made.
#[derive(Clone, Copy, Debug, Drop, Error)]
pub enum GenFailure {
    /// There was no memory for the clinic.
    #[error("out of memory")]
    NoMemory,

    /// The flash could not be made or written.
    #[error("the flash failed")]
    Flash,
}

/// Why the making of the flash failed.
pub(crate) fn failure_of(fault: LocalFailure) -> GenFailure
    requires making { IsUnmadeBy fault }
    ensures memory { result ≡ GenFailure.NoMemory → fault ≡ failure.NoMemory }
    ensures flash { result ≡ GenFailure.Flash → fault ≡ failure.Flash }
{
    match fault {
        LocalFailure::NoMemory => GenFailure::NoMemory,
        LocalFailure::Flash => GenFailure::Flash,
        LocalFailure::Depot => unreachable!(),
        LocalFailure::Input(_) => unreachable!(),
    }
}

/// How the command ended, by how its session ended and by whether a line could not be printed.
pub(crate) fn end_of(session: LocalEnd, failed: bool) -> GenEnd
    requires held { is_held session ≡ true }
    ensures sink { is_sink result ≡ failed }
    ensures session { EndsAs result session }
{
    if failed {
        return GenEnd::Sink;
    }
    match session {
        LocalEnd::Ok => GenEnd::Ok,
        LocalEnd::Flash => GenEnd::Flash,
        LocalEnd::Damaged(damage) => GenEnd::Damaged(damage),
        LocalEnd::Sink => unreachable!(),
        LocalEnd::Depot => unreachable!(),
    }
}
