//! How the program of the host ends.

ghost use Rattle.std.specs.Prelude.{◌≡◌};
ghost use Rattle.host_commands.specs.Statuses as statuses;

use crate::words::WordsFault;
use host_exec::{BeginFault, Served};
use thiserror::Error;

/// How the program ended.
#[derive(Clone, Copy, Debug, PartialEq, Eq, Drop, Error)]
pub enum HostStatus {
    /// The key said farewell, and the file could always be read.
    #[error("done")]
    Ok,

    /// The words are refused.
    #[error("usage: host_program\n    --visible FILE     the host's file, as key_program load made it\n    --at ADDRESS:PORT  where to listen, as 127.0.0.1:4711; port 0 stands for a free one")]
    Usage,

    /// There was no memory for the words or the name of the file. It comes before the host listens.
    #[error("out of memory: free some, and start the host again")]
    NoMemory,

    /// The port could not be printed. No key was accepted.
    #[error("the port could not be printed: see that the output takes it")]
    Sink,

    /// The file could not be read. In a session the ask was refused, and the session went on.
    #[error("the visible file could not be read: see that it is there")]
    Depot,

    /// A move on the link failed, or the key's bytes ended before its farewell.
    #[error("the link failed: give a free port of this machine, or start host and key again")]
    Link,

    /// The file is no visible image.
    #[error("the file is no visible image: give the one that `key_program load` made")]
    BadVisibleFile,

    /// A frame of the key did not belong where it came.
    #[error("a frame of kind {kind} does not belong where it came, behind {at} bytes: see that the key is of the same version")]
    BadRequest {
        /// Its first byte.
        kind: u8,
        /// How many bytes the key sent before it.
        at: u64,
    },
}

impl HostStatus {
    /// The exit code of the program.
    pub fn exit_code(&self) -> u8
        ensures code { result ≡ statuses.exit_code self.now }
    {
        match self {
            HostStatus::Ok => 0,
            HostStatus::Usage => 2,
            HostStatus::NoMemory => 3,
            HostStatus::Depot => 5,
            HostStatus::Link => 7,
            HostStatus::Sink => 9,
            HostStatus::BadVisibleFile => 14,
            HostStatus::BadRequest { .. } => 15,
        }
    }
}

/// The status of a host whose words were not read.
pub(crate) fn not_read(fault: WordsFault) -> HostStatus
    ensures status { result ≡ statuses.not_read fault }
{
    match fault {
        WordsFault::NoMemory => HostStatus::NoMemory,
        WordsFault::Usage => HostStatus::Usage,
    }
}

/// The status of a host that was not begun.
pub(crate) fn not_begun(fault: &BeginFault) -> HostStatus
    ensures status { result ≡ statuses.not_begun fault.now }
{
    match fault {
        BeginFault::Depot => HostStatus::Depot,
        BeginFault::BadVisibleFile => HostStatus::BadVisibleFile,
        BeginFault::NoMemory => HostStatus::NoMemory,
    }
}

/// The status of a host whose session ended.
pub(crate) fn after_session(served: &Served) -> HostStatus
    ensures status { result ≡ statuses.after_session served.now }
{
    match served {
        Served::Bye => HostStatus::Ok,
        Served::Depot => HostStatus::Depot,
        Served::Link => HostStatus::Link,
        Served::BadRequest { kind, at } => HostStatus::BadRequest {
            kind: *kind,
            at: *at,
        },
    }
}
