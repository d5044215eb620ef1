//! What is told of a session that did not end well, or was not begun.

use crate::input_lines::{InputNames, input_line};
use crate::telling::NO_MEMORY;
use key_commands::local::{LocalEnd, LocalFailure};
use key_commands::query::QueryFailure;
use key_session::{Damage, SessionStatus};
use key_words::{LocalWords, QueryWords};
use std::alloc::{AllocError, Global};

/// What is told where lines could not be printed.
pub(crate) const NO_OUTPUT: &str = "the lines could not be printed: see that the output takes them";

/// What to do where the device that `local` or `gen` made is damaged.
pub(crate) const ASK_ELSEWHERE: &str = "ask again over a device of another name";

/// What to do where a loaded device is damaged.
const LOAD_ELSEWHERE: &str = "load the tables again under another name, and ask over that";

/// The line of a damaged slot, with what to do.
fn damage_line(
    alloc: Global,
    flash: &str,
    damage: &Damage,
    remedy: &str,
) -> Result<String, AllocError> {
    format!(in alloc;
        "{flash} is damaged, and the texts that met it have the word damaged: {damage}; {remedy}"
    )
}

/// The line of a flash that failed in a session.
fn flash_line(alloc: Global, flash: &str) -> Result<String, AllocError> {
    format!(in alloc;
        "{flash} could not always be read or written, and the texts that met that have the word flash, while the others are answered; see that the device can be read and written, and ask again"
    )
}

/// The line of `local` without a session.
pub(crate) fn local_failure_line(
    alloc: Global,
    words: &LocalWords<'_>,
    fault: &LocalFailure,
) -> Result<String, AllocError> {
    let LocalWords {
        schema,
        tables,
        flash,
        script,
        ..
    } = *words;
    match fault {
        LocalFailure::NoMemory => String::from_str(alloc, NO_MEMORY),
        LocalFailure::Depot => {
            let journal = words.journal.unwrap_or("the journal");
            format!(in alloc;
                "a file could not be read or written: see that {schema}, {script} and the file of each table in {tables} are there, and that {journal} can be written"
            )
        }
        LocalFailure::Input(broken) => {
            let names = InputNames {
                schema,
                tables,
                script,
            };
            input_line(alloc, &names, broken)
        }
        LocalFailure::Flash => {
            format!(in alloc;
                "{flash} could not be made or written: see that its folder is there and has room"
            )
        }
    }
}

/// The line of `local` after its session.
pub(crate) fn local_end_line(
    alloc: Global,
    words: &LocalWords<'_>,
    end: &LocalEnd,
) -> Result<String, AllocError> {
    match end {
        LocalEnd::Ok => String::from_str(alloc, "done"),
        LocalEnd::Sink => String::from_str(alloc, NO_OUTPUT),
        LocalEnd::Depot => {
            let journal = words.journal.unwrap_or("");
            format!(in alloc;
                "{journal} could not be written to its end: see that its folder has room, and ask again"
            )
        }
        LocalEnd::Flash => flash_line(alloc, words.flash),
        LocalEnd::Damaged(damage) => damage_line(alloc, words.flash, damage, ASK_ELSEWHERE),
    }
}

/// The line of `query` without a session.
pub(crate) fn query_failure_line(
    alloc: Global,
    words: &QueryWords<'_>,
    fault: &QueryFailure,
) -> Result<String, AllocError> {
    let QueryWords { flash, script, .. } = *words;
    match fault {
        QueryFailure::NoMemory => String::from_str(alloc, NO_MEMORY),
        QueryFailure::Depot => {
            format!(in alloc; "{script} could not be read: see that it is there")
        }
        QueryFailure::Input(broken) => {
            let names = InputNames {
                schema: "",
                tables: "",
                script,
            };
            input_line(alloc, &names, broken)
        }
        QueryFailure::Flash => {
            format!(in alloc;
                "{flash} could not be read: see that it is there, and whole as key_program load made it"
            )
        }
        QueryFailure::NotAKey => {
            format!(in alloc;
                "{flash} is no loaded flash, or was loaded by an earlier version of this program, and stays as it is: give the file that key_program load made, or load the tables again under another name"
            )
        }
        QueryFailure::TooSmall { need, have } => {
            format!(in alloc;
                "{flash} has {have} pages, but its catalog needs {need}: give the whole file that key_program load made, or load the tables again under another name"
            )
        }
    }
}

/// The line of `query` after its session.
pub(crate) fn status_line(
    alloc: Global,
    words: &QueryWords<'_>,
    status: &SessionStatus,
) -> Result<String, AllocError> {
    let to = words.to;
    match status {
        SessionStatus::Ok => String::from_str(alloc, "done"),
        SessionStatus::Sink => String::from_str(alloc, NO_OUTPUT),
        SessionStatus::Link => {
            format!(in alloc;
                "the link to {to} failed or ended: see that host_program listens there, that this is its address and the port that it printed, as 127.0.0.1:4711, and ask again"
            )
        }
        SessionStatus::Protocol { kind, at } => {
            format!(in alloc;
                "the host at {to} answered out of form: a frame of kind {kind} at byte {at} of what it sent; see that it serves the file that was loaded with this flash"
            )
        }
        SessionStatus::Host { code } => {
            format!(in alloc;
                "the host at {to} refused an ask with code {code}, and the texts that met that have the word host: see that it can read its file"
            )
        }
        SessionStatus::Flash => flash_line(alloc, words.flash),
        SessionStatus::Damaged(damage) => damage_line(alloc, words.flash, damage, LOAD_ELSEWHERE),
    }
}
