//! What is told of an audit that did not end well.

use crate::input_lines::{InputNames, input_line};
use crate::telling::NO_MEMORY;
use channel_audit::Due;
use key_audit::AuditFailure;
use key_words::AuditWords;
use std::alloc::{AllocError, Global};

/// The line of `audit`.
pub(crate) fn audit_line(
    alloc: Global,
    words: &AuditWords<'_>,
    fault: &AuditFailure,
) -> Result<String, AllocError> {
    let AuditWords {
        visible,
        script,
        journal,
    } = *words;
    match fault {
        AuditFailure::NoMemory => String::from_str(alloc, NO_MEMORY),
        AuditFailure::Depot => {
            format!(in alloc;
                "a file could not be read: see that {visible}, {script} and {journal} are there"
            )
        }
        AuditFailure::NotTheFile => {
            format!(in alloc;
                "{visible} does not begin with a catalog: give the host's file as key_program load made it"
            )
        }
        AuditFailure::Input(broken) => {
            let names = InputNames {
                schema: "",
                tables: "",
                script,
            };
            input_line(alloc, &names, broken)
        }
        AuditFailure::BadJournal { line } => {
            format!(in alloc;
                "{journal}, line {line}: this is no line of a journal; one is dial ok, dial failed, send HEX ok, send HEX failed, take N HEX, take N end, take N failed or close, with HEX in pairs of lower case, N without leading zeros and no smaller than what was taken, and has at most 4200 bytes and then an LF, within the first 4294967296 bytes of the file"
            )
        }
        AuditFailure::Wrong { at, told, due } => wrong_line(alloc, words, *at, (told, due)),
        AuditFailure::Sink => String::from_str(
            alloc,
            "the line could not be printed: see that the output takes it",
        ),
    }
}

/// The line of a move that is told in the place of the one that was due.
fn wrong_line(
    alloc: Global,
    words: &AuditWords<'_>,
    at: u32,
    moves: (&Due, &Due),
) -> Result<String, AllocError> {
    let AuditWords {
        visible,
        script,
        journal,
    } = *words;
    let (told, due) = moves;
    let due = due_words(alloc, told, due)?;
    let told = told_words(alloc, told)?;
    format!(in alloc;
        "{journal}, line {at}: {told} stands where {due} was due: no key makes this move by the catalog of {visible}, the texts of {script} and the answers before it"
    )
}

/// The move that is told. The length of a take is known up to 100,000 bytes.
fn told_words(alloc: Global, told: &Due) -> Result<String, AllocError> {
    match told {
        Due::Take(100_000) => String::from_str(alloc, "a take of 100000 bytes or more"),
        _ => format!(in alloc; "{told}"),
    }
}

/// The move that was due, beside the one that is told.
fn due_words(alloc: Global, told: &Due, due: &Due) -> Result<String, AllocError> {
    match (told, due) {
        (Due::Send(one), Due::Send(count)) if one == count => {
            format!(in alloc; "a send of {count} other bytes")
        }
        _ => format!(in alloc; "{due}"),
    }
}
