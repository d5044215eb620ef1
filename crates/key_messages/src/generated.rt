//! What is told of a session over a drawn clinic that did not end well, or was not begun.

use crate::sessions::{ASK_ELSEWHERE, NO_OUTPUT};
use key_commands::generate::{GenEnd, GenFailure};
use key_words::GenWords;
use std::alloc::{AllocError, Global};

/// The line of `gen` without a session.
pub(crate) fn gen_failure_line(
    alloc: Global,
    words: &GenWords<'_>,
    fault: &GenFailure,
) -> Result<String, AllocError> {
    let GenWords { flash, rows, .. } = *words;
    match fault {
        GenFailure::NoMemory if rows > 1 => {
            format!(in alloc; "out of memory: free some, or give --rows a number below {rows}")
        }
        GenFailure::NoMemory => String::from_str(alloc, "out of memory: free some"),
        GenFailure::Flash => {
            format!(in alloc;
                "{flash} could not be made or written: see that its folder is there and has room"
            )
        }
    }
}

/// The line of `gen` after its session.
pub(crate) fn gen_end_line(
    alloc: Global,
    words: &GenWords<'_>,
    end: &GenEnd,
) -> Result<String, AllocError> {
    let flash = words.flash;
    match end {
        GenEnd::Ok => String::from_str(alloc, "done"),
        GenEnd::Sink => String::from_str(alloc, NO_OUTPUT),
        GenEnd::Flash => {
            format!(in alloc;
                "{flash} could not always be read or written, and the texts that met that may tell fewer rows than they have; see that the device can be read and written, and run it again"
            )
        }
        GenEnd::Damaged(damage) => {
            format!(in alloc;
                "{flash} is damaged, and the texts that met it may tell fewer rows than they have: {damage}; {ASK_ELSEWHERE}"
            )
        }
    }
}
