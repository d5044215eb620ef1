//! What is told of a host that did not end well.

use crate::status::HostStatus;
use crate::words::{HostWords, read_words};
use std::alloc::{AllocError, Global};

/// The line, without its end, that tells how the program ended and what to do next.
pub fn line_of(alloc: Global, words: &[String], status: &HostStatus) -> Result<String, AllocError> {
    match read_words(alloc, words) {
        Ok(said) => named_line(alloc, &said, status),
        Err(_) => format!(in alloc; "{status}"),
    }
}

/// The line of a program whose words were read.
fn named_line(
    alloc: Global,
    words: &HostWords<'_>,
    status: &HostStatus,
) -> Result<String, AllocError> {
    let HostWords { visible, at } = *words;
    match status {
        HostStatus::Depot => {
            format!(in alloc; "{visible} could not be read: see that the file is there")
        }
        HostStatus::BadVisibleFile => format!(in alloc;
            "{visible} is no visible image, and stays as it is: give the file that `key_program load` made with --visible, or load the tables under another name"
        ),
        HostStatus::Link => format!(in alloc;
            "the link at {at} failed: where no port was printed, it is in use, not of this machine, or no ADDRESS:PORT, as 127.0.0.1:0, whose port 0 takes a free one; else the key broke off, and both are to be started again"
        ),
        other => format!(in alloc; "{other}"),
    }
}
