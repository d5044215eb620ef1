//! The program of the host. What it does lies in `host_commands`; here are the real file, connection and output.
#![tactic(auto)]

use edge_real::dir_depot::DirDepot;
use edge_real::file_fault::FileFault;
use edge_real::plain_words::plain_words;
use edge_real::progress::terminal;
use edge_real::std_sink::StdSink;
use edge_real::tcp_link::{Cause, TcpLink};
use edge_real::told_depot::ToldDepot;
use host_commands::{HostStatus, host_main, line_of, read_words};
use std::alloc::{AllocError, Global};
use std::io::ErrorKind;
use std::process::ExitCode;
use std::{env, io};

/// Does what the words of the command line say, prints on standard error what did not go well, and ends with the status.
fn main(rt: HostRuntime) -> ExitCode {
    let mut words = Vec::new(rt.alloc());
    let status = match run(&rt, &mut words) {
        Ok(status) => status,
        Err(error) => {
            let status = not_read(&error);
            tell(&rt, &words, &status);
            status
        }
    };
    ExitCode::from(status.exit_code())
}

/// The status of a host whose words could not be read.
fn not_read(error: &io::Error) -> HostStatus {
    match error.kind() {
        ErrorKind::OutOfMemory => HostStatus::NoMemory,
        _ => HostStatus::Usage,
    }
}

/// Reads the words of the command line, does what they say, and prints on standard error what did not go well. An error
/// tells that they could not be read, and nothing was printed.
fn run(rt: &HostRuntime, words: &mut Vec<String>) -> io::Result<HostStatus> {
    for word in env::args(rt)? {
        words.push(word)?;
    }
    let mut depot = ToldDepot::new(DirDepot::new(rt.alloc(), rt), terminal(rt));
    let mut link = TcpLink::new(rt);
    let mut out = StdSink::new(rt.alloc(), rt)?;
    let status = host_main(rt.alloc(), words, &mut depot, &mut link, &mut out);
    match status {
        HostStatus::Ok => {}
        HostStatus::Link => tell_link(rt, words, link.first_cause()),
        _ => {
            tell(rt, words, &status);
            tell_file(rt, depot.depot.first_fault());
        }
    }
    Ok(status)
}

/// Prints on standard error how the program ended.
fn tell(rt: &HostRuntime, words: &[String], status: &HostStatus) {
    let _printed = match plain_line(rt.alloc(), words, status) {
        Ok(line) => eprintln!(rt; "{line}"),
        Err(_) => eprintln!(rt; "{status}"),
    };
}

/// The line that tells how the program ended, made of words without control characters.
fn plain_line(alloc: Global, words: &[String], status: &HostStatus) -> Result<String, AllocError> {
    line_of(alloc, &plain_words(alloc, words)?, status)
}

/// Prints on standard error the file that could not be read, if it could not.
fn tell_file(rt: &HostRuntime, fault: Option<FileFault>) {
    if let Some(fault) = fault {
        let _printed = eprintln!(rt; "{fault}");
    }
}

/// Prints on standard error that the host could not listen, and why, or that its key ended too early.
fn tell_link(rt: &HostRuntime, words: &[String], cause: Option<Cause>) {
    let _printed = match link_line(rt.alloc(), words, cause) {
        Ok(line) => eprintln!(rt; "{line}"),
        Err(_) => eprintln!(rt; "the link failed"),
    };
}

/// The line that tells so.
fn link_line(alloc: Global, words: &[String], cause: Option<Cause>) -> Result<String, AllocError> {
    let plain = plain_words(alloc, words)?;
    let at = match read_words(alloc, &plain) {
        Ok(said) => said.at,
        Err(_) => "",
    };
    match cause {
        Some(cause) if cause.is_of_the_address() => {
            format!(in alloc; "could not listen at {at}: {cause}")
        }
        _ => format!(in alloc;
            "the key that was served at {at} ended before it said goodbye: start host_program again, and then the key"
        ),
    }
}
