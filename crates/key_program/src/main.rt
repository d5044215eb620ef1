//! The program of the key. What its commands do lies in `key_commands` and the crates below, what is told on standard error in
//! `key_messages`, `text_messages` and `file_messages`; here are the real files, the real device, the network and the real output.
#![tactic(auto)]

mod named;
mod telling;

use crate::named::{Named, named_by};
use crate::telling::{schema_of, tell, tell_cause};
use edge_real::dir_depot::DirDepot;
use edge_real::file_flash::FileFlash;
use edge_real::kept_depot::KeptDepot;
use edge_real::kept_flash::KeptFlash;
use edge_real::progress::{terminal, terminal_apart};
use edge_real::std_sink::StdSink;
use edge_real::tcp_link::TcpLink;
use edge_real::told_depot::ToldDepot;
use edge_real::told_flash::ToldFlash;
use edge_real::told_sink::ToldSink;
use file_messages::{FilesRead, broken_lines};
use key_commands::{Ended, key_main};
use key_messages::{broken_rule, ended_lines};
use key_words::UsageFault;
use std::io::ErrorKind;
use std::process::ExitCode;
use std::{env, io};
use text_messages::{ScriptRead, script_lines};
use tree_schema::{read_catalog, read_schema};

/// Does what the words of the command line say, prints on standard error what did not go well, and ends with the status.
fn main(rt: HostRuntime) -> ExitCode {
    let mut words = Vec::new(rt.alloc());
    let ended = match run(&rt, &mut words) {
        Ok(ended) => ended,
        Err(error) => {
            let ended = not_read(&error);
            tell(&rt, ended_lines(rt.alloc(), &words, &ended, None));
            ended
        }
    };
    ExitCode::from(ended.exit_code())
}

/// How a call ended whose words could not be read.
fn not_read(error: &io::Error) -> Ended {
    match error.kind() {
        ErrorKind::OutOfMemory => Ended::NoMemory,
        ErrorKind::InvalidData => Ended::Usage(UsageFault::NotUtf8),
        _ => Ended::Usage(UsageFault::Words),
    }
}

/// Reads the words of the command line, does what they say, and prints on standard error which texts were refused and what
/// did not go well. An error tells that they could not be read, and nothing was printed.
fn run(rt: &HostRuntime, words: &mut Vec<String>) -> io::Result<Ended> {
    let alloc = rt.alloc();
    for word in env::args(rt)? {
        words.push(word)?;
    }
    let Named {
        schema,
        tables,
        script,
        replaced,
    } = named_by(alloc, words);
    let files = ToldDepot::new(DirDepot::replacing(alloc, rt, replaced), terminal(rt));
    let mut depot = KeptDepot::new(alloc, files, schema, script);
    let device = ToldFlash::new(FileFlash::new(alloc, rt), terminal(rt));
    let mut flash = KeptFlash::new(alloc, device);
    let mut link = TcpLink::telling(rt, terminal(rt).is_some());
    let mut out = ToldSink::new(StdSink::new(alloc, rt)?, terminal_apart(rt));
    let ended = key_main(alloc, words, &mut depot, &mut flash, &mut link, &mut out);
    let (read, catalog) = (
        read_schema(depot.schema_read()).ok(),
        read_catalog(flash.front()),
    );
    let read_with = schema_of(&read, &catalog);
    let texts = ScriptRead {
        file: script,
        script: depot.script_read(),
        schema: read_with,
    };
    tell(rt, script_lines(alloc, &texts, ended.told().as_slice()));
    if ended.exit_code() != 0 {
        tell(rt, ended_lines(alloc, words, &ended, read_with));
        tell_cause(rt, depot.depot.depot.first_fault());
        tell_cause(rt, flash.flash.flash.first_fault());
        tell_cause(rt, link.first_cause());
    }
    if let Some(fault) = broken_rule(&ended) {
        let inputs = FilesRead {
            schema_file: schema,
            folder: tables,
            schema_read: depot.schema_read(),
            front: depot.front(),
        };
        tell(rt, broken_lines(alloc, &inputs, read_with, &fault));
    }
    Ok(ended)
}
