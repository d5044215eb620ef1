//! What is told of a command that did not end well.

use crate::audits::audit_line;
use crate::generated::{gen_end_line, gen_failure_line};
use crate::input_lines::{InputNames, input_line};
use crate::migrations::migrate_line;
use crate::refusing::refusing_lines;
use crate::sessions::{local_end_line, local_failure_line, query_failure_line, status_line};
use edge_traits::flash::BLOCK_PAGES;
use key_commands::{Ended, PlainRun};
use key_load::LoadFailure;
use key_plain::PlainFault;
use key_words::{KeyWords, LoadWords, PlainWords, read_words};
use std::alloc::{AllocError, Global};
use tree_schema::Schema;

/// What is told where all went well.
const DONE: &str = "done";

/// What is told where there is no memory.
pub(crate) const NO_MEMORY: &str = "out of memory: free some, or give smaller files";

/// The line, without its end, that tells how a call ended: what is wrong, in which file, in the file of a table in which
/// record and column, and in a schema at which table and column. Of refused words it tells those of the command too, an
/// option a line. The schema is that of the catalog on the device that was opened, where one was read there: names of `migrate` are
/// looked up in it.
pub fn line_of(
    alloc: Global,
    args: &[String],
    ended: &Ended,
    schema: Option<&Schema>,
) -> Result<String, AllocError> {
    match (read_words(alloc, args), ended) {
        (_, Ended::Usage(fault)) => refusing_lines(alloc, args, fault),
        (Ok(KeyWords::Plain(words)), Ended::Plain(run)) => plain_run_line(alloc, &words, run),
        (Ok(KeyWords::Load(words)), Ended::Load(Err(fault))) => { load_line(alloc, &words, fault) }
        (Ok(KeyWords::Local(words)), Ended::Local(Err(fault))) => {
            local_failure_line(alloc, &words, fault)
        }
        (Ok(KeyWords::Local(words)), Ended::Local(Ok(run))) => {
            local_end_line(alloc, &words, &run.end)
        }
        (Ok(KeyWords::Query(words)), Ended::Query(Err(fault))) => {
            query_failure_line(alloc, &words, fault)
        }
        (Ok(KeyWords::Query(words)), Ended::Query(Ok(tally))) => {
            status_line(alloc, &words, &tally.status)
        }
        (Ok(KeyWords::Audit(words)), Ended::Audit(Err(fault))) => audit_line(alloc, &words, fault),
        (Ok(KeyWords::Gen(words)), Ended::Gen(Err(fault))) => {
            gen_failure_line(alloc, &words, fault)
        }
        (Ok(KeyWords::Gen(words)), Ended::Gen(Ok(run))) => gen_end_line(alloc, &words, &run.end),
        (Ok(KeyWords::Migrate(words)), Ended::Migrate(Err(fault))) => {
            migrate_line(alloc, &words, fault, schema)
        }
        (_, Ended::Load(Ok(())) | Ended::Audit(Ok(_)) | Ended::Migrate(Ok(()))) => String::from_str(
            alloc, DONE,
        ),
        _ => String::from_str(alloc, NO_MEMORY),
    }
}

/// The line of `plain`.
fn plain_run_line(
    alloc: Global,
    words: &PlainWords<'_>,
    run: &PlainRun,
) -> Result<String, AllocError> {
    match &run.outcome {
        Ok(()) => String::from_str(alloc, DONE),
        Err(fault) => plain_line(alloc, words, fault),
    }
}

/// The line of a fault of `plain`.
fn plain_line(
    alloc: Global,
    words: &PlainWords<'_>,
    fault: &PlainFault,
) -> Result<String, AllocError> {
    let PlainWords {
        schema,
        tables,
        script,
    } = *words;
    match fault {
        PlainFault::NoMemory => String::from_str(alloc, NO_MEMORY),
        PlainFault::Depot => {
            format!(in alloc;
                "a file could not be read: see that {schema}, {script} and the file of each table in {tables} are there"
            )
        }
        PlainFault::Input(broken) => {
            let names = InputNames {
                schema,
                tables,
                script,
            };
            input_line(alloc, &names, broken)
        }
        PlainFault::Sink => String::from_str(
            alloc,
            "the lines could not be printed: see that the output takes them",
        ),
    }
}

/// The line of a fault of `load`.
fn load_line(
    alloc: Global,
    words: &LoadWords<'_>,
    fault: &LoadFailure,
) -> Result<String, AllocError> {
    let LoadWords {
        schema,
        tables,
        flash,
        visible,
        ..
    } = *words;
    match fault {
        LoadFailure::NoMemory => String::from_str(alloc, NO_MEMORY),
        LoadFailure::Depot => {
            format!(in alloc;
                "a file could not be read or written: see that {schema} and the file of each table in {tables} are there, and that {visible} can be written"
            )
        }
        LoadFailure::Input(broken) => {
            let names = InputNames {
                schema,
                tables,
                script: "",
            };
            input_line(alloc, &names, broken)
        }
        LoadFailure::TooSmall { need, have } => {
            let blocks = need / BLOCK_PAGES;
            format!(in alloc;
                "{flash} would have {have} pages, but the tables need {need}: give --blocks {blocks} or more, or leave it out (nothing was written)"
            )
        }
        LoadFailure::Flash => {
            format!(in alloc;
                "{flash} could not be made or written: see that its folder is there and has room, and load again"
            )
        }
        LoadFailure::Sink => {
            format!(in alloc; "the line could not be printed, but {flash} and {visible} are whole")
        }
    }
}
