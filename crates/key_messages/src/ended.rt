//! The lines of a command that did not end well.

use crate::telling::line_of;
use crate::usage::usage_lines;
use edge_real::plain_words::plain_words;
use key_audit::AuditFailure;
use key_commands::Ended;
use key_commands::local::LocalFailure;
use key_commands::query::QueryFailure;
use key_inputs::InputFault;
use key_load::LoadFailure;
use key_plain::PlainFault;
use std::alloc::{AllocError, Global};
use tree_schema::Schema;

/// The lines, without the end of the last one, that tell how a command ended, made of words without control characters. The schema is
/// that of the catalog on the device that was opened, where one was read there.
pub fn ended_lines(
    alloc: Global,
    words: &[String],
    ended: &Ended,
    schema: Option<&Schema>,
) -> Result<String, AllocError> {
    let words = plain_words(alloc, words)?;
    let line = line_of(alloc, &words, ended, schema)?;
    match ended {
        Ended::Usage(_) => usage_lines(alloc, &words, &line),
        _ => Ok(line),
    }
}

/// The rule of an input that is broken, if one is.
pub fn broken_rule(ended: &Ended) -> Option<InputFault> {
    match ended {
        Ended::Plain(run) => match &run.outcome {
            Err(PlainFault::Input(fault)) => Some(*fault),
            _ => None,
        },
        Ended::Load(Err(LoadFailure::Input(fault)))
        | Ended::Local(Err(LocalFailure::Input(fault)))
        | Ended::Query(Err(QueryFailure::Input(fault)))
        | Ended::Audit(Err(AuditFailure::Input(fault))) => Some(*fault),
        _ => None,
    }
}
