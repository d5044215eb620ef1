//! What is told of an input that breaks a rule: the file, and in it the place, by names.

use key_inputs::InputFault;
use std::alloc::{AllocError, Global};

/// The files that a command reads: the schema's, the folder of the tables', and the script's, empty where there is none.
#[derive(Clone, Copy)]
pub(crate) struct InputNames<'a> {
    pub(crate) schema: &'a str,
    pub(crate) tables: &'a str,
    pub(crate) script: &'a str,
}

/// The line of a rule that is broken in one of these files.
pub(crate) fn input_line(
    alloc: Global,
    names: &InputNames<'_>,
    fault: &InputFault,
) -> Result<String, AllocError> {
    let InputNames {
        schema,
        tables,
        script,
    } = *names;
    match fault {
        InputFault::Table(broken) => format!(in alloc; "{tables}/{broken}"),
        InputFault::Schema(broken) if broken.is_at_a_table() => {
            format!(in alloc; "{schema}, {broken}")
        }
        InputFault::Schema(broken) => format!(in alloc; "{schema}: {broken}"),
        InputFault::SchemaBytes => format!(in alloc; "{schema}: {fault}"),
        InputFault::ScriptBytes | InputFault::ScriptTexts => {
            format!(in alloc; "{script}: {fault}")
        }
    }
}
