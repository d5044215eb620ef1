//! The files that the words of a command name.

use edge_real::replaced::{NONE_REPLACED, Replaced};
use key_words::{KeyWords, read_words};
use std::alloc::Global;

/// The files that a command reads, empty where there is none, and those that it is to replace.
#[derive(Clone, Copy)]
pub(crate) struct Named<'a> {
    /// The schema's file.
    pub(crate) schema: &'a str,

    /// The folder of the tables' files.
    pub(crate) tables: &'a str,

    /// The script's file.
    pub(crate) script: &'a str,

    /// Those that are replaced.
    pub(crate) replaced: Replaced<'a>,
}

/// No file is named.
const NONE_NAMED: Named<'static> = Named {
    schema: "",
    tables: "",
    script: "",
    replaced: NONE_REPLACED,
};

/// The files that the command of these words names.
pub(crate) fn named_by(alloc: Global, words: &[String]) -> Named<'_> {
    match read_words(alloc, words) {
        Ok(KeyWords::Plain(said)) => Named {
            schema: said.schema,
            tables: said.tables,
            script: said.script,
            ..NONE_NAMED
        },
        Ok(KeyWords::Load(said)) => Named {
            schema: said.schema,
            tables: said.tables,
            replaced: Replaced {
                flash: said.flash,
                visible: said.visible,
                ..NONE_REPLACED
            },
            ..NONE_NAMED
        },
        Ok(KeyWords::Local(said)) => Named {
            schema: said.schema,
            tables: said.tables,
            script: said.script,
            replaced: Replaced {
                flash: said.flash,
                journal: said.journal.unwrap_or(""),
                ..NONE_REPLACED
            },
        },
        Ok(KeyWords::Query(said)) => Named {
            script: said.script,
            ..NONE_NAMED
        },
        Ok(KeyWords::Audit(said)) => Named {
            script: said.script,
            ..NONE_NAMED
        },
        Ok(KeyWords::Gen(said)) => Named {
            replaced: Replaced {
                flash: said.flash,
                ..NONE_REPLACED
            },
            ..NONE_NAMED
        },
        Ok(KeyWords::Migrate(said)) => Named {
            replaced: Replaced {
                flash: said.to_flash,
                visible: said.to_visible,
                old_flash: said.flash,
                ..NONE_REPLACED
            },
            ..NONE_NAMED
        },
        Err(_) => NONE_NAMED,
    }
}
