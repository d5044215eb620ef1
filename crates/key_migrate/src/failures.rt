//! Why the command ended early.

use thiserror::Error;

/// Why the command ended before its line was printed.
#[derive(Clone, Copy, Debug, Drop, Error)]
pub enum MigrateFailure {
    /// There was no memory.
    #[error("out of memory")]
    NoMemory,

    /// An item of `--null` names no column, or one that cannot be allowed NULL, or one that an item before it names.
    #[error("item {item} of --null names no column that may be allowed NULL")]
    NullName {
        /// The number of the item, counted from 1.
        item: u32,
    },

    /// The host's file could not be read, or the new one not written.
    #[error("a file could not be read or written")]
    Depot,

    /// The old flash could not be opened or read, or the new one not made or written.
    #[error("the flash failed")]
    Flash,

    /// The line could not be printed.
    #[error("the line could not be printed")]
    Sink,

    /// The old flash ends before the pages of its hidden part do.
    #[error("the old flash has {have} pages and the files on it end at {need}")]
    OldTooSmall {
        /// The page, a multiple of 64, where the files of its hidden part end.
        need: u32,
        /// The pages that the old flash has.
        have: u32,
    },

    /// The new flash was to have fewer pages than the tables need.
    #[error("the new flash would have {have} pages and needs {need}")]
    TooSmall {
        /// The pages that the tables need.
        need: u32,
        /// The pages that the new flash was to have.
        have: u32,
    },

    /// The public pages of the old flash begin with no catalog.
    #[error("the old flash has no catalog")]
    NotAKey,

    /// A slot of the old flash spells no value that may stand there.
    #[error("slot {slot} of page {page} is damaged")]
    Damaged {
        /// The page.
        page: u32,
        /// The slot in it, counted from 0.
        slot: u32,
        /// The slot's first eight bytes as a number, with bytes 0 after a shorter one.
        found: u64,
    },

    /// The bytes of the host's file are no image of the old flash's catalog.
    #[error("the file is not that of the flash")]
    NotTheFile,
}
