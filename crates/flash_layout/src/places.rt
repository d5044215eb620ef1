//! Where the files and the spool's area of a table lie, as numbers.

use arrayvec::ArrayVec;
use ghost_base::limits::{MAX_COLUMNS, MAX_TABLES};

/// Where what the columns of a table have begins, one after another.
#[derive(Default, Drop)]
pub(crate) struct Begins {
    /// The first page of each column.
    pub(crate) each: ArrayVec<u32, MAX_COLUMNS>,

    /// The page after the last one.
    pub(crate) after: u32,
}

/// Where the files and the spool's area of a table lie.
#[derive(Default, Drop)]
pub(crate) struct TablePlaces {
    /// The tables below it, ascending.
    pub(crate) below: ArrayVec<usize, MAX_TABLES>,

    /// The files of its columns, after which its subtree key table begins.
    pub(crate) columns: Begins,

    /// The indexes of its columns, after which its id index begins.
    pub(crate) indexes: Begins,

    /// The page after its files.
    pub(crate) after: u32,

    /// The pages of a half of the spool before its area.
    pub(crate) spool: u32,

    /// The width of a row of a reply in bytes.
    pub(crate) spool_width: u32,
}
