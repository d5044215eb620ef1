//! The reply to an ask, as it stands in the spool.

use ghost_base::Kind;
use ghost_base::limits::MAX_COLUMNS;
use ghost_base::runs::Run;

/// The rows that came for an ask. They are read as long as nothing is written to their half of the spool.
#[derive(Clone, Copy)]
pub struct Reply {
    /// The rows, each its identifier in four bytes and the asked cells.
    pub run: Run,
    /// How many rows the table has: identifiers are from 1 to that number.
    pub rows: u32,
    /// How many cells a row has.
    pub cells: usize,
    /// What the cells hold, by their places; places behind them are not used.
    pub kinds: [Kind; MAX_COLUMNS],
}
