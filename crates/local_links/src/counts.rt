//! Counts of moves and of bytes.

ghost use Rattle.std.specs.Prelude.{◌≤◌};
ghost use Rattle.ghost_model.specs.core.Causes.{last_count};

/// How many moves were made on a link, and how many bytes went by it each way. A count stays at its last value, 2^64 - 1.
#[derive(Drop)]
pub struct Counts {
    /// The moves, whether they went well or failed.
    pub moves: u64,
    /// The bytes that were handed over to be sent, also where sending them failed.
    pub sent: u64,
    /// The bytes that were taken.
    pub taken: u64,
    ghost moves_fit: { moves ≤ last_count },
    ghost sent_fits: { sent ≤ last_count },
    ghost taken_fits: { taken ≤ last_count },
}
