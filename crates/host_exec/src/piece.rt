//! Pieces of the file: rows that are read at once, and gone through as the frames of a reply have room for them.

ghost use Rattle.std.specs.Prelude.{◌≡◌, ◌≤◌, ◌<◌, ◌+◌, ◌-◌, ◌*◌, ◌^◌, ℕ, true, List, Some, IfErr, IfOk, is_ok};
ghost use Rattle.ghost_model.specs.core.Causes.{HasCause};
ghost use Rattle.edge_traits.specs.Files.{file_of};
ghost use Rattle.host_exec.specs.Pieces.{IsAhead, HasFit, bytes_ahead};

use crate::filling::fill;
use channel_codec::bytes::{behind, front};
use edge_traits::Failed;
use edge_traits::depot::Depot;

/// The bytes that are read of the file at once.
pub(crate) const PIECE_BYTES: usize = 4096;

/// How many rows of a width are read at once, of those that are left: as many as a piece has room for.
pub(crate) fn rows_of_piece(width: usize, left: u32) -> u32
    requires { width ≤ 1560 }
    ensures within { result ≤ left }
    ensures some { 0 < left → 0 < result }
    ensures fits { result * width ≤ PIECE_BYTES }
{
    if width == 0 {
        return left;
    }
    left.min((PIECE_BYTES / width) as u32)
}

/// Rows of the file that were read and not gone through yet.
#[derive(Drop)]
pub struct Piece {
    /// The bytes that were read.
    pub bytes: [u8; PIECE_BYTES],

    /// Where the first of the rows stands in them.
    pub at: usize,

    /// How many rows there are.
    pub rows: u32,
}

impl Piece {
    /// No rows.
    pub fn new() -> Piece
        ensures at { result.at ≡ 0 }
        ensures none { result.rows ≡ 0 }
    {
        Piece {
            bytes: [0; PIECE_BYTES],
            at: 0,
            rows: 0,
        }
    }

    /// The bytes of the rows, each of which has this width.
    pub fn ahead(&self, width: usize) -> &[u8]
        requires fits { HasFit width self.now }
        ensures bytes { result.now ≡ bytes_ahead width self.now }
    {
        front(behind(&self.bytes, self.at), self.rows as usize * width)
    }

    /// Where no rows are left, reads the next of a table, those from a place on: as many as there is room for, of so many that the
    /// table still has. Where the depot fails there are none.
    pub fn refill<D: Depot>(
        &mut self,
        depot: &mut D,
        name: &str,
        width: usize,
        start: u64,
        place: u32,
        later: u32,
    ) -> Result<(), Failed>
        requires narrow { width ≤ 1560 }
        requires start { start < 2 ^ 63 }
        requires few { place ≤ 1_000_000 }
        requires some { 0 < later }
        requires within { self.old.rows ≤ later }
        requires fits { HasFit width self.old }
        ensures cause { HasCause (D.faults depot.old) (D.faults depot.new) result }
        ensures appends { D.append_faults depot.new ≡ D.append_faults depot.old }
        ensures same { D.contents depot.new ≡ D.contents depot.old }
        ensures goes_well { D.sure depot.old name.now → is_ok result ≡ true }
        ensures stays_sure { D.sure depot.old name.now → D.sure depot.new name.now }
        ensures fits { HasFit width self.new }
        ensures within { self.new.rows ≤ later }
        ensures none { IfErr result (λ _. self.new.rows ≡ 0) }
        ensures some { IfOk result (λ _. 0 < self.new.rows) }
        ensures ahead { IfOk result (λ _. (file : List ℕ) → file_of (D.contents depot.old) name.now ≡ Some file
            → IsAhead width self.old file start place → IsAhead width self.new file start place) }
    {
        if self.rows > 0 {
            return Ok(());
        }
        let count = rows_of_piece(width, later);
        let at = start + place as u64 * width as u64;
        let (piece, _rest) = self.bytes.split_at_mut(count as usize * width);
        fill(depot, name, at, piece)?;
        self.at = 0;
        self.rows = count;
        Ok(())
    }

    /// Leaves out so many of the rows, which were gone through.
    pub fn pass(&mut self, passed: u32, width: usize)
        requires fits { HasFit width self.old }
        requires within { passed ≤ self.old.rows }
        ensures fits { HasFit width self.new }
        ensures rows { self.new.rows ≡ self.old.rows - passed }
        ensures ahead { (file : List ℕ) (start place : ℕ) → IsAhead width self.old file start place → IsAhead width self.new file start (place + passed) }
    {
        self.at += passed as usize * width;
        self.rows -= passed;
    }
}
