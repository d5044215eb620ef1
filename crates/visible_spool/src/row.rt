//! A row of a reply, by itself.

ghost use Rattle.std.specs.Prelude.{◌≡◌, ◌≤◌, length};
ghost use Rattle.ghost_model.specs.core.Asks.{row_in};

use flash_pages::cells::number_at;
use std::marker::Model;

/// The most bytes of a row: an identifier of 4 bytes and 24 cells of 65 bytes.
pub const MAX_ROW: usize = 1564;

/// A row of a reply. A clause sees its identifier and the bytes of its cells.
#[derive(Drop)]
pub struct SpoolRow {
    bytes: [u8; MAX_ROW],
    size: usize,
}

impl Model for SpoolRow {
    ghost use Rattle.std.specs.Prelude.{◌≤◌, ◌≡◌, length, take};
    ghost use Rattle.ghost_model.specs.core.Asks.{RowCells, row_in};

    ghost Value = { RowCells };

    ghost view = { λ row. row_in (take row.size row.bytes) };

    ghost invariant = { λ row. (4 ≤ row.size) × (row.size ≤ 1564) × (length row.bytes ≡ 1564) };
}

impl SpoolRow {
    /// The row that has these bytes, 4 to 1,564 of them.
    pub(crate) fn of(bytes: &[u8]) -> SpoolRow
        requires some { 4 ≤ length bytes.now }
        requires most { length bytes.now ≤ 1564 }
        ensures row { result ≡ row_in bytes.now }
    {
        let mut places = [0; MAX_ROW];
        places[..bytes.len()].copy_from_slice(bytes);
        SpoolRow {
            bytes: places,
            size: bytes.len(),
        }
    }

    /// Its identifier.
    pub fn identifier(&self) -> u32
        ensures identifier { result ≡ self.now.identifier }
    {
        number_at(&self.bytes, 0)
    }

    /// The bytes of its cells.
    pub fn cells(&self) -> &[u8]
        ensures cells { result.now ≡ self.now.cells }
    {
        &self.bytes[4..self.size]
    }
}
