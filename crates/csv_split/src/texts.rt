//! The texts of a CHAR column, kept as cells of one width.

ghost use Rattle.std.specs.Prelude.{◌≡◌, ◌==◌, ◌≤◌, ◌<◌, ◌+◌, ◌*◌, ◌^◌, ◌++◌, ◌∷◌, [], true, length, take, drop, Some, OnOk, OnErr, slice_get, option_map};
ghost use Rattle.ghost_model.specs.forms.Cells.{padded};
ghost use Rattle.ghost_model.specs.readings.CellReading.{text_in};
ghost use Rattle.ghost_model.specs.core.Database as database;
ghost use Rattle.csv_split.specs.Texts.{empty};

use ghost_base::{Kind, Text64, Value, encode_cell};
use std::alloc::{AllocError, Global};
use std::marker::Model;

/// The texts of a CHAR column. A clause sees how wide their cells are and the list of the texts.
#[derive(Drop)]
pub struct Texts {
    width: usize,
    count: usize,
    bytes: Vec<u8>,
}

impl Model for Texts {
    ghost use Rattle.csv_split.specs.Texts.{TextList, KeepsTexts, list_of};

    ghost Value = { TextList };

    ghost view = { list_of };

    ghost invariant = { KeepsTexts };
}

impl Texts {
    /// No texts, in cells of this width.
    pub fn new(alloc: Global, width: usize) -> Texts
        requires { width ≤ 64 }
        ensures { result ≡ empty width }
    {
        Texts {
            width,
            count: 0,
            bytes: Vec::new(alloc),
        }
    }

    /// The number of texts.
    pub fn len(&self) -> usize
        ensures { result ≡ length self.now.texts }
    {
        self.count
    }

    /// Whether there are no texts.
    pub fn is_empty(&self) -> bool
        ensures { result ≡ (length self.now.texts == 0) }
    {
        self.len() == 0
    }

    /// How wide the cells are.
    pub fn width(&self) -> usize
        ensures { result ≡ self.now.width }
    {
        self.width
    }

    /// Puts a text at the end.
    pub fn push(&mut self, text: &[u8]) -> Result<(), AllocError>
        requires text { database.is_text self.old.width text.now ≡ true }
        requires room { length self.old.texts < 2 ^ 32 }
        ensures texts { OnOk result (self.new ≡ record self.old { texts = self.old.texts ++ text.now ∷ [] }) }
        ensures kept { OnErr result (self.new ≡ self.old) }
    {
        put_cell(&mut self.bytes, self.width, text)?;
        self.count += 1;
        Ok(())
    }

    /// The text at a place, the first having place 0.
    pub fn get(&self, place: usize) -> &[u8]
        requires { place < length self.now.texts }
        ensures text { slice_get self.now.texts place ≡ Some result.now }
        ensures held { database.is_text self.now.width result.now ≡ true }
        ensures short { length result.now ≤ 64 }
    {
        let cell = cell_in(&self.bytes, self.width, place);
        &cell[..text_len(cell)]
    }

    /// The cell of the text at a place: the text, and zero bytes after it.
    pub fn cell(&self, place: usize) -> &[u8]
        requires { place < length self.now.texts }
        ensures { option_map (padded self.now.width) (slice_get self.now.texts place) ≡ Some result.now }
    {
        cell_in(&self.bytes, self.width, place)
    }
}

/// The cell at a place.
pub(crate) fn cell_in(cells: &[u8], width: usize, place: usize) -> &[u8]
    requires { place * width + width ≤ length cells.now }
    ensures { result.now ≡ take width (drop (place * width) cells.now) }
{
    &cells[place * width..place * width + width]
}

/// How many bytes of a cell stand before its first zero byte.
fn text_len(cell: &[u8]) -> usize
    ensures { result ≡ length (text_in cell.now) }
{
    cell.iter().take_while(|byte| **byte != 0).count()
}

/// Puts the cell of a text at the end.
fn put_cell(cells: &mut Vec<u8>, width: usize, text: &[u8]) -> Result<(), AllocError>
    requires small { width ≤ 64 }
    requires text { database.is_text width text.now ≡ true }
    ensures put { OnOk result (cells.new.items ≡ cells.old.items ++ padded width text.now) }
    ensures kept { OnErr result (cells.new.items ≡ cells.old.items) }
{
    let mut places = [0; 64];
    let (cell, _) = places.split_at_mut(width);
    encode_cell(
        Kind::Chars(width as u8),
        &Value::Chars(Text64::of(text)),
        cell,
    );
    cells.extend_from_slice(cell)
}
