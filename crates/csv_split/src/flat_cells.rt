//! The values of a column that may be NULL, kept as cells of one width.

ghost use Rattle.std.specs.Prelude.{◌≡◌, ◌==◌, ◌≤◌, ◌<◌, ◌^◌, ◌++◌, ◌∷◌, [], true, false, length, Some, OnOk, OnErr, IfSome, slice_get, option_map, IsTrue};
ghost use Rattle.ghost_model.specs.core.Database as database;
ghost use Rattle.ghost_model.specs.core.Schema.{plain_of};
ghost use Rattle.ghost_model.specs.forms.Cells as cells;
ghost use Rattle.ghost_base.specs.Views.{kind_of, value_of};
ghost use Rattle.csv_split.specs.FlatCells.{empty_of};

use crate::texts::cell_in;
use ghost_base::{Kind, Value, cell_width, decode_cell, encode_cell};
use std::alloc::{AllocError, Global};
use std::marker::Model;

/// The values of a column that may be NULL, one cell after another. A clause sees the kind of the column and the list of the
/// values.
#[derive(Drop)]
pub struct FlatCells {
    kind: Kind,
    count: usize,
    bytes: Vec<u8>,
}

impl Model for FlatCells {
    ghost use Rattle.csv_split.specs.FlatCells.{ValueList, KeepsValues, list_of};

    ghost Value = { ValueList };

    ghost view = { list_of };

    ghost invariant = { KeepsValues };
}

impl FlatCells {
    /// No values, in cells of a kind.
    pub fn new(alloc: Global, kind: Kind) -> FlatCells
        requires { cells.cell_width (plain_of (kind_of kind)) ≤ 64 }
        ensures { result ≡ empty_of (kind_of kind) }
    {
        FlatCells {
            kind,
            count: 0,
            bytes: Vec::new(alloc),
        }
    }

    /// The number of values.
    pub fn len(&self) -> usize
        ensures { result ≡ length self.now.values }
    {
        self.count
    }

    /// Whether there are no values.
    pub fn is_empty(&self) -> bool
        ensures { result ≡ (length self.now.values == 0) }
    {
        self.len() == 0
    }

    /// The kind of the values.
    pub fn kind(&self) -> Kind
        ensures kind { kind_of result ≡ self.now.kind }
        ensures narrow { cells.cell_width (plain_of (kind_of result)) ≤ 64 }
    {
        self.kind
    }

    /// Whether the values are kept as cells of this kind.
    pub fn is_of(&self, kind: Kind) -> bool
        ensures same { result ≡ true → self.now.kind ≡ kind_of kind }
        ensures other { result ≡ false → self.now.kind ≡ kind_of kind → ⊥ }
    {
        match (self.kind, kind) {
            (Kind::Integer, Kind::Integer) | (Kind::IntegerOrNull, Kind::IntegerOrNull) => true,
            (Kind::Chars(most), Kind::Chars(other)) => most == other,
            (Kind::CharsOrNull(most), Kind::CharsOrNull(other)) => most == other,
            _ => false,
        }
    }

    /// Puts a value at the end.
    pub fn push(&mut self, value: &Value) -> Result<(), AllocError>
        requires held { IsTrue (database.is_of_kind self.old.kind (value_of value.now)) }
        requires room { length self.old.values < 2 ^ 32 }
        ensures values { OnOk result (self.new ≡ record self.old { values = self.old.values ++ value_of value.now ∷ [] }) }
        ensures kept { OnErr result (self.new ≡ self.old) }
    {
        put_cell(&mut self.bytes, self.kind, value)?;
        self.count += 1;
        Ok(())
    }

    /// The value at a place, the first having place 0.
    pub fn get(&self, place: usize) -> Option<Value>
        ensures { option_map value_of result ≡ slice_get self.now.values place }
    {
        if place >= self.len() {
            return None;
        }
        let width = cell_width(self.kind);
        decode_cell(self.kind, cell_in(&self.bytes, width, place))
    }

    /// The cell of the value at a place.
    pub fn cell(&self, place: usize) -> &[u8]
        requires { place < length self.now.values }
        ensures cell { option_map (cells.encode_cell self.now.kind) (slice_get self.now.values place) ≡ Some result.now }
        ensures held { IfSome (slice_get self.now.values place) (λ value. IsTrue (database.is_of_kind self.now.kind value)) }
    {
        cell_in(&self.bytes, cell_width(self.kind), place)
    }
}

/// Puts the cell of a value at the end.
fn put_cell(out: &mut Vec<u8>, kind: Kind, value: &Value) -> Result<(), AllocError>
    requires narrow { cells.cell_width (kind_of kind) ≤ 65 }
    requires held { IsTrue (database.is_of_kind (kind_of kind) (value_of value.now)) }
    ensures put { OnOk result (out.new.items ≡ out.old.items ++ cells.encode_cell (kind_of kind) (value_of value.now)) }
    ensures kept { OnErr result (out.new.items ≡ out.old.items) }
{
    let mut places = [0; 65];
    let (cell, _) = places.split_at_mut(cell_width(kind));
    encode_cell(kind, value, cell);
    out.extend_from_slice(cell)
}
