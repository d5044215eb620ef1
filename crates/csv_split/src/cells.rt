//! The cells of one column of a table.

ghost use Rattle.std.specs.Prelude.{◌≡◌, ◌<◌, ◌≤◌, ◌^◌, ◌++◌, ◌∷◌, [], length, map, slice_get, option_map, OnOk, IfOk, Err, IsTrue};
ghost use Rattle.ghost_model.specs.laws.LoadLaws as load_laws;
ghost use Rattle.ghost_model.specs.core.Schema as schema;
ghost use Rattle.ghost_model.specs.core.Values.{Number, Text};
ghost use Rattle.ghost_model.specs.forms.Cells as cells;
ghost use Rattle.ghost_model.specs.core.Database as database;
ghost use Rattle.ghost_model.specs.refusals.LoadFaults as faults;
ghost use Rattle.ghost_base.specs.Views.{kind_of, value_of};
ghost use Rattle.csv_split.specs.Cells.{kind_in, values_in};
ghost use Rattle.csv_split.specs.Faults.{place_of, told};
ghost use Rattle.csv_split.specs.Wants.{NeverWants};

use crate::faults::{LoadFault, Place};
use crate::fields::{integer_of, is_text};
use crate::flat_cells::FlatCells;
use crate::texts::Texts;
use ghost_base::{Kind, Text64, Value};
use std::alloc::{AllocError, Global};

/// The values of one column, in the order of the rows.
#[derive(Drop)]
pub enum Cells {
    /// Those of an INTEGER column.
    Numbers(Vec<i64>),

    /// Those of a CHAR column.
    Texts(Texts),

    /// Those of a column that may be NULL.
    Nullable(FlatCells),
}

impl Cells {
    /// No values of a kind.
    pub fn new(alloc: Global, kind: Kind) -> Cells
        requires narrow { cells.cell_width (schema.plain_of (kind_of kind)) ≤ 64 }
        ensures kind { kind_in result ≡ kind_of kind }
        ensures values { values_in result ≡ [] }
    {
        match kind {
            Kind::Integer => Cells::Numbers(Vec::new(alloc)),
            Kind::Chars(most) => Cells::Texts(Texts::new(alloc, most as usize)),
            Kind::IntegerOrNull | Kind::CharsOrNull(_) => {
                Cells::Nullable(FlatCells::new(alloc, kind))
            }
        }
    }

    /// The number of values.
    pub fn len(&self) -> usize
        ensures { result ≡ length (values_in self.now) }
    {
        match self {
            Cells::Numbers(numbers) => numbers.len(),
            Cells::Texts(texts) => texts.len(),
            Cells::Nullable(cells) => cells.len(),
        }
    }

    /// The value at a place, the first having place 0.
    pub fn get(&self, place: usize) -> Option<Value>
        ensures { option_map value_of result ≡ slice_get (values_in self.now) place }
    {
        match self {
            Cells::Numbers(numbers) => number_at(numbers, place),
            Cells::Texts(texts) => text_at(texts, place),
            Cells::Nullable(cells) => cells.get(place),
        }
    }

    /// Puts the value that a field spells at the end, unless the field breaks the rule of the column's kind.
    pub fn take(&mut self, at: Place, field: &[u8]) -> Result<(), LoadFault>
        requires room { length (values_in self.old) < 2 ^ 32 }
        ensures judged { load_laws.Judges told result (faults.value_faults (place_of at) (kind_in self.old) field.now) }
        ensures memory { result ≡ Err LoadFault.NoMemory → faults.value_faults (place_of at) (kind_in self.old) field.now ≡ [] }
        ensures values { OnOk result (values_in self.new ≡ values_in self.old ++ database.value_of_field (kind_in self.old) field.now ∷ []) }
        ensures kind { kind_in self.new ≡ kind_in self.old }
    {
        match self {
            Cells::Numbers(numbers) => take_number(numbers, at, field),
            Cells::Texts(texts) => take_text(texts, at, field),
            Cells::Nullable(cells) => take_nullable(cells, at, field),
        }
    }

    /// Puts a value of the column's kind at the end.
    pub fn push(&mut self, value: &Value) -> Result<(), AllocError>
        requires held { IsTrue (database.is_of_kind (kind_in self.old) (value_of value.now)) }
        requires room { length (values_in self.old) < 2 ^ 32 }
        ensures values { OnOk result (values_in self.new ≡ values_in self.old ++ value_of value.now ∷ []) }
        ensures kind { kind_in self.new ≡ kind_in self.old }
    {
        match self {
            Cells::Numbers(numbers) => push_number(numbers, value),
            Cells::Texts(texts) => push_text(texts, value),
            Cells::Nullable(cells) => cells.push(value),
        }
    }
}

/// Puts the integer that a value is at the end.
fn push_number(numbers: &mut Vec<i64>, value: &Value) -> Result<(), AllocError>
    requires held { IsTrue (database.is_of_kind schema.Integer (value_of value.now)) }
    ensures values { OnOk result (map Number numbers.new.items ≡ map Number numbers.old.items ++ value_of value.now ∷ []) }
{
    let Value::Int(number) = value else {
        return Ok(());
    };
    match numbers.push(*number) {
        Ok(()) => Ok(()),
        Err(_) => Err(AllocError),
    }
}

/// Puts the text that a value is at the end.
fn push_text(texts: &mut Texts, value: &Value) -> Result<(), AllocError>
    requires held { IsTrue (database.is_of_kind (schema.Chars texts.old.width) (value_of value.now)) }
    requires room { length texts.old.texts < 2 ^ 32 }
    ensures values { OnOk result (map Text texts.new.texts ≡ map Text texts.old.texts ++ value_of value.now ∷ []) }
    ensures width { texts.new.width ≡ texts.old.width }
{
    let Value::Chars(text) = value else {
        return Ok(());
    };
    texts.push(text.as_bytes())
}

/// Puts the integer that a field spells at the end.
fn take_number(numbers: &mut Vec<i64>, at: Place, field: &[u8]) -> Result<(), LoadFault>
    ensures judged { load_laws.Judges told result (faults.value_faults (place_of at) schema.Integer field.now) }
    ensures memory { result ≡ Err LoadFault.NoMemory → faults.value_faults (place_of at) schema.Integer field.now ≡ [] }
    ensures values { OnOk result (map Number numbers.new.items ≡ map Number numbers.old.items ++ database.value_of_field schema.Integer field.now ∷ []) }
{
    let Some(number) = integer_of(field) else {
        return Err(LoadFault::BadInt(at));
    };
    match numbers.push(number) {
        Ok(()) => Ok(()),
        Err(_) => Err(LoadFault::NoMemory),
    }
}

/// Puts the text that a field is at the end.
fn take_text(texts: &mut Texts, at: Place, field: &[u8]) -> Result<(), LoadFault>
    requires room { length texts.old.texts < 2 ^ 32 }
    ensures judged { load_laws.Judges told result (faults.value_faults (place_of at) (schema.Chars texts.old.width) field.now) }
    ensures memory { result ≡ Err LoadFault.NoMemory → faults.value_faults (place_of at) (schema.Chars texts.old.width) field.now ≡ [] }
    ensures values { OnOk result (map Text texts.new.texts ≡ map Text texts.old.texts ++ Text field.now ∷ []) }
    ensures width { texts.new.width ≡ texts.old.width }
{
    if !is_text(texts.width(), field) {
        return Err(LoadFault::BadChars(at));
    }
    match texts.push(field) {
        Ok(()) => Ok(()),
        Err(_) => Err(LoadFault::NoMemory),
    }
}

/// Puts the value that a field spells at the end, NULL where the field is empty.
fn take_nullable(cells: &mut FlatCells, at: Place, field: &[u8]) -> Result<(), LoadFault>
    requires room { length cells.old.values < 2 ^ 32 }
    ensures judged { load_laws.Judges told result (faults.value_faults (place_of at) cells.old.kind field.now) }
    ensures memory { result ≡ Err LoadFault.NoMemory → faults.value_faults (place_of at) cells.old.kind field.now ≡ [] }
    ensures values { OnOk result (cells.new.values ≡ cells.old.values ++ database.value_of_field cells.old.kind field.now ∷ []) }
    ensures kind { cells.new.kind ≡ cells.old.kind }
{
    let value = value_of_field(cells.kind(), at, field)?;
    match cells.push(&value) {
        Ok(()) => Ok(()),
        Err(_) => Err(LoadFault::NoMemory),
    }
}

/// The value that a field spells in a column of a kind, unless the field breaks the kind's rule.
fn value_of_field(kind: Kind, at: Place, field: &[u8]) -> Result<Value, LoadFault>
    requires narrow { cells.cell_width (schema.plain_of (kind_of kind)) ≤ 64 }
    ensures judged { load_laws.Judges told result (faults.value_faults (place_of at) (kind_of kind) field.now) }
    ensures tells { NeverWants result }
    ensures value { IfOk result (λ value. value_of value ≡ database.value_of_field (kind_of kind) field.now) }
    ensures held { IfOk result (λ value. IsTrue (database.is_of_kind (kind_of kind) (value_of value))) }
{
    if field.is_empty() && kind.is_nullable() {
        return Ok(Value::Null);
    }
    match kind {
        Kind::Integer | Kind::IntegerOrNull => match integer_of(field) {
            Some(number) => Ok(Value::Int(number)),
            None => Err(LoadFault::BadInt(at)),
        },
        Kind::Chars(most) | Kind::CharsOrNull(most) => {
            if !is_text(most as usize, field) {
                return Err(LoadFault::BadChars(at));
            }
            Ok(Value::Chars(Text64::of(field)))
        }
    }
}

/// The integer at a place.
#[tactic(auto, using(crate::proofs::CellValues::found, crate::proofs::CellValues::past))]
fn number_at(numbers: &[i64], place: usize) -> Option<Value>
    ensures { option_map value_of result ≡ slice_get (map Number numbers.now) place }
{
    if place >= numbers.len() {
        return None;
    }
    Some(Value::Int(numbers[place]))
}

/// The text at a place.
#[tactic(auto, using(crate::proofs::CellValues::found_text, crate::proofs::CellValues::past))]
fn text_at(texts: &Texts, place: usize) -> Option<Value>
    ensures { option_map value_of result ≡ slice_get (map Text texts.now.texts) place }
{
    if place >= texts.len() {
        return None;
    }
    Some(Value::Chars(Text64::of(texts.get(place))))
}
