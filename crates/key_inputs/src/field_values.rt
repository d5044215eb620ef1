//! The values of fields, to be shown.

ghost use Rattle.std.specs.Prelude.{◌≡◌};
ghost use Rattle.ghost_model.specs.core.Printed.{field_text};
ghost use Rattle.ghost_base.specs.Views.{value_of};
ghost use Rattle.key_inputs.specs.Naming.{ShowsField, ShowsKey, shown};

use crate::shown::Shown;
use csv::ByteRecord;
use csv_split::records::Records;
use csv_split::{Place, Tables};
use ghost_base::Value;
use itoa::Buffer;
use std::alloc::Global;

/// The field of a file at a place.
pub(crate) fn field_in(alloc: Global, file: &[u8], at: &Place) -> Shown
    ensures shown { ShowsField file.now at.now result }
{
    let mut row = ByteRecord::new(alloc);
    let mut records = Records::open(alloc, file);
    for _ in 1..at.rec {
        let Ok(true) = records.read(&mut row) else {
            return Shown::Unread;
        };
    }
    let Ok(true) = records.read(&mut row) else {
        return Shown::Unread;
    };
    match row.get(usize::from(at.column)) {
        Some(field) => Shown::of(field),
        None => Shown::Unread,
    }
}

/// The value at a place of a table that was read, a number in decimal.
pub(crate) fn value_in(tables: &Tables, at: &Place) -> Shown
    ensures shown { ShowsKey tables.now at.now result }
{
    let identifier = at.rec.saturating_sub(1);
    match tables.value(usize::from(at.table), identifier, usize::from(at.column)) {
        Some(value) => value_shown(&value),
        None => Shown::Unread,
    }
}

/// What is shown of a value.
fn value_shown(value: &Value) -> Shown
    ensures shown { result ≡ shown (field_text (value_of value.now)) }
{
    match value {
        Value::Null => Shown::of(&[]),
        Value::Int(number) => {
            let mut digits = Buffer::new();
            Shown::of(digits.format(*number).as_bytes())
        }
        Value::Chars(text) => Shown::of(text.as_bytes()),
    }
}
