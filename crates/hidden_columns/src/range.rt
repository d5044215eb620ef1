//! What a column may have.

ghost use Rattle.std.specs.Prelude.{◌≡◌, option_map, true, pos};
ghost use Rattle.ghost_model.specs.core.Values.{Number};
ghost use Rattle.ghost_model.specs.forms.Layout as layout;
ghost use Rattle.ghost_model.specs.core.Database.{is_row_among};
ghost use Rattle.ghost_base.specs.Views.{value_of};
ghost use Rattle.ghost_model.specs.forms.Slots.{is_in_range};

use flash_layout::Layout;
use ghost_base::Value;

/// The number of rows of the table that a foreign key names.
pub(crate) fn rows_of_child(laid: &Layout<'_>, child: Option<u8>) -> Option<u32>
    ensures rows { result ≡ option_map (layout.count_of laid.now) child }
{
    match child {
        None => None,
        Some(child) => Some(laid.rows(child as usize)),
    }
}

/// Whether a value may stand in a column, which for a foreign key is an identifier of one of so many rows.
pub(crate) fn is_in_range(rows: Option<u32>, value: &Value) -> bool
    ensures range { result ≡ is_in_range rows (value_of value.now) }
{
    match (rows, value) {
        (None, _) => true,
        (Some(rows), Value::Int(number)) => 1 <= *number && *number <= i64::from(rows),
        (Some(_), Value::Null | Value::Chars(_)) => false,
    }
}

/// The identifier that a value of a foreign key is.
pub(crate) fn identifier_in(value: &Value, rows: u32) -> u32
    requires among { is_row_among rows (value_of value.now) ≡ true }
    ensures number { value_of value.now ≡ Number (pos result) }
{
    match value {
        Value::Int(number) => *number as u32,
        Value::Null | Value::Chars(_) => unreachable!(),
    }
}
