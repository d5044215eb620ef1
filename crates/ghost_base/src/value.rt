//! Values, and their order.

ghost use Rattle.std.specs.Prelude.{◌≡◌, pos};
ghost use Rattle.ghost_model.specs.core.Database.{order_of};
ghost use Rattle.ghost_model.specs.core.Values.{is_null};
ghost use Rattle.ghost_base.specs.Views.{value_of};

use crate::Text64;
use std::cmp::Ordering;

/// A value of a column.
///
/// NULL comes first. Integers are ordered as numbers and texts by their bytes, a prefix before the longer text. An integer
/// comes before a text, though no column holds both.
#[derive(Clone, Copy, PartialEq, Eq, PartialOrd, Ord)]
pub enum Value {
    /// NULL: that there is no value.
    Null,

    /// A 64-bit signed integer.
    Int(i64),

    /// A text.
    Chars(Text64),
}

impl Value {
    /// Whether this is NULL.
    pub fn is_null(&self) -> bool
        ensures { result ≡ is_null (value_of self.now) }
    {
        matches!(self, Value::Null)
    }
}

impl Default for Value {
    ghost use Rattle.ghost_base.specs.declared.value.Value.TheVariants.{Int};

    ghost is_default = { λ value. value ≡ Int (pos 0) };

    fn default() -> Self {
        Value::Int(0)
    }
}

/// The order of two values, which is that of their `Ord`. NULL is equal to NULL here; whether an operator holds between
/// them is another question (`Operator::holds`).
pub fn compare(a: &Value, b: &Value) -> Ordering
    ensures { result ≡ order_of (value_of a.now) (value_of b.now) }
{
    a.cmp(b)
}
