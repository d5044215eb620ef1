//! What is tested of a value.

ghost use Rattle.std.specs.Prelude.{◌≡◌, Some};
ghost use Rattle.ghost_model.specs.core.Meaning.{meets_test};
ghost use Rattle.ghost_base.specs.Views.{test_of, value_of};

use crate::operator::Operator;
use crate::value::Value;

/// What is tested of a value of a column.
#[derive(Clone, Copy, Default)]
pub enum Test {
    /// That an operator holds between it and a literal.
    Compared(Operator, Value),

    /// That it is NULL.
    #[default]
    IsNull,

    /// That it is not NULL.
    IsNotNull,
}

impl Test {
    /// Whether a value meets the test. NULL meets no comparison.
    pub fn meets(&self, value: &Value) -> bool
        ensures met { result ≡ meets_test (test_of self.now) (Some (value_of value.now)) }
    {
        match self {
            Test::Compared(operator, literal) => operator.holds(value, literal),
            Test::IsNull => value.is_null(),
            Test::IsNotNull => !value.is_null(),
        }
    }
}
