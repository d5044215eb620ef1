//! The operators between a column and a literal.

ghost use Rattle.std.specs.Prelude.{◌≡◌};
ghost use Rattle.ghost_model.specs.core.Database as database;
ghost use Rattle.ghost_base.specs.Views.{operator_of, value_of};

use crate::value::{Value, compare};
use std::cmp::Ordering;

/// An operator of a condition.
#[derive(Clone, Copy, Default)]
pub enum Operator {
    /// `=`.
    #[default]
    Equal,

    /// `<>`.
    Unequal,

    /// `<`.
    Less,

    /// `<=`.
    AtMost,

    /// `>`.
    More,

    /// `>=`.
    AtLeast,
}

impl Operator {
    /// Whether an order of two values meets the operator between them.
    pub fn meets(self, order: Ordering) -> bool
        ensures met { result ≡ database.meets (operator_of self) order }
    {
        match self {
            Operator::Equal => order.is_eq(),
            Operator::Unequal => order.is_ne(),
            Operator::Less => order.is_lt(),
            Operator::AtMost => order.is_le(),
            Operator::More => order.is_gt(),
            Operator::AtLeast => order.is_ge(),
        }
    }

    /// Whether the operator holds between two values, a column's first. No operator holds where either is NULL.
    pub fn holds(self, left: &Value, right: &Value) -> bool
        ensures held { result ≡ database.holds (operator_of self) (value_of left.now) (value_of right.now) }
    {
        !left.is_null() && !right.is_null() && self.meets(compare(left, right))
    }
}
