//! The plans.

use crate::form::Form;

/// How a text is answered.
#[derive(Clone, Copy, Drop)]
pub enum Plan {
    /// Row by row of the top table, each value read where it lies.
    Scan,
    /// By the indexes: the rows of the top table that meet the conditions on hidden columns and identifiers are gathered first, and
    /// these alone are looked at, row by row. Lower tables are linked with them by the form that is forced, or else each by the form
    /// that is chosen for it.
    Linked(Option<Form>),
}
