//! The parts of a query text as they are written: names and literals by their bytes in the text.

use ghost_base::Operator;

/// A column, alone or after its table.
#[derive(Clone, Copy)]
pub(crate) enum ColumnDraft<'a> {
    Bare(&'a [u8]),
    Qualified(&'a [u8], &'a [u8]),
}

#[derive(Clone, Copy)]
pub(crate) enum Sign {
    Positive,
    Negative,
}

/// A number by its digits, with or without a sign, or a text literal with its quotes.
#[derive(Clone, Copy)]
pub(crate) enum LiteralDraft<'a> {
    Unsigned(&'a [u8]),
    Signed(Sign, &'a [u8]),
    Written(&'a [u8]),
}

/// A test of a column: by a literal, or that it is NULL or, where that is negated, is not.
#[derive(Clone, Copy)]
pub(crate) enum TestDraft<'a> {
    Compares(ColumnDraft<'a>, Operator, LiteralDraft<'a>),
    TestsNull(ColumnDraft<'a>, bool),
}

/// A part of a condition: a test and whether another one of its group follows, a column between two literals, or two
/// columns that are equal. IN is a test of equality with each of its literals.
#[derive(Clone, Copy)]
pub(crate) enum PieceDraft<'a> {
    Tests(TestDraft<'a>, bool),
    LiesBetween(ColumnDraft<'a>, LiteralDraft<'a>, LiteralDraft<'a>),
    Joins(ColumnDraft<'a>, ColumnDraft<'a>),
}

/// One thing that a text names: all columns, a selected column, a table or a part of a condition.
#[derive(Clone, Copy)]
pub(crate) enum Item<'a> {
    Star,
    Selected(ColumnDraft<'a>),
    From(&'a [u8]),
    Where(PieceDraft<'a>),
}
