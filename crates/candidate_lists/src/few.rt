//! How many identifiers lists have at most.

ghost use Rattle.std.specs.Prelude.{◌^◌, ◌<◌};
ghost use Rattle.candidate_lists.specs.Few.{ListIsFew, ListsAreFew, UnionIsFew};

/// A law: no ascending list of identifiers that are each in one of some lists is longer than all of them together. So a list that a
/// merge or many lists were written as has no more identifiers than there are.
pub fn lists_are_few()
    ensures lists { ListsAreFew }
    ensures list { ListIsFew }
    ensures union { UnionIsFew }
{}

/// A law: a number of rows fits four bytes.
pub(crate) fn rows_are_few(rows: u32)
    ensures few { rows < 2 ^ 32 }
{}
