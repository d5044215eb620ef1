//! Examples of what the relations leave out.

ghost use Rattle.ghost_model.specs.examples.NonMembers.{JournalsThatAreNotProper, JournalsThatAreNotFinished, JournalsOfOtherHosts, LinesThatNoSessionGives, RowsThatAreNoDatabase, SlotsThatAreNotDamaged};

/// Journals with a move that is not the next one.
pub fn journals_that_are_not_proper()
    ensures { JournalsThatAreNotProper }
{}

/// Journals that do not end with Close.
pub fn journals_that_are_not_finished()
    ensures { JournalsThatAreNotFinished }
{}

/// Sessions with a host that is not honest, and with one that is not in the key's own process.
pub fn journals_of_other_hosts()
    ensures { JournalsOfOtherHosts }
{}

/// Lines that a text has after no session with its journal.
pub fn lines_that_no_session_gives()
    ensures { LinesThatNoSessionGives }
{}

/// Lists of rows that are no database of the clinic's schema.
pub fn rows_that_are_no_database()
    ensures { RowsThatAreNoDatabase }
{}

/// Slots that are not damaged, on whole pages and beside a damaged one.
pub fn slots_that_are_not_damaged()
    ensures { SlotsThatAreNotDamaged }
{}
