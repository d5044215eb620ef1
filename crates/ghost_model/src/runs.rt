//! Laws of runs of records on pages.

ghost use Rattle.ghost_model.specs.laws.RunLaws.{RunsAreKept, RecordsAreKept, PartsOfRecords, NumbersAreRead, IdentifiersOfRecords};

/// A run is kept where its pages are the same.
pub fn runs_are_kept()
    ensures { RunsAreKept }
{}

/// So are its records alone.
pub fn records_are_kept()
    ensures { RecordsAreKept }
{}

/// Where a part of a record stands in its page.
pub fn parts_of_records()
    ensures { PartsOfRecords }
{}

/// A number is read as it is written.
pub fn numbers_are_read()
    ensures { NumbersAreRead }
{}

/// The identifiers of a run are those with which its records begin.
pub fn identifiers_of_records()
    ensures { IdentifiersOfRecords }
{}
