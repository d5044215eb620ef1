//! Examples of what plans read, and of damage there.

ghost use Rattle.candidate_gathering.specs.known.Examples.{FilesReadOverTheClinic, DamageInAnIndex};

/// Examples: the files that plans read for texts over the clinic.
pub fn files_read_over_the_clinic()
    ensures { FilesReadOverTheClinic }
{}

/// Examples: a damaged slot in an index, for a text that reads it and for one that does not.
pub fn damage_in_an_index()
    ensures { DamageInAnIndex }
{}
