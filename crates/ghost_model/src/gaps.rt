//! Laws and examples of identifier lists as gaps.

ghost use Rattle.ghost_model.specs.laws.GapLaws.{CodesAreRead, LevelListsHaveCodes, ListsBeginAtCodes, CodesAreReadFromPages, LevelFilesFit};
ghost use Rattle.ghost_model.specs.examples.Gaps.{GapExamples};

/// A code is read as its number, whatever stands behind it.
pub fn codes_are_read()
    ensures { CodesAreRead }
{}

/// Lists of identifiers of a level have a code for each identifier.
pub fn level_lists_have_codes()
    ensures { LevelListsHaveCodes }
{}

/// A list that has an identifier begins where its first code stands.
pub fn lists_begin_at_codes()
    ensures { ListsBeginAtCodes }
{}

/// From pages that store a level file each code is read at its place, and the next one behind it.
pub fn codes_are_read_from_pages()
    ensures { CodesAreReadFromPages }
{}

/// A level file ends at least 512 bytes before its room does.
pub fn level_files_fit()
    ensures { LevelFilesFit }
{}

/// Codes, small level files and readings of them, computed.
pub fn examples_of_gaps()
    ensures { GapExamples }
{}
