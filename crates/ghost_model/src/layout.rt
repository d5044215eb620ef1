//! Examples and laws of the layout of the flash.

ghost use Rattle.ghost_model.specs.laws.LayoutLaws.{FilesFollow, FollowingRunsStandApart, FilesLieAsSummed, FilesLieInOrder, AreasAreWholeBlocks, RecordsStandWithin, CatalogsAreLimited, LayoutIsSmall, LevelsAreAncestors, SumsByPlace};
ghost use Rattle.ghost_model.specs.examples.Layout.{LayoutOfTheClinic, LayoutAtVersionOne, PublicPages, RowsAndRoom, LayoutOfTheNotes, LayoutsOfLargerDatabases};

/// Files and areas follow one another.
pub fn files_follow()
    ensures { FilesFollow }
{}

/// Runs that follow one another share no page.
pub fn following_runs_stand_apart()
    ensures { FollowingRunsStandApart }
{}

/// What a program adds up to find the first page of a file gives its place.
pub fn files_lie_as_summed()
    ensures { FilesLieAsSummed }
{}

/// Where the files of tables and columns lie to one another, and that they lie on the device.
pub fn files_lie_in_order()
    ensures { FilesLieInOrder }
{}

/// The areas of spool and scratch and those for appended rows begin at blocks, and a device is of whole blocks.
pub fn areas_are_whole_blocks()
    ensures { AreasAreWholeBlocks }
{}

/// Each record of a run stands on the run's pages, whole.
pub fn records_stand_within()
    ensures { RecordsStandWithin }
{}

/// A catalog is within the limits.
pub fn catalogs_are_limited()
    ensures { CatalogsAreLimited }
{}

/// Within the limits records fit pages, and a device has less than 2^30 pages.
pub fn layout_is_small()
    ensures { LayoutIsSmall }
{}

/// Sums over the places before one.
pub fn sums_by_place()
    ensures { SumsByPlace }
{}

/// The levels of a table are the tables on its way up to the root.
pub fn levels_are_ancestors()
    ensures { LevelsAreAncestors }
{}

/// Where each file and area of the clinic lies.
pub fn layout_of_the_clinic()
    ensures { LayoutOfTheClinic }
{}

/// Where they lie at version 1.
pub fn layout_at_version_one()
    ensures { LayoutAtVersionOne }
{}

/// Which pages are public, at both versions.
pub fn public_pages()
    ensures { PublicPages }
{}

/// How many rows there are, and for how many there is room.
pub fn rows_and_room()
    ensures { RowsAndRoom }
{}

/// Where each file and area of the notes lies.
pub fn layout_of_the_notes()
    ensures { LayoutOfTheNotes }
{}

/// Where the parts of two larger databases lie.
pub fn layouts_of_larger_databases()
    ensures { LayoutsOfLargerDatabases }
{}
