//! The laws of level files.

ghost use Rattle.index_files.specs.Laws.{FilesOfTables};

/// Level files with an identifier for each row of some tables, told by the tables in place of the levels.
pub fn level_files_of_tables()
    ensures tables { FilesOfTables }
{}
