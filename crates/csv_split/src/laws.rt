//! Why a table can be read as soon as its file is there, before the later files are, how many bytes an image has, and what stays
//! as it was where columns may be NULL afterwards.

ghost use Rattle.csv_split.specs.ImageLengths.{ImagesHaveTheirBytes};
ghost use Rattle.csv_split.specs.ReadingOrder.{FilesAreReadInOrder};
ghost use Rattle.csv_split.specs.Widened.{WidenedSchemasKeepDatabases};

/// A table read by `read_table` and put at the end of `Tables` adds its own faults and rows: what `read_tables` answers
/// over all files is put together from `read_table` file by file and, in the end, `check_references`.
pub fn files_are_read_in_order()
    ensures { FilesAreReadInOrder }
{}

/// An image has the bytes of its catalog, and for each row of a table those of its visible columns: as many as
/// `visible_image` reserves for it.
pub fn images_have_their_bytes()
    ensures { ImagesHaveTheirBytes }
{}

/// Where some columns may be NULL afterwards, a database is one of the later schema too, with the same two parts. So `Public` and
/// `Hidden` of a catalog are used as they are under one of the later schema: what is made of them goes by their values, in
/// whatever form the cells lie in memory.
pub fn widened_schemas_keep_databases()
    ensures { WidenedSchemasKeepDatabases }
{}
