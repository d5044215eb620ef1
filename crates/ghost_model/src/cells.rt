//! Examples of cells, schemas and catalogs, and the laws of cells.

ghost use Rattle.ghost_model.specs.examples.Cells.{CellsOfValues, CellsOfNullOrValues, CellsThatSpellNothing, OrderOfNullCells, TreeOfTheClinic, CatalogsOfDatabases};

/// The cells of telling values, and what bytes spell no value.
pub fn cells_of_values()
    ensures { CellsOfValues }
{}

/// The cells of values and of NULL in columns that may be NULL.
pub fn cells_of_null_or_values()
    ensures { CellsOfNullOrValues }
{}

/// Bytes that spell no value in columns that may be NULL.
pub fn cells_that_spell_nothing()
    ensures { CellsThatSpellNothing }
{}

/// The cell of NULL is below all other cells of its column.
pub fn order_of_null_cells()
    ensures { OrderOfNullCells }
{}

/// Parents and children of the clinic's tables.
pub fn tree_of_the_clinic()
    ensures { TreeOfTheClinic }
{}

/// Canonical texts and catalogs of the worked databases.
pub fn catalogs_of_databases()
    ensures { CatalogsOfDatabases }
{}
