//! Examples and laws of what the flash holds.

ghost use Rattle.ghost_model.specs.laws.FlashLaws.{HiddenValuesByPlace, HiddenPartsGoWithCatalogs, HiddenCellsFit, HiddenCellsOfDatabases, RowsLeadByHiddenValues, HiddenValuesOfDatabases, ColumnFilesGiveValues, HoldingsAreKept, RecordsAreAsWide};
ghost use Rattle.ghost_model.specs.laws.WorkLaws.{PagesAddUp, ValuesAreCounted};
ghost use Rattle.ghost_model.specs.laws.ListLaws.{ListsPartition, IdListsPartition, ListsAscend};
ghost use Rattle.ghost_model.specs.examples.Slots.{RangesOfSlots, OrderOfSlots, DamagedSlots};
ghost use Rattle.ghost_model.specs.examples.Flash.{CellsOfTheClinic, IndexesOfTheClinic, HoldingsOfTheClinic, FreshDevices, PagesOfTheClinic};

/// Where a row of the hidden part has the value of a hidden column.
pub fn hidden_values_by_place()
    ensures { HiddenValuesByPlace }
{}

/// The hidden part of a database goes with its catalog.
pub fn hidden_parts_go_with_catalogs()
    ensures { HiddenPartsGoWithCatalogs }
{}

/// The cells of such a part are as many as rows, as wide as their column, and read as its values.
pub fn hidden_cells_fit()
    ensures { HiddenCellsFit }
{}

/// The cells of the hidden part of a database are those of its values.
pub fn hidden_cells_of_databases()
    ensures { HiddenCellsOfDatabases }
{}

/// Its values are the database's.
pub fn hidden_values_of_databases()
    ensures { HiddenValuesOfDatabases }
{}

/// Where pages hold the column files, the record of each row reads as its value.
pub fn column_files_give_values()
    ensures { ColumnFilesGiveValues }
{}

/// The distinct cells of a hidden column are as many as its values.
pub fn values_are_counted()
    ensures { ValuesAreCounted }
{}

/// The pages that a loading writes add up, table by table.
pub fn pages_add_up()
    ensures { PagesAddUp }
{}

/// Static files, the catalog, the gate and the headers are held as long as their pages stay.
pub fn holdings_are_kept()
    ensures { HoldingsAreKept }
{}

/// The records of subtree key tables and directories are as wide as the layout says.
pub fn records_are_as_wide()
    ensures { RecordsAreAsWide }
{}

/// The lists of a level of a climbing index have each row of its table once.
pub fn lists_partition()
    ensures { ListsPartition }
{}

/// So have those of an id index.
pub fn id_lists_partition()
    ensures { IdListsPartition }
{}

/// Each of these lists ascends, and all have together at most as many identifiers as rows.
pub fn lists_ascend()
    ensures { ListsAscend }
{}

/// Rows lead to the same rows by the hidden part of a database as by the whole.
pub fn rows_lead_by_hidden_values()
    ensures { RowsLeadByHiddenValues }
{}

/// The column files of the clinic.
pub fn cells_of_the_clinic()
    ensures { CellsOfTheClinic }
{}

/// Its subtree key table and its indexes.
pub fn indexes_of_the_clinic()
    ensures { IndexesOfTheClinic }
{}

/// All its pages hold it, and do not with a byte changed.
pub fn holdings_of_the_clinic()
    ensures { HoldingsOfTheClinic }
{}

/// The gate and the headers of devices that were just loaded.
pub fn fresh_devices()
    ensures { FreshDevices }
{}

/// Some of its pages, pages that do not hold it, and how many pages are built.
pub fn pages_of_the_clinic()
    ensures { PagesOfTheClinic }
{}

/// What slots may hold by themselves.
pub fn ranges_of_slots()
    ensures { RangesOfSlots }
{}

/// What they may hold after those before them.
pub fn order_of_slots()
    ensures { OrderOfSlots }
{}

/// Slots that are damaged.
pub fn damaged_slots()
    ensures { DamagedSlots }
{}
