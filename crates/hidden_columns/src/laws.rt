//! Laws of column files.

ghost use Rattle.hidden_columns.specs.Laws.{ColumnsGiveValues, HeldColumnsAreRight, FilesAreOfColumns, FilesStayReadable};

/// Where pages hold the hidden columns of a database, the slot of each row spells the row's value.
pub fn columns_give_values()
    ensures values { ColumnsGiveValues }
{
    ghost_model::flash::hidden_parts_go_with_catalogs();
    ghost_model::flash::column_files_give_values();
    ghost_model::flash::hidden_values_of_databases();
}

/// Where pages hold the hidden columns, a slot that spells a value has that of its row.
pub fn held_columns_are_right()
    ensures right { HeldColumnsAreRight }
{
    ghost_model::flash::column_files_give_values();
}

/// The slot of a file of a column is that of the column.
pub fn files_are_of_columns()
    ensures same { FilesAreOfColumns }
{}

/// A file stays readable as long as the device has as many pages.
pub fn files_stay_readable()
    ensures readable { FilesStayReadable }
{}
