//! The header of a table's file.

ghost use Rattle.std.specs.Prelude.{◌≡◌, ◌≤◌, bytes_eq, length};
ghost use Rattle.csv.specs.Records.{fields_of};
ghost use Rattle.ghost_model.specs.refusals.LoadFaults as faults;
ghost use Rattle.ghost_model.specs.refusals.Tokens.{in_lower_case};
ghost use Rattle.csv_split.specs.Reading.{AreColumns, columns_of, with_identifier};

use crate::rows::field_of;
use csv::ByteRecord;
use tree_schema::Column;

/// Whether a record names the columns of a table in order, without regard to case.
pub(crate) fn is_header(declared: &[Column], row: &ByteRecord) -> bool
    requires { AreColumns (columns_of declared.now) }
    ensures { result ≡ faults.is_header (with_identifier (columns_of declared.now)) (fields_of row.now) }
{
    if row.len() != declared.len() + 1 {
        return false;
    }
    if !names(b"id", field_of(row, 0)) {
        return false;
    }
    for (i, column) in declared.iter().enumerate() {
        if !names(&column.name, field_of(row, i + 1)) {
            return false;
        }
    }
    true
}

/// Whether a field is a column's name, without regard to case.
fn names(name: &[u8], field: &[u8]) -> bool
    requires { in_lower_case name.now ≡ name.now }
    ensures { result ≡ bytes_eq (in_lower_case field.now) name.now }
{
    field.eq_ignore_ascii_case(name)
}
