//! The rows of a table, from the records of its file.

ghost use Rattle.std.specs.Prelude.{◌≡◌, ◌≤◌, ◌+◌, ◌∷◌, [], length, map, drop, get_or, pos, OnOk, Err, IfErr};
ghost use Rattle.csv.specs.Records.{fields_of};
ghost use Rattle.ghost_model.specs.laws.LoadLaws as load_laws;
ghost use Rattle.ghost_model.specs.core.Database as database;
ghost use Rattle.ghost_model.specs.refusals.LoadFaults as faults;
ghost use Rattle.ghost_model.specs.core.Values.{Number};
ghost use Rattle.csv_split.specs.Faults.{told};
ghost use Rattle.csv_split.specs.Reading.{AreOfKinds, AtMost, columns_of, with_identifier, with_row};
ghost use Rattle.csv_split.specs.Tables.{column_values};
ghost use Rattle.csv_split.specs.Wants.{NeverWants, WantsForField};

use crate::cells::Cells;
use crate::faults::{LoadFault, Place};
use crate::fields::is_number;
use csv::ByteRecord;
use ghost_base::limits::MAX_ROWS;
use tree_schema::Column;

/// A field of a record by its place, and the empty one where there is none.
#[tactic(auto, using(crate::proofs::FieldPlaces::some_field, crate::proofs::FieldPlaces::no_field))]
pub(crate) fn field_of(row: &ByteRecord, place: usize) -> &[u8]
    ensures { result.now ≡ get_or (fields_of row.now) place [] }
{
    match row.get(place) {
        Some(field) => field,
        None => &[],
    }
}

/// Judges the record of the row with a number but for the fields after its identifier: whether the table may have so many
/// rows, the number of the fields, and the identifier.
fn judge_row(table: u8, number: u32, declared: &[Column], row: &ByteRecord) -> Result<(), LoadFault>
    requires { number ≤ faults.most_rows + 1 }
    ensures broken { IfErr result (λ fault. load_laws.TellsFirst (told fault) (faults.row_faults table number (with_identifier (columns_of declared.now)) (fields_of row.now))) }
    ensures kept { OnOk result (faults.row_faults table number (with_identifier (columns_of declared.now)) (fields_of row.now)
        ≡ faults.field_faults table (number + 1) 1 (columns_of declared.now) (drop 1 (fields_of row.now))) }
    ensures few { OnOk result (number ≤ faults.most_rows) }
    ensures width { OnOk result (length (fields_of row.now) ≡ length declared.now + 1) }
    ensures identifier { OnOk result (database.row_spelled (with_identifier (columns_of declared.now)) (fields_of row.now) ≡ Number (pos number) ∷ database.row_spelled (columns_of declared.now) (drop 1 (fields_of row.now))) }
    ensures tells { NeverWants result }
{
    let at = Place {
        table,
        rec: number + 1,
        column: 0,
    };
    if number > MAX_ROWS {
        return Err(LoadFault::RowLimit(at));
    }
    if row.len() != declared.len() + 1 {
        return Err(LoadFault::FieldCount(at));
    }
    if !is_number(number as usize, field_of(row, 0)) {
        return Err(LoadFault::BadId(at));
    }
    Ok(())
}

/// Puts the values of the row with a number at the ends of the columns, unless its record breaks a rule.
pub(crate) fn take_row(
    table: u8,
    number: u32,
    declared: &[Column],
    row: &ByteRecord,
    columns: &mut [Cells],
) -> Result<(), LoadFault>
    requires number { number ≤ faults.most_rows + 1 }
    requires few { length declared.now ≤ 23 }
    requires kinds { AreOfKinds (columns_of declared.now) columns.old }
    requires room { AtMost faults.most_rows (column_values columns.old) }
    ensures judged { load_laws.Judges told result (faults.row_faults table number (with_identifier (columns_of declared.now)) (fields_of row.now)) }
    ensures memory { result ≡ Err LoadFault.NoMemory → WantsForField table (number + 1) (columns_of declared.now) (fields_of row.now) }
    ensures memory_last { result ≡ Err LoadFault.NoMemory → faults.row_faults table number (with_identifier (columns_of declared.now)) (fields_of row.now)
        ≡ faults.field_faults table (number + 1) 1 (columns_of declared.now) (drop 1 (fields_of row.now)) }
    ensures values { OnOk result (column_values columns.new ≡ with_row (column_values columns.old) (database.row_spelled (columns_of declared.now) (drop 1 (fields_of row.now)))) }
    ensures kinds { AreOfKinds (columns_of declared.now) columns.new }
    ensures identifier { OnOk result (database.row_spelled (with_identifier (columns_of declared.now)) (fields_of row.now) ≡ Number (pos number) ∷ database.row_spelled (columns_of declared.now) (drop 1 (fields_of row.now))) }
{
    let at = Place {
        table,
        rec: number + 1,
        column: 0,
    };
    judge_row(table, number, declared, row)?;
    take_fields(at, declared, row, columns)
}

/// Puts the values of a record's fields after the first at the ends of the columns, unless a field breaks its column's
/// rule.
fn take_fields(
    at: Place,
    declared: &[Column],
    row: &ByteRecord,
    columns: &mut [Cells],
) -> Result<(), LoadFault>
    requires few { length declared.now ≤ 23 }
    requires width { length (fields_of row.now) ≡ length declared.now + 1 }
    requires kinds { AreOfKinds (columns_of declared.now) columns.old }
    requires room { AtMost faults.most_rows (column_values columns.old) }
    ensures judged { load_laws.Judges told result (faults.field_faults at.table at.rec 1 (columns_of declared.now) (drop 1 (fields_of row.now))) }
    ensures memory { result ≡ Err LoadFault.NoMemory → WantsForField at.table at.rec (columns_of declared.now) (fields_of row.now) }
    ensures values { OnOk result (column_values columns.new ≡ with_row (column_values columns.old) (database.row_spelled (columns_of declared.now) (drop 1 (fields_of row.now)))) }
    ensures kinds { AreOfKinds (columns_of declared.now) columns.new }
{
    for i in 0..columns.len() {
        let field_at = Place {
            column: (i + 1) as u8,
            ..at
        };
        columns[i].take(field_at, field_of(row, i + 1))?;
    }
    Ok(())
}
