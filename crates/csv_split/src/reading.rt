//! A table from its file, record by record.

ghost use Rattle.std.specs.Prelude.{◌≡◌, ◌≤◌, ◌⊎◌, ◌&&◌, [], map, drop, Err, IfOk, IfErr, OnOk};
ghost use Rattle.csv.specs.Records.{fields_of};
ghost use Rattle.ghost_model.specs.laws.LoadLaws as load_laws;
ghost use Rattle.ghost_model.specs.core.Database as database;
ghost use Rattle.ghost_model.specs.refusals.LoadFaults as faults;
ghost use Rattle.csv_split.specs.Faults.{told};
ghost use Rattle.csv_split.specs.Reading.{AreColumns, AreOfKinds, HaveAll, columns_of, with_identifier};
ghost use Rattle.csv_split.specs.Tables.{column_values, rows_in};
ghost use Rattle.csv_split.specs.Wants.{NeverWants, WantsForRow};

use crate::cells::Cells;
use crate::faults::{LoadFault, Place};
use crate::header::is_header;
use crate::records::Records;
use crate::rows::take_row;
use crate::table::Table;
use csv::ByteRecord;
use ghost_base::limits::MAX_CSV;
use std::alloc::{AllocError, Global};
use tree_schema::Column;

/// The table that a file spells, unless the file breaks a rule. `declared` are the table's columns after its identifier.
pub(crate) fn read_rows(
    alloc: Global,
    table: u8,
    declared: &[Column],
    file: &[u8],
) -> Result<Table, LoadFault>
    requires { AreColumns (columns_of declared.now) }
    ensures judged { load_laws.Judges told result (faults.file_faults table (with_identifier (columns_of declared.now)) file.now) }
    ensures rows { IfOk result (λ read. read ≡ database.rows_spelled (with_identifier (columns_of declared.now)) file.now) }
{
    if file.len() > MAX_CSV {
        return Err(LoadFault::FileLimit(Place {
            table,
            rec: 0,
            column: 0,
        }));
    }
    let mut records = Records::open(alloc, file);
    let mut row = ByteRecord::new(alloc);
    take_header(table, declared, &mut records, &mut row)?;
    let Ok(mut columns) = empty_columns(alloc, declared) else {
        return Err(LoadFault::NoMemory);
    };
    let rows = take_rows(table, declared, &mut records, &mut row, &mut columns)?;
    Ok(Table::of(rows, columns))
}

/// Judges the first record of a table's file, where there is one.
fn judge_header(
    table: u8,
    declared: &[Column],
    found: bool,
    row: &ByteRecord,
) -> Result<(), LoadFault>
    requires { AreColumns (columns_of declared.now) }
    ensures judged { load_laws.Judges told result (faults.unless (found && faults.is_header (with_identifier (columns_of declared.now)) (fields_of row.now)) (faults.Header (faults.place table 1 0))) }
    ensures tells { NeverWants result }
{
    if !found || !is_header(declared, row) {
        return Err(LoadFault::Header(Place {
            table,
            rec: 1,
            column: 0,
        }));
    }
    Ok(())
}

/// Takes the header of a table's file.
fn take_header(
    table: u8,
    declared: &[Column],
    records: &mut Records<'_>,
    row: &mut ByteRecord,
) -> Result<(), LoadFault>
    requires { AreColumns (columns_of declared.now) }
    ensures judged { IfErr result (λ fault. load_laws.TellsFirst (told fault) (faults.record_faults table (with_identifier (columns_of declared.now)) records.old)) }
    ensures faults { OnOk result (faults.record_faults table (with_identifier (columns_of declared.now)) records.old ≡ faults.rows_faults table 1 (with_identifier (columns_of declared.now)) records.new) }
    ensures left { OnOk result (drop 1 records.old ≡ records.new) }
{
    let Ok(found) = records.read(row) else {
        return Err(LoadFault::NoMemory);
    };
    judge_header(table, declared, found, row)
}

/// Columns without values.
fn empty_columns(alloc: Global, declared: &[Column]) -> Result<Vec<Cells>, AllocError>
    requires { AreColumns (columns_of declared.now) }
    ensures kinds { IfOk result (λ columns. AreOfKinds (columns_of declared.now) columns.items) }
    ensures none { IfOk result (λ columns. HaveAll 0 (column_values columns.items)) }
{
    let mut columns = Vec::new(alloc);
    for column in declared {
        let Ok(()) = columns.push(Cells::new(alloc, column.kind)) else {
            return Err(AllocError);
        };
    }
    Ok(columns)
}

/// Puts the rows that the records left spell at the ends of columns without values, and answers their number.
fn take_rows(
    table: u8,
    declared: &[Column],
    records: &mut Records<'_>,
    row: &mut ByteRecord,
    columns: &mut [Cells],
) -> Result<u32, LoadFault>
    requires declared { AreColumns (columns_of declared.now) }
    requires kinds { AreOfKinds (columns_of declared.now) columns.old }
    requires none { HaveAll 0 (column_values columns.old) }
    ensures judged { load_laws.Judges told result (faults.rows_faults table 1 (with_identifier (columns_of declared.now)) records.old) }
    ensures memory { result ≡ Err LoadFault.NoMemory → (records.new ≡ []) ⊎ WantsForRow table (columns_of declared.now) records.old records.new }
    ensures rows { IfOk result (λ count. rows_in count (column_values columns.new) ≡ map (database.row_spelled (with_identifier (columns_of declared.now))) records.old) }
    ensures few { IfOk result (λ count. count ≤ faults.most_rows) }
    ensures all { IfOk result (λ count. HaveAll count (column_values columns.new)) }
{
    let mut count = 0;
    loop {
        let Ok(found) = records.read(row) else {
            return Err(LoadFault::NoMemory);
        };
        if !found {
            return Ok(count);
        }
        take_row(table, count + 1, declared, row, columns)?;
        count += 1;
    }
}
