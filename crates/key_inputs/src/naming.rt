//! The names of a schema and the value of a field, put into a fault of a table's file.

ghost use Rattle.std.specs.Prelude.{◌≡◌, [], true, false, Some, None, IfSome};
ghost use Rattle.ghost_model.specs.core.Database.{records_of};
ghost use Rattle.csv_split.specs.declared.faults.LoadFault.TheVariants as load_fault;
ghost use Rattle.csv_split.specs.Faults.{told};
ghost use Rattle.key_inputs.specs.Naming.{HasNoLine, IsAt, IsFieldNamedBy, IsIn, IsNamedBy, IsRecordNamedBy, OfField, OfKey, OfRecord, OfTable, ShowsField, ShowsKey, TellsLine, child_name_at, column_name_at, field_place, name_of_child, record_place, shown, tells_empty};
ghost use Rattle.key_inputs.specs.Views.{name_at, rule_in, rule_or};

use crate::broken_table::{BrokenTable, FieldNamed, RecordNamed};
use crate::faults::{InputFault, OpenFault};
use crate::field_values::{field_in, value_in};
use crate::file_lines::{line_of_record, spells_none};
use crate::shown::Shown;
use csv_split::{LoadFault, Place, Tables};
use std::alloc::Global;
use tree_schema::Schema;

/// What a fault of a table's file is to the input. The file shows the value that breaks the rule.
pub(crate) fn fault_of_file(
    alloc: Global,
    schema: &Schema,
    file: &[u8],
    fault: LoadFault,
) -> OpenFault
    ensures rule { rule_in result ≡ rule_or (told fault) }
    ensures not_depot { result ≡ OpenFault.Depot → ⊥ }
    ensures names { OfTable (IsNamedBy schema.now) result }
    ensures value { OfTable (OfField (ShowsField file.now)) result }
    ensures line { OfTable (OfRecord (TellsLine file.now)) result }
    ensures empty { tells_empty result ≡ true → records_of file.now ≡ [] }
{
    if let Some(at) = empty_at(alloc, file, &fault) {
        let record = record_named(schema, at, None);
        return OpenFault::Input(InputFault::Table(BrokenTable::Empty(record)));
    }
    let line = line_of_fault(alloc, file, &fault);
    match place_of(&fault) {
        Some(at) => with_names(schema, fault, field_in(alloc, file, &at), line),
        None => with_names(schema, fault, Shown::Unread, line),
    }
}

/// Where the header is missing, if that is the fault and the file is found to spell no record.
fn empty_at(alloc: Global, file: &[u8], fault: &LoadFault) -> Option<Place>
    ensures header { IfSome result (λ at. fault.now ≡ load_fault.Header at) }
    ensures empty { IfSome result (λ _. records_of file.now ≡ []) }
{
    match fault {
        LoadFault::Header(at) if spells_none(alloc, file) => Some(*at),
        _ => None,
    }
}

/// What a fault of the foreign keys of tables is to the input, told with the number of its record and no line: no file is at hand
/// then. The tables show the key that breaks the rule.
pub(crate) fn fault_of_keys(schema: &Schema, tables: &Tables, fault: LoadFault) -> OpenFault
    ensures rule { rule_in result ≡ rule_or (told fault) }
    ensures not_depot { result ≡ OpenFault.Depot → ⊥ }
    ensures names { OfTable (IsNamedBy schema.now) result }
    ensures value { OfTable (OfKey (ShowsKey tables.now)) result }
    ensures line { OfTable HasNoLine result }
{
    match place_of(&fault) {
        Some(at) => with_names(schema, fault, value_in(tables, &at), None),
        None => with_names(schema, fault, Shown::Unread, None),
    }
}

/// The line of a file on which the record of a fault begins.
fn line_of_fault(alloc: Global, file: &[u8], fault: &LoadFault) -> Option<u32>
    ensures line { (at : Place) → record_place fault.now ≡ Some at → TellsLine file.now at result }
{
    match record_of(fault) {
        Some(at) => line_of_record(alloc, file, at.rec),
        None => None,
    }
}

/// Where the record of a fault stands.
fn record_of(fault: &LoadFault) -> Option<Place>
    ensures place { result ≡ record_place fault.now }
{
    match fault {
        LoadFault::Header(at) | LoadFault::RowLimit(at) | LoadFault::FieldCount(at) => Some(*at),
        _ => place_of(fault),
    }
}

/// Where one field breaks the rule of its column.
fn place_of(fault: &LoadFault) -> Option<Place>
    ensures place { result ≡ field_place fault.now }
{
    match fault {
        LoadFault::BadId(at)
        | LoadFault::BadInt(at)
        | LoadFault::BadChars(at)
        | LoadFault::BadReference(at) => Some(*at),
        _ => None,
    }
}

/// A fault with the names of a schema, with the value of the field that breaks the rule, where it is one field's, and with
/// the line of its record.
fn with_names(schema: &Schema, fault: LoadFault, value: Shown, line: Option<u32>) -> OpenFault
    ensures rule { rule_in result ≡ rule_or (told fault) }
    ensures not_depot { result ≡ OpenFault.Depot → ⊥ }
    ensures names { OfTable (IsNamedBy schema.now) result }
    ensures field { OfTable (OfField (IsAt fault value)) result }
    ensures key { OfTable (OfKey (IsAt fault value)) result }
    ensures line { OfTable (OfRecord (IsIn fault line)) result }
    ensures not_empty { tells_empty result ≡ false }
{
    let broken = match fault {
        LoadFault::NoMemory => return OpenFault::NoMemory,
        LoadFault::FileLimit(at) => BrokenTable::FileLimit(record_named(schema, at, line)),
        LoadFault::Header(at) => BrokenTable::Header(record_named(schema, at, line)),
        LoadFault::RowLimit(at) => BrokenTable::RowLimit(record_named(schema, at, line)),
        LoadFault::FieldCount(at) => BrokenTable::FieldCount(record_named(schema, at, line)),
        LoadFault::BadId(at) => {
            let field = field_named(schema, at, line);
            BrokenTable::BadId { field, value }
        }
        LoadFault::BadInt(at) => {
            let field = field_named(schema, at, line);
            BrokenTable::BadInt { field, value }
        }
        LoadFault::BadChars(at) => {
            let field = field_named(schema, at, line);
            BrokenTable::BadChars { field, value }
        }
        LoadFault::BadReference(at) => {
            let field = field_named(schema, at, line);
            let child = child_name(schema, &at);
            BrokenTable::BadReference {
                field,
                child,
                value,
            }
        }
    };
    OpenFault::Input(InputFault::Table(broken))
}

/// A record with the name of its table and its line.
fn record_named(schema: &Schema, at: Place, line: Option<u32>) -> RecordNamed
    ensures place { result.at ≡ at }
    ensures line { result.line ≡ line }
    ensures name { IsRecordNamedBy schema.now result }
{
    let table = table_name(schema, usize::from(at.table));
    RecordNamed { at, table, line }
}

/// A field with the names of its table and its column, and the line of its record.
fn field_named(schema: &Schema, at: Place, line: Option<u32>) -> FieldNamed
    ensures place { result.at ≡ at }
    ensures line { result.line ≡ line }
    ensures names { IsFieldNamedBy schema.now result }
{
    let table = table_name(schema, usize::from(at.table));
    let column = column_name(schema, &at);
    FieldNamed {
        at,
        table,
        column,
        line,
    }
}

/// The name of a table, empty where there is no such table.
pub(crate) fn table_name(schema: &Schema, table: usize) -> Shown
    ensures name { result ≡ shown (name_at schema.now table) }
{
    match schema.table(table) {
        Some(found) => Shown::of(&found.name),
        None => Shown::of(&[]),
    }
}

/// The name of the column at a place, empty where there is no such column.
fn column_name(schema: &Schema, at: &Place) -> Shown
    ensures name { result ≡ shown (column_name_at schema.now at.now.table at.now.column) }
{
    match schema.column(usize::from(at.table), usize::from(at.column)) {
        Some(found) => Shown::of(&found.name),
        None => Shown::of(&[]),
    }
}

/// The name of the table that the foreign key at a place names, empty where there is none.
fn child_name(schema: &Schema, at: &Place) -> Shown
    ensures name { result ≡ shown (child_name_at schema.now at.now.table at.now.column) }
{
    match schema.column(usize::from(at.table), usize::from(at.column)) {
        Some(found) => key_name(schema, found.child),
        None => Shown::of(&[]),
    }
}

/// The name of the table that a foreign key names, empty where there is none.
fn key_name(schema: &Schema, child: Option<u8>) -> Shown
    ensures name { result ≡ shown (name_of_child schema.now child) }
{
    match child {
        Some(table) => table_name(schema, usize::from(table)),
        None => Shown::of(&[]),
    }
}
