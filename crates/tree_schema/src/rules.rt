//! The rules of the tables that a text declares.

ghost use Rattle.std.specs.Prelude.{◌≡◌, ◌≢◌, ℕ, ◌≤◌, Bool, true, false, List, length, map, find, bytes_eq, position, slice_get, ◌==◌, ◌&&◌, option_map, Some, MatchOption};
ghost use Rattle.std.specs.List.{list_any};
ghost use Rattle.ghost_model.specs.laws.ShortWords as short;
ghost use Rattle.ghost_model.specs.refusals.Tokens as tokens;
ghost use Rattle.ghost_model.specs.refusals.SchemaMeaning as meaning;
ghost use Rattle.ghost_model.specs.refusals.SchemaMeaning.{columns_written};
ghost use Rattle.ghost_model.specs.core.Schema.{places_of};
ghost use Rattle.ghost_model.specs.refusals.SchemaFaults as faults;
ghost use Rattle.tree_schema.specs.Drafts.{column_of, table_of};
ghost use Rattle.tree_schema.specs.Faults.{field_at, field_of, refused, fault_of_texts};

use crate::SchemaFault;
use crate::syntax::{ColumnDraft, TableDraft};
use crate::tokens::is_word;
use ghost_base::limits::{MAX_NAME, MAX_TABLES};

/// The number that digits write, where a CHAR may have this length.
pub(crate) fn length_of(digits: &[u8]) -> Option<u8>
    ensures value { MatchOption result (tokens.is_between 1 64 (tokens.number_of digits.now) ≡ false) (λ most. (most ≡ tokens.number_of digits.now) × (tokens.is_between 1 64 (tokens.number_of digits.now) ≡ true)) }
{
    let mut number = 0u8;
    for digit in digits {
        let more = number as u32 * 10 + digit.saturating_sub(b'0') as u32;
        if more > 64 {
            return None;
        }
        number = more as u8;
    }
    if number == 0 { None } else { Some(number) }
}

/// Whether a column is beyond the limits.
fn is_column_over(column: &ColumnDraft) -> bool
    ensures over { result ≡ faults.is_column_over (column_of column.now) }
{
    match *column {
        ColumnDraft::Chars(name, digits, _, _) => name.len() > MAX_NAME
            || length_of(digits).is_none(),
        ColumnDraft::Integer(name, _, reference, _) => match reference {
            None => name.len() > MAX_NAME,
            Some(to) => name.len() > MAX_NAME || to.table.len() > MAX_NAME,
        },
        ColumnDraft::IntegerOrNull(name, _) => name.len() > MAX_NAME,
    }
}

/// Whether one of the columns is beyond the limits.
fn is_one_over(columns: &[ColumnDraft]) -> bool
    ensures over { result ≡ list_any (λ column. faults.is_column_over (column_of column)) columns.now }
{
    for column in columns {
        if is_column_over(column) {
            return true;
        }
    }
    false
}

/// Whether a table is beyond the limits.
fn is_table_over(table: &TableDraft) -> bool
    ensures over { result ≡ faults.is_table_over (table_of table.now) }
{
    if table.name.len() > MAX_NAME {
        return true;
    }
    if is_column_over(&table.first) {
        return true;
    }
    is_one_over(&table.others)
}

/// Whether one of the tables is beyond the limits.
fn is_one_table_over(tables: &[TableDraft]) -> bool
    ensures over { result ≡ list_any (λ table. faults.is_table_over (table_of table)) tables.now }
{
    tables.iter().any(|table| is_table_over(table))
}

/// Whether the tables are beyond the limits.
fn is_over(tables: &[TableDraft]) -> bool
    ensures over { result ≡ faults.is_over (map table_of tables.now) }
{
    tables.len() > MAX_TABLES || is_one_table_over(tables)
}

/// Whether a column is the identifier, without REFERENCES, NULL and HIDDEN.
fn is_identifier(column: &ColumnDraft) -> bool
    ensures identifier { result ≡ faults.is_identifier (column_of column.now) }
{
    match *column {
        ColumnDraft::Chars(_, _, _, _) => false,
        ColumnDraft::Integer(name, primary, reference, hidden) => match reference {
            None => primary && !hidden && is_word(name, b"id"),
            Some(_) => false,
        },
        ColumnDraft::IntegerOrNull(_, _) => false,
    }
}

/// Whether a column has PRIMARY KEY.
fn is_primary(column: &ColumnDraft) -> bool
    ensures primary { result ≡ faults.is_primary (column_of column.now) }
{
    match *column {
        ColumnDraft::Chars(_, _, _, _) => false,
        ColumnDraft::Integer(_, primary, _, _) => primary,
        ColumnDraft::IntegerOrNull(_, _) => false,
    }
}

/// Whether one of the columns has PRIMARY KEY.
fn is_one_primary(columns: &[ColumnDraft]) -> bool
    ensures primary { result ≡ list_any (λ column. faults.is_primary (column_of column)) columns.now }
{
    columns.iter().any(|column| is_primary(column))
}

/// Whether a table does not begin with its one identifier.
fn lacks_id(table: &TableDraft) -> bool
    ensures lacks { result ≡ faults.table_lacks_id (Some (table_of table.now)) }
{
    !is_identifier(&table.first) || is_one_primary(&table.others)
}

/// Whether the table at a place does not begin with its one identifier.
fn lacks_id_at(tables: &[TableDraft], place: usize) -> bool
    ensures lacks { result ≡ short.lacks_id (map table_of tables.now) place }
{
    match tables.get(place) {
        None => false,
        Some(table) => lacks_id(table),
    }
}

/// The first table that does not begin with its one identifier.
fn first_without_id(tables: &[TableDraft]) -> Option<usize>
    ensures first { result ≡ find (short.lacks_id (map table_of tables.now)) (places_of (map table_of tables.now)) }
{
    for place in 0..tables.len() {
        if lacks_id_at(tables, place) {
            return Some(place);
        }
    }
    None
}

/// Whether one of the tables has this name.
fn has_table(tables: &[TableDraft], name: &[u8]) -> bool
    ensures has { result ≡ list_any (λ table. bytes_eq (tokens.in_lower_case name.now) (tokens.in_lower_case table.name.now)) tables.now }
{
    for table in tables {
        if is_word(name, table.name) {
            return true;
        }
    }
    false
}

/// Whether an earlier table has the name of the table at a place.
fn table_repeats(tables: &[TableDraft], place: usize) -> bool
    ensures repeats { result ≡ short.table_repeats (map table_of tables.now) place }
{
    match tables.get(place) {
        None => false,
        Some(table) => has_table(&tables[..place], table.name),
    }
}

/// The name of a column, as it is written.
pub(crate) fn column_name<'a>(column: ColumnDraft<'a>) -> &'a [u8]
    ensures name { tokens.in_lower_case result.now ≡ faults.declared_name (column_of column.entry) }
{
    match column {
        ColumnDraft::Chars(name, _, _, _) => name,
        ColumnDraft::Integer(name, _, _, _) => name,
        ColumnDraft::IntegerOrNull(name, _) => name,
    }
}

/// Whether one of the columns has this name.
fn has_column(columns: &[ColumnDraft], name: &[u8]) -> bool
    ensures has { result ≡ list_any (λ column. bytes_eq (tokens.in_lower_case name.now) (faults.declared_name (column_of column))) columns.now }
{
    for column in columns {
        if is_word(name, column_name(*column)) {
            return true;
        }
    }
    false
}

/// Whether an earlier column of a table has the name of the column at a place.
fn column_repeats(table: &TableDraft, place: usize) -> bool
    ensures repeats { result ≡ faults.repeats (map faults.declared_name (columns_written (table_of table.now))) place }
{
    if place == 0 {
        return false;
    }
    match table.others.get(place - 1) {
        None => false,
        Some(column) => {
            let name = column_name(*column);
            if is_word(name, column_name(table.first)) {
                return true;
            }
            has_column(&table.others[..place - 1], name)
        }
    }
}

/// Whether column 0 stands for a table's name that an earlier table has.
fn name_repeats(tables: &[TableDraft], table: usize, column: usize) -> bool
    ensures repeats { result ≡ (column == 0 && short.table_repeats (map table_of tables.now) table) }
{
    if column > 0 {
        return false;
    }
    table_repeats(tables, table)
}

/// Whether the name of a column stands at an earlier one of its table, or, for column 0, that of the table at an earlier
/// table.
fn is_duplicate(tables: &[TableDraft], table: usize, column: usize) -> bool
    ensures duplicate { result ≡ faults.is_duplicate (map table_of tables.now) (field_at table column) }
{
    match tables.get(table) {
        None => false,
        Some(found) => {
            if name_repeats(tables, table, column) {
                return true;
            }
            column_repeats(found, column)
        }
    }
}

/// The place of the first table whose name is a word.
fn place_of_word(tables: &[TableDraft], name: &[u8]) -> Option<usize>
    ensures place { result ≡ position (λ table. bytes_eq (tokens.in_lower_case name.now) (tokens.in_lower_case table.name.now)) tables.now }
{
    tables.iter().position(|table| is_word(name, table.name))
}

/// The place of the first table with this name.
pub(crate) fn place_named(tables: &[TableDraft], name: &[u8]) -> Option<usize>
    ensures place { result ≡ meaning.declared_table (map table_of tables.now) (tokens.in_lower_case name.now) }
{
    place_of_word(tables, name)
}

/// Whether a column's REFERENCES names no table.
fn refers_nowhere(tables: &[TableDraft], column: ColumnDraft) -> bool
    ensures nowhere { result ≡ faults.refers_nowhere (map table_of tables.now) (Some (column_of column.entry)) }
{
    match column {
        ColumnDraft::Chars(_, _, _, _) => false,
        ColumnDraft::Integer(_, _, reference, _) => match reference {
            None => false,
            Some(to) => place_named(tables, to.table).is_none(),
        },
        ColumnDraft::IntegerOrNull(_, _) => false,
    }
}

/// A column of a table by its place.
fn column_at<'a>(table: &TableDraft<'a>, place: usize) -> Option<ColumnDraft<'a>>
    ensures column { option_map column_of result ≡ slice_get (columns_written (table_of table.now)) place }
{
    if place == 0 {
        return Some(table.first);
    }
    match table.others.get(place - 1) {
        None => None,
        Some(column) => Some(*column),
    }
}

/// Whether the REFERENCES of a column names no table.
fn is_unknown(tables: &[TableDraft], table: usize, column: usize) -> bool
    ensures unknown { result ≡ short.is_unknown (map table_of tables.now) (field_at table column) }
{
    match tables.get(table) {
        None => false,
        Some(found) => match column_at(found, column) {
            None => false,
            Some(draft) => refers_nowhere(tables, draft),
        },
    }
}

/// The number of columns of a table, and 0 where there is no such table.
fn columns_len(tables: &[TableDraft], table: usize) -> usize
    ensures count { result ≡ length (faults.columns_at (slice_get (map table_of tables.now) table)) }
{
    match tables.get(table) {
        None => 0,
        Some(found) => found.others.len() + 1,
    }
}

/// The first column of a table that repeats a name.
fn first_duplicate_in(tables: &[TableDraft], table: usize) -> Option<usize>
    ensures first { result ≡ find (λ column. faults.is_duplicate (map table_of tables.now) (field_at table column)) (places_of (faults.columns_at (slice_get (map table_of tables.now) table))) }
{
    for column in 0..columns_len(tables, table) {
        if is_duplicate(tables, table, column) {
            return Some(column);
        }
    }
    None
}

/// The first table and column that repeat a name.
fn first_duplicate(tables: &[TableDraft]) -> Option<(usize, usize)>
    ensures first { option_map field_of result ≡ find (faults.is_duplicate (map table_of tables.now)) (faults.fields (map table_of tables.now)) }
{
    for table in 0..tables.len() {
        if let Some(column) = first_duplicate_in(tables, table) {
            return Some((table, column));
        }
    }
    None
}

/// The first column of a table whose REFERENCES names no table.
fn first_unknown_in(tables: &[TableDraft], table: usize) -> Option<usize>
    ensures first { result ≡ find (λ column. short.is_unknown (map table_of tables.now) (field_at table column)) (places_of (faults.columns_at (slice_get (map table_of tables.now) table))) }
{
    for column in 0..columns_len(tables, table) {
        if is_unknown(tables, table, column) {
            return Some(column);
        }
    }
    None
}

/// The first table and column whose REFERENCES names no table.
fn first_unknown(tables: &[TableDraft]) -> Option<(usize, usize)>
    ensures first { option_map field_of result ≡ find (short.is_unknown (map table_of tables.now)) (faults.fields (map table_of tables.now)) }
{
    for table in 0..tables.len() {
        if let Some(column) = first_unknown_in(tables, table) {
            return Some((table, column));
        }
    }
    None
}

/// Tests the rules that speak of the text alone: the limits, then the names, then the identifiers, then the references.
pub(crate) fn check_texts(tables: &[TableDraft]) -> Result<(), SchemaFault>
    ensures refused { refused result ≡ fault_of_texts (map table_of tables.now) }
{
    if is_over(tables) {
        return Err(SchemaFault::Limit);
    }
    if let Some((table, column)) = first_duplicate(tables) {
        return Err(SchemaFault::DuplicateName { table, column });
    }
    if let Some(table) = first_without_id(tables) {
        return Err(SchemaFault::NoId { table });
    }
    if let Some((table, column)) = first_unknown(tables) {
        return Err(SchemaFault::UnknownTable { table, column });
    }
    Ok(())
}
