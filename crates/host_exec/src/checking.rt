//! Whether the rows of the visible file spell values.

ghost use Rattle.std.specs.Prelude.{◌≡◌, ◌≤◌, ◌<◌, ◌+◌, ◌*◌, ◌^◌, ℕ, List, Some, None, true, false, length, map, take, drop, IfOk, MatchBool, MatchOption, ⊤, All, is_ok};
ghost use Rattle.std.specs.List.{list_all};
ghost use Rattle.ghost_model.specs.core.Causes.{HasCause};
ghost use Rattle.ghost_base.specs.Views.{kind_of};
ghost use Rattle.edge_traits.specs.Files.{file_of};
ghost use Rattle.host_exec.specs.RowBytes.{data_columns};
ghost use Rattle.host_exec.specs.Holdings.{AreStarts};
ghost use Rattle.host_exec.specs.Checked.{SpellsRow, shown_kinds, is_narrow, GoodRows, BadRow, GoodTable, BadTable};

use crate::filling::fill;
use crate::form::row_width;
use crate::piece::{PIECE_BYTES, rows_of_piece};
use crate::turning::{rows_of, start_of};
use arrayvec::ArrayVec;
use channel_codec::ask::kind_at;
use channel_codec::bytes::{behind, front};
use edge_traits::Failed;
use edge_traits::depot::Depot;
use ghost_base::limits::MAX_COLUMNS;
use ghost_base::{Kind, cell_width, decode_cell};
use tree_schema::schema::schemas_are_trees;
use tree_schema::{Catalog, Schema};

/// Whether bytes are the cells of one value of each of these kinds.
fn is_row(kinds: &[Kind], row: &[u8]) -> bool
    requires narrow { list_all is_narrow (map kind_of kinds.now) ≡ true }
    ensures good { result ≡ true → SpellsRow (map kind_of kinds.now) row.now }
    ensures bad { result ≡ false → SpellsRow (map kind_of kinds.now) row.now → ⊥ }
{
    let mut rest = kinds;
    let mut bytes = row;
    'kinds: while let Some((kind, later)) = rest.split_first() {
        let width = cell_width(*kind);
        let cell = front(bytes, width);
        match decode_cell(*kind, cell) {
            None => return false,
            Some(_) => {}
        }
        bytes = behind(bytes, width);
        rest = later;
    }
    bytes.is_empty()
}

/// Whether each of so many rows of a width has the cells of one value of each of these kinds.
fn are_rows(kinds: &[Kind], width: usize, count: u32, piece: &[u8]) -> bool
    requires narrow { list_all is_narrow (map kind_of kinds.now) ≡ true }
    ensures good { result ≡ true → (row : ℕ) → row < count → SpellsRow (map kind_of kinds.now) (take width (drop (row * width) piece.now)) }
    ensures bad { result ≡ false → (row : ℕ) × (row < count) × (SpellsRow (map kind_of kinds.now) (take width (drop (row * width) piece.now)) → ⊥) }
{
    let mut passed = 0;
    let mut rest = piece;
    'rows: while passed < count {
        if !is_row(kinds, front(rest, width)) {
            return false;
        }
        rest = behind(rest, width);
        passed += 1;
    }
    true
}

/// The kinds of the visible columns of a table.
pub fn kinds_of(schema: &Schema, table: usize) -> ArrayVec<Kind, MAX_COLUMNS>
    ensures kinds { map kind_of result.items ≡ shown_kinds (data_columns schema.now table) }
    ensures narrow { list_all is_narrow (map kind_of result.items) ≡ true }
{
    let _ = schema.tables();
    schemas_are_trees();
    let columns = schema.columns(table);
    let mut kinds = ArrayVec::new();
    let mut at = 1;
    'columns: while at < columns {
        if schema.is_visible(table, at) {
            let kind = kind_at(schema, table, at);
            kinds.push(kind);
        }
        at += 1;
    }
    kinds
}

/// Whether the next piece of the rows of a table, in the file, spells values: the row to go on at, or `None` where one
/// of them does not.
fn check_piece<D: Depot>(
    kinds: &[Kind],
    width: usize,
    depot: &mut D,
    name: &str,
    start: u64,
    next: u32,
    rows: u32,
) -> Result<Option<u32>, Failed>
    requires kinds { list_all is_narrow (map kind_of kinds.now) ≡ true }
    requires next { next < rows }
    requires few { rows ≤ 1_000_000 }
    requires narrow { width ≤ 1560 }
    requires start { start < 2 ^ 63 }
    ensures cause { HasCause (D.faults depot.old) (D.faults depot.new) result }
    ensures appends { D.append_faults depot.new ≡ D.append_faults depot.old }
    ensures same { D.contents depot.new ≡ D.contents depot.old }
    ensures goes_well { D.sure depot.old name.now → is_ok result ≡ true }
    ensures stays_sure { D.sure depot.old name.now → D.sure depot.new name.now }
    ensures goes_on { IfOk result (λ later. MatchOption later ⊤ (λ n. (next < n) × (n ≤ rows))) }
    ensures checked { IfOk result (λ later. (file : List ℕ) → file_of (D.contents depot.old) name.now ≡ Some file
        → MatchOption later (BadRow (map kind_of kinds.now) file start width rows) (λ n. GoodRows (map kind_of kinds.now) file start width next n)) }
{
    let count = rows_of_piece(width, rows - next);
    let mut places = [0; PIECE_BYTES];
    let (piece, _rest) = places.split_at_mut(count as usize * width);
    let at = start + next as u64 * width as u64;
    fill(depot, name, at, piece)?;
    if are_rows(kinds, width, count, piece) {
        Ok(Some(next + count))
    } else {
        Ok(None)
    }
}

/// Whether the rows of a table in the file spell values.
fn check_rows<D: Depot>(
    kinds: &[Kind],
    width: usize,
    depot: &mut D,
    name: &str,
    start: u64,
    rows: u32,
) -> Result<bool, Failed>
    requires kinds { list_all is_narrow (map kind_of kinds.now) ≡ true }
    requires few { rows ≤ 1_000_000 }
    requires narrow { width ≤ 1560 }
    requires start { start < 2 ^ 63 }
    ensures cause { HasCause (D.faults depot.old) (D.faults depot.new) result }
    ensures appends { D.append_faults depot.new ≡ D.append_faults depot.old }
    ensures same { D.contents depot.new ≡ D.contents depot.old }
    ensures goes_well { D.sure depot.old name.now → is_ok result ≡ true }
    ensures stays_sure { D.sure depot.old name.now → D.sure depot.new name.now }
    ensures checked { IfOk result (λ good. (file : List ℕ) → file_of (D.contents depot.old) name.now ≡ Some file
        → MatchBool good (GoodRows (map kind_of kinds.now) file start width 0 rows) (BadRow (map kind_of kinds.now) file start width rows)) }
{
    let mut next = 0;
    'pieces: while next < rows {
        match check_piece(kinds, width, depot, name, start, next, rows)? {
            None => return Ok(false),
            Some(later) => next = later,
        }
    }
    Ok(true)
}

/// Whether the rows of a table, by its place in the catalog, spell values.
fn check_table<D: Depot>(
    catalog: &Catalog,
    starts: &[u64],
    table: usize,
    depot: &mut D,
    name: &str,
) -> Result<bool, Failed>
    requires near { All (λ start. start < 2 ^ 63) starts.now }
    requires starts { AreStarts catalog.now starts.now }
    requires table { table < length catalog.now.schema }
    ensures cause { HasCause (D.faults depot.old) (D.faults depot.new) result }
    ensures appends { D.append_faults depot.new ≡ D.append_faults depot.old }
    ensures same { D.contents depot.new ≡ D.contents depot.old }
    ensures goes_well { D.sure depot.old name.now → is_ok result ≡ true }
    ensures stays_sure { D.sure depot.old name.now → D.sure depot.new name.now }
    ensures checked { IfOk result (λ good. (file : List ℕ) → file_of (D.contents depot.old) name.now ≡ Some file
        → MatchBool good (GoodTable catalog.now file table) (BadTable catalog.now file table)) }
{
    let kinds = kinds_of(catalog.schema(), table);
    let width = row_width(catalog.schema(), table);
    let start = start_of(starts, table);
    let rows = rows_of(catalog, table);
    check_rows(&kinds, width, depot, name, start, rows)
}

/// Whether the rows of all tables of the catalog spell values.
pub fn check_tables<D: Depot>(
    catalog: &Catalog,
    starts: &[u64],
    depot: &mut D,
    name: &str,
) -> Result<bool, Failed>
    requires near { All (λ start. start < 2 ^ 63) starts.now }
    requires starts { AreStarts catalog.now starts.now }
    ensures cause { HasCause (D.faults depot.old) (D.faults depot.new) result }
    ensures appends { D.append_faults depot.new ≡ D.append_faults depot.old }
    ensures same { D.contents depot.new ≡ D.contents depot.old }
    ensures goes_well { D.sure depot.old name.now → is_ok result ≡ true }
    ensures stays_sure { D.sure depot.old name.now → D.sure depot.new name.now }
    ensures checked { IfOk result (λ good. (file : List ℕ) → file_of (D.contents depot.old) name.now ≡ Some file
        → MatchBool good ((table : ℕ) → table < length catalog.now.schema → GoodTable catalog.now file table)
        ((table : ℕ) × (table < length catalog.now.schema) × BadTable catalog.now file table)) }
{
    let tables = catalog.schema().tables();
    let mut table = 0;
    'tables: while table < tables {
        if !check_table(catalog, starts, table, depot, name)? {
            return Ok(false);
        }
        table += 1;
    }
    Ok(true)
}

/// Whether a file has so many bytes, which are some.
pub fn ends_at<D: Depot>(depot: &mut D, name: &str, end: u64) -> Result<bool, Failed>
    requires { 0 < end }
    ensures cause { HasCause (D.faults depot.old) (D.faults depot.new) result }
    ensures appends { D.append_faults depot.new ≡ D.append_faults depot.old }
    ensures same { D.contents depot.new ≡ D.contents depot.old }
    ensures goes_well { D.sure depot.old name.now → is_ok result ≡ true }
    ensures stays_sure { D.sure depot.old name.now → D.sure depot.new name.now }
    ensures ends { IfOk result (λ there. (file : List ℕ) → file_of (D.contents depot.old) name.now ≡ Some file
        → MatchBool there (length file ≡ end) (length file ≡ end → ⊥)) }
{
    let mut byte = [0];
    let last = depot.read_at(name, end - 1, &mut byte)?;
    if last == 0 {
        return Ok(false);
    }
    let past = depot.read_at(name, end, &mut byte)?;
    Ok(past == 0)
}
