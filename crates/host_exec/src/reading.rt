//! How the public part is read from the visible file by one who has its catalog.

ghost use Rattle.std.specs.Prelude.{◌≡◌, ◌≤◌, ◌<◌, ◌-◌, ◌+◌, ◌*◌, ◌^◌, ℕ, List, Some, Err, true, length, map, IfOk, IfErr, OnOk, MatchBool, All, is_ok};
ghost use Rattle.std.specs.List.{list_all};
ghost use Rattle.ghost_model.specs.core.Causes.{HasCause, Rose};
ghost use Rattle.ghost_model.specs.core.Split as split;
ghost use Rattle.ghost_model.specs.forms.Catalog.{catalog_bytes};
ghost use Rattle.ghost_base.specs.Views.{kind_of};
ghost use Rattle.edge_traits.specs.Files.{file_of};
ghost use Rattle.host_exec.specs.RowBytes.{window, table_start};
ghost use Rattle.host_exec.specs.Holdings.{AreStarts};
ghost use Rattle.host_exec.specs.Checked.{BadRow, BadTable, IsNoImageOf, is_narrow};
ghost use Rattle.host_exec.specs.Columns.{AreColumns};
ghost use Rattle.host_exec.specs.Reading.{HasForm, ReadCause, ReadsRows, ReadsTable, ReadsTables, SomeBadTable};

use crate::begin::check_file;
use crate::checking::kinds_of;
use crate::columns::{Columns, no_rows, take_rows};
use crate::filling::fill;
use crate::form::row_width;
use crate::piece::{PIECE_BYTES, rows_of_piece};
use crate::places::{Places, places_of};
use crate::turning::{rows_of, start_of};
use csv_split::{Part, Public};
use edge_traits::Failed;
use edge_traits::depot::Depot;
use ghost_base::Kind;
use ghost_base::limits::MAX_COLUMNS;
use std::alloc::{AllocError, Global};
use tree_schema::catalog_bytes::{MAX_CATALOG, a_catalog_is_short};
use tree_schema::{Catalog, catalog_len, is_catalog_part};

/// Why a public part was not read.
#[derive(Clone, Copy, Debug)]
pub enum ReadPublicFault {
    /// The depot failed, which its count of faults shows.
    Depot,
    /// The bytes of the file are no visible image of the catalog.
    BadVisibleFile,
    /// There was no memory for the values.
    NoMemory,
}

impl From<AllocError> for ReadPublicFault {
    ghost use Rattle.host_exec.specs.declared.reading.ReadPublicFault.TheVariants.{NoMemory};

    ghost from_gives = { λ _ fault. fault ≡ NoMemory };

    fn from(_error: AllocError) -> ReadPublicFault {
        ReadPublicFault::NoMemory
    }
}

impl From<Failed> for ReadPublicFault {
    ghost use Rattle.host_exec.specs.declared.reading.ReadPublicFault.TheVariants.{Depot};

    ghost from_gives = { λ _ fault. fault ≡ Depot };

    fn from(_error: Failed) -> ReadPublicFault {
        ReadPublicFault::Depot
    }
}

/// Whether a file begins with the bytes of a catalog.
fn begins_with<D: Depot>(depot: &mut D, name: &str, cat: &Catalog) -> Result<bool, Failed>
    ensures cause { HasCause (D.faults depot.old) (D.faults depot.new) result }
    ensures appends { D.append_faults depot.new ≡ D.append_faults depot.old }
    ensures same { D.contents depot.new ≡ D.contents depot.old }
    ensures goes_well { D.sure depot.old name.now → is_ok result ≡ true }
    ensures stays_sure { D.sure depot.old name.now → D.sure depot.new name.now }
    ensures begins { IfOk result (λ there. (file : List ℕ) → file_of (D.contents depot.old) name.now ≡ Some file
        → MatchBool there (window file 0 (length (catalog_bytes cat.now)) ≡ catalog_bytes cat.now)
        (window file 0 (length (catalog_bytes cat.now)) ≡ catalog_bytes cat.now → ⊥)) }
{
    let mut places = [0; MAX_CATALOG];
    let (head, _rest) = places.split_at_mut(catalog_len(cat) as usize);
    fill(depot, name, 0, head)?;
    Ok(is_catalog_part(cat, 0, head))
}

/// Whether a file is the visible image of a public part under a catalog.
fn is_image<D: Depot>(
    depot: &mut D,
    name: &str,
    cat: &Catalog,
    places: &Places,
) -> Result<bool, Failed>
    requires starts { AreStarts cat.now places.now.starts.items }
    requires near { All (λ start. start < 2 ^ 63) places.now.starts.items }
    requires end { places.now.end ≡ table_start cat.now (length cat.now.schema) }
    ensures cause { HasCause (D.faults depot.old) (D.faults depot.new) result }
    ensures appends { D.append_faults depot.new ≡ D.append_faults depot.old }
    ensures same { D.contents depot.new ≡ D.contents depot.old }
    ensures goes_well { D.sure depot.old name.now → is_ok result ≡ true }
    ensures stays_sure { D.sure depot.old name.now → D.sure depot.new name.now }
    ensures image { IfOk result (λ good. (file : List ℕ) → file_of (D.contents depot.old) name.now ≡ Some file
        → MatchBool good (HasForm cat.now file) (IsNoImageOf cat.now file)) }
{
    if !begins_with(depot, name, cat)? {
        return Ok(false);
    }
    check_file(depot, name, cat, places)
}

/// Takes the next piece of the rows of a table from the file.
fn read_piece<D: Depot>(
    kinds: &[Kind],
    width: usize,
    depot: &mut D,
    name: &str,
    start: u64,
    rows: u32,
    columns: &mut Columns,
) -> Result<(), ReadPublicFault>
    requires narrow { list_all is_narrow (map kind_of kinds.now) ≡ true }
    requires few_kinds { length kinds.now ≤ MAX_COLUMNS }
    requires columns { AreColumns (map kind_of kinds.now) columns.old }
    requires next { columns.old.rows < rows }
    requires few { rows ≤ 1_000_000 }
    requires width { width ≤ 1560 }
    requires start { start < 2 ^ 63 }
    ensures cause { ReadCause (D.faults depot.old) (D.faults depot.new) result }
    ensures appends { D.append_faults depot.new ≡ D.append_faults depot.old }
    ensures same { D.contents depot.new ≡ D.contents depot.old }
    ensures goes_well { D.sure depot.old name.now → result ≡ Err ReadPublicFault.Depot → ⊥ }
    ensures stays_sure { D.sure depot.old name.now → D.sure depot.new name.now }
    ensures columns { OnOk result (AreColumns (map kind_of kinds.now) columns.new) }
    ensures goes_on { OnOk result (columns.old.rows < columns.new.rows) }
    ensures within { OnOk result (columns.new.rows ≤ rows) }
    ensures read { OnOk result (ReadsRows (D.contents depot.old) name.now (map kind_of kinds.now) (start + columns.old.rows * width)
        ((columns.new.rows - columns.old.rows) * width) (columns.new.rows - columns.old.rows) columns.old columns.new) }
    ensures bad { result ≡ Err ReadPublicFault.BadVisibleFile → (file : List ℕ) → file_of (D.contents depot.old) name.now ≡ Some file
        → BadRow (map kind_of kinds.now) file start width rows }
{
    let count = rows_of_piece(width, rows - columns.rows);
    let mut places = [0; PIECE_BYTES];
    let (piece, _rest) = places.split_at_mut(count as usize * width);
    let at = start + columns.rows as u64 * width as u64;
    fill(depot, name, at, piece)?;
    if take_rows(kinds, width, count, piece, columns)? {
        Ok(())
    } else {
        Err(ReadPublicFault::BadVisibleFile)
    }
}

/// Takes the rows of a table from the file.
fn read_rows<D: Depot>(
    kinds: &[Kind],
    width: usize,
    depot: &mut D,
    name: &str,
    start: u64,
    rows: u32,
    columns: &mut Columns,
) -> Result<(), ReadPublicFault>
    requires narrow { list_all is_narrow (map kind_of kinds.now) ≡ true }
    requires few_kinds { length kinds.now ≤ MAX_COLUMNS }
    requires columns { AreColumns (map kind_of kinds.now) columns.old }
    requires none { columns.old.rows ≡ 0 }
    requires few { rows ≤ 1_000_000 }
    requires width { width ≤ 1560 }
    requires start { start < 2 ^ 63 }
    ensures cause { ReadCause (D.faults depot.old) (D.faults depot.new) result }
    ensures appends { D.append_faults depot.new ≡ D.append_faults depot.old }
    ensures same { D.contents depot.new ≡ D.contents depot.old }
    ensures goes_well { D.sure depot.old name.now → result ≡ Err ReadPublicFault.Depot → ⊥ }
    ensures stays_sure { D.sure depot.old name.now → D.sure depot.new name.now }
    ensures columns { OnOk result (AreColumns (map kind_of kinds.now) columns.new) }
    ensures read { OnOk result (ReadsRows (D.contents depot.old) name.now (map kind_of kinds.now) start (rows * width) rows columns.old columns.new) }
    ensures bad { result ≡ Err ReadPublicFault.BadVisibleFile → (file : List ℕ) → file_of (D.contents depot.old) name.now ≡ Some file
        → BadRow (map kind_of kinds.now) file start width rows }
{
    'pieces: while columns.rows < rows {
        read_piece(kinds, width, depot, name, start, rows, columns)?;
    }
    Ok(())
}

/// The visible columns of a table, by its place in the catalog.
fn read_table<D: Depot>(
    alloc: Global,
    cat: &Catalog,
    starts: &[u64],
    table: usize,
    depot: &mut D,
    name: &str,
) -> Result<Part, ReadPublicFault>
    requires near { All (λ start. start < 2 ^ 63) starts.now }
    requires starts { AreStarts cat.now starts.now }
    requires table { table < length cat.now.schema }
    ensures cause { ReadCause (D.faults depot.old) (D.faults depot.new) result }
    ensures appends { D.append_faults depot.new ≡ D.append_faults depot.old }
    ensures same { D.contents depot.new ≡ D.contents depot.old }
    ensures goes_well { D.sure depot.old name.now → result ≡ Err ReadPublicFault.Depot → ⊥ }
    ensures stays_sure { D.sure depot.old name.now → D.sure depot.new name.now }
    ensures read { IfOk result (λ part. ReadsTable (D.contents depot.old) name.now cat.now table part) }
    ensures bad { result ≡ Err ReadPublicFault.BadVisibleFile → (file : List ℕ) → file_of (D.contents depot.old) name.now ≡ Some file
        → BadTable cat.now file table }
{
    let kinds = kinds_of(cat.schema(), table);
    let width = row_width(cat.schema(), table);
    let start = start_of(starts, table);
    let rows = rows_of(cat, table);
    let mut columns = no_rows(alloc, &kinds)?;
    read_rows(&kinds, width, depot, name, start, rows, &mut columns)?;
    Ok(Part::of(rows, columns.cells))
}

/// The visible columns of all tables of the catalog.
fn read_tables<D: Depot>(
    alloc: Global,
    cat: &Catalog,
    starts: &[u64],
    depot: &mut D,
    name: &str,
) -> Result<Public, ReadPublicFault>
    requires near { All (λ start. start < 2 ^ 63) starts.now }
    requires starts { AreStarts cat.now starts.now }
    ensures cause { ReadCause (D.faults depot.old) (D.faults depot.new) result }
    ensures appends { D.append_faults depot.new ≡ D.append_faults depot.old }
    ensures same { D.contents depot.new ≡ D.contents depot.old }
    ensures goes_well { D.sure depot.old name.now → result ≡ Err ReadPublicFault.Depot → ⊥ }
    ensures stays_sure { D.sure depot.old name.now → D.sure depot.new name.now }
    ensures read { IfOk result (λ public. ReadsTables (D.contents depot.old) name.now cat.now (length cat.now.schema) public.visible) }
    ensures bad { result ≡ Err ReadPublicFault.BadVisibleFile → (file : List ℕ) → file_of (D.contents depot.old) name.now ≡ Some file
        → SomeBadTable cat.now file }
{
    let tables = cat.schema().tables();
    let mut public = Public::new(alloc);
    let mut table = 0;
    'tables: while table < tables {
        let part = read_table(alloc, cat, starts, table, depot, name)?;
        public.push(part)?;
        table += 1;
    }
    Ok(public)
}

/// The public part of which the visible file `name` is the image under a catalog, of whichever version that is. The file is read
/// through once before memory is taken. Where the depot tells no files, it is still a public part that goes with the catalog.
pub fn read_public<D: Depot>(
    alloc: Global,
    cat: &Catalog,
    depot: &mut D,
    name: &str,
) -> Result<Public, ReadPublicFault>
    ensures goes_with { IfOk result (λ public. split.IsPublic cat.now public) }
    ensures image { IfOk result (λ public. (file : List ℕ) → file_of (D.contents depot.old) name.now ≡ Some file → split.SpellsImage cat.now public file) }
    ensures one { IfOk result (λ public. (file : List ℕ) (other : split.Public) → file_of (D.contents depot.old) name.now ≡ Some file → split.SpellsImage cat.now other file → public ≡ other) }
    ensures bad { result ≡ Err ReadPublicFault.BadVisibleFile → (file : List ℕ) → file_of (D.contents depot.old) name.now ≡ Some file → IsNoImageOf cat.now file }
    ensures memory { result ≡ Err ReadPublicFault.NoMemory → (file : List ℕ) → file_of (D.contents depot.old) name.now ≡ Some file → IsNoImageOf cat.now file → ⊥ }
    ensures never_falls { D.faults depot.old ≤ D.faults depot.new }
    ensures failed { result ≡ Err ReadPublicFault.Depot → Rose (D.faults depot.old) (D.faults depot.new) }
    ensures other { (result ≡ Err ReadPublicFault.Depot → ⊥) → D.faults depot.new ≡ D.faults depot.old }
    ensures appends { D.append_faults depot.new ≡ D.append_faults depot.old }
    ensures same { D.contents depot.new ≡ D.contents depot.old }
    ensures goes_well { D.sure depot.old name.now → result ≡ Err ReadPublicFault.Depot → ⊥ }
    ensures stays_sure { D.sure depot.old name.now → D.sure depot.new name.now }
{
    a_catalog_is_short(cat);
    let places = places_of(cat);
    if !is_image(depot, name, cat, &places)? {
        return Err(ReadPublicFault::BadVisibleFile);
    }
    read_tables(alloc, cat, &places.starts, depot, name)
}
