//! The hidden part, as the column files of a flash have it.

ghost use Rattle.std.specs.Prelude.{◌≡◌, ℕ, ◌<◌, ◌≤◌, ◌+◌, ◌^◌, true, length, Some, IfOk, IfErr, OnOk};
ghost use Rattle.ghost_model.specs.forms.Layout as layout;
ghost use Rattle.ghost_model.specs.laws.LayoutSums as sums;
ghost use Rattle.edge_traits.specs.Devices.{next_if};
ghost use Rattle.page_pool.specs.Pools.{IsOut, page_at};
ghost use Rattle.ghost_base.specs.Views.{kind_of};
ghost use Rattle.csv_split.specs.Cells.{kind_in, values_in};
ghost use Rattle.csv_split.specs.Tables.{column_values};
ghost use Rattle.flash_pages.specs.Reads.{CanRead, WasGiven, must_read};
ghost use Rattle.hidden_columns.specs.Files.{IsReadable, slot_page};
ghost use Rattle.flash_build.specs.ReadColumns.{AddsRow, AddsRows, AddsColumn, IsColumnRead, IsTableRead, DamagesRow, DamagesRows, DamagesColumn, DamagesTable};
ghost use Rattle.flash_build.specs.Reading.{BlamesCells, GivesHeld, GivesPart, IsLegalPart, ReadsCells, column_file_pages};

use crate::faults::ReadFault;
use crate::places::{columns, layout_laws, tables};
use csv_split::{Cells, Hidden, Part};
use edge_traits::flash::Flash;
use flash_layout::Layout;
use flash_layout::limits::a_catalog_has_a_layout;
use hidden_columns::ColumnFile;
use hidden_columns::laws::columns_give_values;
use page_pool::{Lease, PagePool};
use std::alloc::Global;
use tree_schema::Catalog;
use tree_schema::catalog_bytes::a_catalog_is_short;

/// The hidden part of a catalog's database, as the column files of a flash have it. No other file is read.
///
/// Of slots that spell no value which may stand in their column the first is told, table by table, in a table column by column, and
/// in a column row by row. Each page is read once, into the buffer of the lease, and nothing is written.
pub fn read_hidden<F: Flash>(
    alloc: Global,
    cat: &Catalog,
    flash: &mut F,
    pool: &mut PagePool,
    lease: &Lease,
) -> Result<Hidden, ReadFault>
    requires there { layout.static_end cat.now ≤ (F.state flash.old).page_count }
    requires out { IsOut pool.old lease.now }
    ensures held { F.told ≡ true → GivesHeld (F.state flash.old).page cat.now result }
    ensures gives { F.told ≡ true → GivesPart (F.state flash.old).page cat.now result }
    ensures blames { IfErr result (BlamesCells (F.state flash.old).calls (F.state flash.new) cat.now) }
    ensures legal { IfOk result (IsLegalPart cat.now) }
    ensures at_most { (F.state flash.new).calls ≤ (F.state flash.old).calls + column_file_pages cat.now }
    ensures read { ReadsCells F.told (F.state flash.old) (F.state flash.new) pool.old pool.new lease.now result }
{
    a_catalog_has_a_layout(cat);
    a_catalog_is_short(cat);
    ghost_model::flash::hidden_values_by_place();
    ghost_model::flash::hidden_parts_go_with_catalogs();
    columns_give_values();
    let laid = Layout::of(cat);
    let _few = flash.pages();
    pool.page_mut(lease);
    let mut hidden = Hidden::new(alloc);
    for table in 0..tables(&laid) {
        match read_table(alloc, &laid, table, flash, pool, lease) {
            Err(fault) => return Err(fault),
            Ok(part) => {
                if hidden.push(part).is_err() {
                    return Err(ReadFault::NoMemory);
                }
            }
        }
    }
    Ok(hidden)
}

/// The hidden columns of a table.
fn read_table<F: Flash>(
    alloc: Global,
    laid: &Layout<'_>,
    table: usize,
    flash: &mut F,
    pool: &mut PagePool,
    lease: &Lease,
) -> Result<Part, ReadFault>
    requires there { layout.static_end laid.now ≤ (F.state flash.old).page_count }
    requires small { (F.state flash.old).page_count < 2 ^ 32 }
    requires ready { CanRead F.told (F.state flash.old) pool.old lease.now }
    ensures part { IfOk result (IsTableRead F.told (F.state flash.old).page laid.now table) }
    ensures at_most { (F.state flash.new).calls ≤ (F.state flash.old).calls + sums.columns_pages laid.now table }
    ensures damaged { (since : ℕ) → since ≤ (F.state flash.old).calls → WasGiven since (F.state flash.old) pool.old lease.now → IfErr result (DamagesTable F.told since (F.state flash.old).page (F.state flash.new) laid.now table) }
    ensures read { ReadsCells F.told (F.state flash.old) (F.state flash.new) pool.old pool.new lease.now result }
{
    let mut cells = Vec::new(alloc);
    for column in 0..columns(laid, table) {
        if let Err(fault) = add_column(alloc, laid, table, column, flash, pool, lease, &mut cells) {
            return Err(fault);
        }
    }
    Ok(Part::of(laid.rows(table), cells))
}

/// Puts the values of a column behind those of the hidden columns before it, if it is a hidden one.
fn add_column<F: Flash>(
    alloc: Global,
    laid: &Layout<'_>,
    table: usize,
    column: usize,
    flash: &mut F,
    pool: &mut PagePool,
    lease: &Lease,
    columns: &mut Vec<Cells>,
) -> Result<(), ReadFault>
    requires there { layout.static_end laid.now ≤ (F.state flash.old).page_count }
    requires small { (F.state flash.old).page_count < 2 ^ 32 }
    requires ready { CanRead F.told (F.state flash.old) pool.old lease.now }
    ensures added { OnOk result (AddsColumn F.told (F.state flash.old).page laid.now table column (column_values columns.old.items) (column_values columns.new.items)) }
    ensures at_most { (F.state flash.new).calls ≤ (F.state flash.old).calls + sums.column_pages laid.now table column }
    ensures damaged { (since : ℕ) → since ≤ (F.state flash.old).calls → WasGiven since (F.state flash.old) pool.old lease.now → IfErr result (DamagesColumn F.told since (F.state flash.old).page (F.state flash.new) laid.now table column) }
    ensures read { ReadsCells F.told (F.state flash.old) (F.state flash.new) pool.old pool.new lease.now result }
{
    if !laid.is_hidden(table, column) {
        return Ok(());
    }
    match read_column(alloc, laid, table, column, flash, pool, lease) {
        Err(fault) => Err(fault),
        Ok(cells) => match columns.push(cells) {
            Ok(()) => Ok(()),
            Err(_) => Err(ReadFault::NoMemory),
        },
    }
}

/// The values of a hidden column.
fn read_column<F: Flash>(
    alloc: Global,
    laid: &Layout<'_>,
    table: usize,
    column: usize,
    flash: &mut F,
    pool: &mut PagePool,
    lease: &Lease,
) -> Result<Cells, ReadFault>
    requires hidden { layout.is_hidden laid.now.schema table column ≡ true }
    requires there { layout.static_end laid.now ≤ (F.state flash.old).page_count }
    requires small { (F.state flash.old).page_count < 2 ^ 32 }
    requires ready { CanRead F.told (F.state flash.old) pool.old lease.now }
    ensures cells { IfOk result (λ cells. IsColumnRead F.told (F.state flash.old).page laid.now table column (values_in cells)) }
    ensures at_most { (F.state flash.new).calls ≤ (F.state flash.old).calls + sums.column_pages laid.now table column }
    ensures damaged { (since : ℕ) → since ≤ (F.state flash.old).calls → WasGiven since (F.state flash.old) pool.old lease.now → IfErr result (DamagesColumn F.told since (F.state flash.old).page (F.state flash.new) laid.now table column) }
    ensures read { ReadsCells F.told (F.state flash.old) (F.state flash.new) pool.old pool.new lease.now result }
{
    layout_laws(laid);
    ghost_model::layout::records_stand_within();
    let file = ColumnFile::by_layout(laid, table, column);
    let mut cells = Cells::new(alloc, file.kind);
    match read_rows(&file, 0, flash, pool, lease, &mut cells) {
        Err(fault) => Err(fault),
        Ok(()) => Ok(cells),
    }
}

/// Puts the values of a file's rows behind others, from a row on, which is counted from 0, to the last one.
fn read_rows<F: Flash>(
    file: &ColumnFile,
    from: u32,
    flash: &mut F,
    pool: &mut PagePool,
    lease: &Lease,
    cells: &mut Cells,
) -> Result<(), ReadFault>
    requires readable { IsReadable (F.state flash.old) file.now }
    requires from { from ≤ file.now.run.count }
    requires kind { kind_in cells.old ≡ kind_of file.now.kind }
    requires room { length (values_in cells.old) + file.now.run.count < 2 ^ 32 }
    requires ready { CanRead F.told (F.state flash.old) pool.old lease.now }
    ensures kind { kind_in cells.new ≡ kind_in cells.old }
    ensures added { OnOk result (AddsRows F.told (F.state flash.old).page file.now from file.now.run.count (values_in cells.old) (values_in cells.new)) }
    ensures none { from ≡ file.now.run.count → (F.state flash.new).calls ≡ (F.state flash.old).calls }
    ensures at_most { from < file.now.run.count → (F.state flash.new).calls + slot_page file.now (from + 1) ≤ (F.state flash.old).calls + (slot_page file.now file.now.run.count + 1) }
    ensures damaged { (since : ℕ) → since ≤ (F.state flash.old).calls → WasGiven since (F.state flash.old) pool.old lease.now → IfErr result (DamagesRows F.told since (F.state flash.old).page (F.state flash.new) file.now from) }
    ensures read { ReadsCells F.told (F.state flash.old) (F.state flash.new) pool.old pool.new lease.now result }
{
    for place in from..file.run.count {
        if let Err(fault) = read_row(file, place, flash, pool, lease, cells) {
            return Err(fault);
        }
    }
    Ok(())
}

/// Puts the value of a file's row, which is counted from 0, behind others.
fn read_row<F: Flash>(
    file: &ColumnFile,
    place: u32,
    flash: &mut F,
    pool: &mut PagePool,
    lease: &Lease,
    cells: &mut Cells,
) -> Result<(), ReadFault>
    requires readable { IsReadable (F.state flash.old) file.now }
    requires within { place < file.now.run.count }
    requires small { file.now.run.count < 2 ^ 32 }
    requires kind { kind_in cells.old ≡ kind_of file.now.kind }
    requires room { length (values_in cells.old) < 2 ^ 32 }
    requires ready { CanRead F.told (F.state flash.old) pool.old lease.now }
    ensures kind { kind_in cells.new ≡ kind_in cells.old }
    ensures added { OnOk result (AddsRow F.told (F.state flash.old).page file.now place (values_in cells.old) (values_in cells.new)) }
    ensures calls { (F.state flash.new).calls ≡ next_if (must_read pool.old lease.now (slot_page file.now (place + 1))) (F.state flash.old).calls }
    ensures page { OnOk result (page_at pool.new lease.now ≡ Some (slot_page file.now (place + 1))) }
    ensures damaged { (since : ℕ) → since ≤ (F.state flash.old).calls → WasGiven since (F.state flash.old) pool.old lease.now → IfErr result (DamagesRow F.told since (F.state flash.old).page (F.state flash.new) file.now place) }
    ensures read { ReadsCells F.told (F.state flash.old) (F.state flash.new) pool.old pool.new lease.now result }
{
    match file.get(flash, pool, lease, place + 1) {
        Err(fault) => Err(ReadFault::from(fault)),
        Ok(value) => match cells.push(&value) {
            Ok(()) => Ok(()),
            Err(_) => Err(ReadFault::NoMemory),
        },
    }
}
