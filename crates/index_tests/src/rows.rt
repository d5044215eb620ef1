//! What the rows of a table have: where they lead to, and their values.

ghost use Rattle.std.specs.Prelude.{IfSome};
ghost use Rattle.hidden_columns.specs.Files.{IsReadable};
ghost use Rattle.subtree_keys.specs.Tables as tables;

use crate::device::Loaded;
use crate::found::Place;
use crate::lines::{Line, put, put_fault, put_number};
use edge_traits::flash::Flash;
use edge_traits::mem_flash::MemFlash;
use flash_layout::{Layout, is_hidden, need};
use flash_pages::fault::PageFault;
use ghost_base::Value;
use hidden_columns::ColumnFile;
use itoa::Buffer;
use page_pool::PagePool;
use std::alloc::Global;
use subtree_keys::SubtreeTable;
use tree_schema::Catalog;

/// The subtree key table of a table, where there are tables below it and the device has the catalog's pages.
fn table_on(flash: &MemFlash, cat: &Catalog, table: usize) -> Option<SubtreeTable>
    ensures readable { IfSome result (tables.IsReadable (⟦<MemFlash as Flash>⟧.state flash.now)) }
{
    if table >= cat.schema().tables() || need(cat) > flash.pages() {
        return None;
    }
    if Layout::of(cat).below(table).is_empty() {
        return None;
    }
    Some(SubtreeTable::of(cat, table))
}

/// Puts the rows that a row leads to behind a line.
fn put_row(
    alloc: Global,
    loaded: &mut Loaded,
    table: usize,
    identifier: u32,
    line: &mut Line,
) -> Result<(), PageFault> {
    let Some(keys) = table_on(&loaded.flash, &loaded.cat, table) else {
        return Err(PageFault::Flash);
    };
    if identifier < 1 || identifier > keys.run.count {
        return Err(PageFault::Flash);
    }
    let Ok(mut pool) = PagePool::new(alloc, 8) else {
        return Err(PageFault::Flash);
    };
    let Some(lease) = pool.lease() else {
        return Err(PageFault::Flash);
    };
    let row = keys.row(&mut loaded.flash, &mut pool, &lease, identifier)?;
    for id in row.iter() {
        put(line, " ");
        put_number(line, u64::from(*id));
    }
    Ok(())
}

/// The file of a column, where it is hidden and the device has the catalog's pages.
fn file_on(flash: &MemFlash, cat: &Catalog, place: Place) -> Option<ColumnFile>
    ensures readable { IfSome result (IsReadable (⟦<MemFlash as Flash>⟧.state flash.now)) }
{
    if !is_hidden(cat, place.0, place.1) || need(cat) > flash.pages() {
        return None;
    }
    Some(ColumnFile::of(cat, place.0, place.1))
}

/// Puts a value there.
fn put_value(line: &mut Line, value: &Value) {
    put(line, " ");
    match value {
        Value::Null => put(line, "NULL"),
        Value::Int(number) => {
            let mut buffer = Buffer::new();
            put(line, buffer.format(*number));
        }
        Value::Chars(text) => put(line, str::from_utf8(text.as_bytes()).unwrap_or("?")),
    }
}

/// Puts the value of a row in a column there.
fn put_cell(
    alloc: Global,
    loaded: &mut Loaded,
    place: Place,
    identifier: u32,
    line: &mut Line,
) -> Result<(), PageFault> {
    let Some(file) = file_on(&loaded.flash, &loaded.cat, place) else {
        return Err(PageFault::Flash);
    };
    if identifier < 1 || identifier > file.run.count {
        return Err(PageFault::Flash);
    }
    let Ok(mut pool) = PagePool::new(alloc, 8) else {
        return Err(PageFault::Flash);
    };
    let Some(lease) = pool.lease() else {
        return Err(PageFault::Flash);
    };
    let value = file.get(&mut loaded.flash, &mut pool, &lease, identifier)?;
    put_value(line, &value);
    Ok(())
}

/// For each row of a table `#`, and the rows of each table below that it leads to, or what stands in its damaged slot.
pub(crate) fn rows_below(alloc: Global, loaded: &mut Loaded, table: usize) -> Line {
    let mut line = Line::new();
    for row in 0..loaded.cat.rows(table).unwrap_or(0) {
        put(&mut line, "#");
        if let Err(fault) = put_row(alloc, loaded, table, row.saturating_add(1), &mut line) {
            put_fault(&mut line, fault);
        }
    }
    line
}

/// For each row of a column's table its value, or what stands in its damaged slot.
pub(crate) fn cells_of(alloc: Global, loaded: &mut Loaded, place: Place) -> Line {
    let mut line = Line::new();
    for row in 0..loaded.cat.rows(place.0).unwrap_or(0) {
        if let Err(fault) = put_cell(alloc, loaded, place, row.saturating_add(1), &mut line) {
            put_fault(&mut line, fault);
        }
    }
    line
}
