//! What a climbing index has between two bounds.

ghost use Rattle.std.specs.Prelude.{◌≡◌, ◌<◌, ◌≤◌, ◌+◌, true, length, IfOk, IfSome};
ghost use Rattle.ghost_base.specs.Runs.{run_of};
ghost use Rattle.flash_pages.specs.Runs.{HasRun};
ghost use Rattle.flash_pages.specs.Cursors.{IsReady};
ghost use Rattle.climbing_index.specs.Indexes.{IsReadable};
ghost use Rattle.climbing_index.specs.Searches.{IsOfKind};

use crate::device::Loaded;
use crate::lines::{Line, put, put_fault, put_number};
use crate::values::bound_of;
use climbing_index::{Bound, ClimbingIndex, Group};
use edge_traits::flash::Flash;
use edge_traits::mem_flash::MemFlash;
use flash_layout::{Layout, is_hidden, need};
use flash_pages::cursor::RunCursor;
use flash_pages::fault::PageFault;
use ghost_base::runs::ListRef;
use page_pool::PagePool;
use std::alloc::Global;
use tree_schema::Catalog;

/// A column, by the numbers of its table and of itself.
pub(crate) type Place = (usize, usize);

/// The index of a column, where it is hidden and the device has the catalog's pages.
fn index_on(flash: &MemFlash, cat: &Catalog, place: Place) -> Option<ClimbingIndex>
    ensures readable { IfSome result (IsReadable (⟦<MemFlash as Flash>⟧.state flash.now)) }
{
    if !is_hidden(cat, place.0, place.1) || need(cat) > flash.pages() {
        return None;
    }
    Some(ClimbingIndex::of(cat, place.0, place.1))
}

/// The entries between two bounds.
fn find(
    alloc: Global,
    flash: &mut MemFlash,
    index: &ClimbingIndex,
    low: Option<Bound>,
    high: Option<Bound>,
) -> Result<Group, PageFault>
    requires readable { IsReadable (⟦<MemFlash as Flash>⟧.state flash.old) index.now }
    requires low { IsOfKind index.now.directory.kind low }
    requires high { IsOfKind index.now.directory.kind high }
{
    let Ok(mut pool) = PagePool::new(alloc, 8) else {
        return Err(PageFault::Flash);
    };
    let Some(lease) = pool.lease() else {
        return Err(PageFault::Flash);
    };
    index.find(flash, &mut pool, &lease, low, high)
}

/// Where the list of an entry at a level stands.
fn list_at(
    alloc: Global,
    flash: &mut MemFlash,
    index: &ClimbingIndex,
    entry: u32,
    level: usize,
) -> Result<ListRef, PageFault>
    requires readable { IsReadable (⟦<MemFlash as Flash>⟧.state flash.old) index.now }
    requires within { entry < index.now.directory.run.count }
    requires level { level < length index.now.directory.levels.items }
    ensures run { IfOk result (λ list. HasRun (⟦<MemFlash as Flash>⟧.state flash.new) (run_of list.run)) }
    ensures width { IfOk result (λ list. list.run.width ≡ 1) }
    ensures within { IfOk result (λ list. list.first + list.count ≤ list.run.count) }
{
    let Ok(mut pool) = PagePool::new(alloc, 8) else {
        return Err(PageFault::Flash);
    };
    let Some(lease) = pool.lease() else {
        return Err(PageFault::Flash);
    };
    index.list(flash, &mut pool, &lease, entry, level)
}

/// Puts the identifiers that a cursor has left behind a line.
fn put_rest(
    flash: &mut MemFlash,
    pool: &mut PagePool,
    cursor: &mut RunCursor,
    line: &mut Line,
) -> Result<(), PageFault>
    requires ready { IsReady true (⟦<MemFlash as Flash>⟧.state flash.old) pool.old cursor.old }
{
    while let Some(id) = cursor.next(flash, pool)? {
        put(line, " ");
        put_number(line, u64::from(id));
    }
    Ok(())
}

/// How many rows the table of a level has, counted from the table itself.
pub(crate) fn rows_above(cat: &Catalog, table: usize, level: usize) -> u32 {
    if table >= cat.schema().tables() {
        return 0;
    }
    let laid = Layout::of(cat);
    match laid.levels(table).get(level) {
        None => 0,
        Some(above) => laid.rows(*above),
    }
}

/// Puts the identifiers of a list there, which are of so many rows.
pub(crate) fn put_ids(
    alloc: Global,
    flash: &mut MemFlash,
    list: ListRef,
    rows: u32,
    line: &mut Line,
) -> Result<(), PageFault>
    requires run { HasRun (⟦<MemFlash as Flash>⟧.state flash.old) (run_of list.run) }
    requires width { list.run.width ≡ 1 }
    requires within { list.first + list.count ≤ list.run.count }
{
    let Ok(mut pool) = PagePool::new(alloc, 8) else {
        return Err(PageFault::Flash);
    };
    let Some(lease) = pool.lease() else {
        return Err(PageFault::Flash);
    };
    let mut cursor = RunCursor::begin(list, rows, lease);
    put_rest(flash, &mut pool, &mut cursor, line)
}

/// Puts the list of an entry at a level there.
fn put_list(
    alloc: Global,
    loaded: &mut Loaded,
    place: Place,
    entry: u32,
    level: usize,
    line: &mut Line,
) -> Result<(), PageFault> {
    let Some(index) = index_on(&loaded.flash, &loaded.cat, place) else {
        return Err(PageFault::Flash);
    };
    if entry >= index.directory.run.count || level >= index.directory.levels.len() {
        return Err(PageFault::Flash);
    }
    put(line, "/");
    let rows = rows_above(&loaded.cat, place.0, level);
    let list = list_at(alloc, &mut loaded.flash, &index, entry, level)?;
    put_ids(alloc, &mut loaded.flash, list, rows, line)
}

/// Puts the entries of a group there, with their lists at so many levels.
fn put_group(
    alloc: Global,
    loaded: &mut Loaded,
    place: Place,
    group: Group,
    levels: usize,
    line: &mut Line,
) -> Result<(), PageFault> {
    for entry in group.first..group.first.saturating_add(group.count) {
        put(line, "#");
        put_number(line, u64::from(entry));
        for level in 0..levels {
            put_list(alloc, loaded, place, entry, level, line)?;
        }
    }
    Ok(())
}

/// Puts the entries between two bounds there.
fn put_found(
    alloc: Global,
    loaded: &mut Loaded,
    place: Place,
    low: &str,
    high: &str,
    line: &mut Line,
) -> Result<(), PageFault> {
    let Some(index) = index_on(&loaded.flash, &loaded.cat, place) else {
        return Err(PageFault::Flash);
    };
    let kind = index.directory.kind;
    let (low, high) = (bound_of(kind, low), bound_of(kind, high));
    let group = find(alloc, &mut loaded.flash, &index, low, high)?;
    let levels = index.directory.levels.len();
    put_group(alloc, loaded, place, group, levels, line)
}

/// The entries of a column's index between two bounds: `#` and the number of each, and for each level `/` and its rows. What
/// stands in a damaged slot is put in place of the rest.
pub(crate) fn found(
    alloc: Global,
    loaded: &mut Loaded,
    place: Place,
    low: &str,
    high: &str,
) -> Line {
    let mut line = Line::new();
    if let Err(fault) = put_found(alloc, loaded, place, low, high, &mut line) {
        put_fault(&mut line, fault);
    }
    line
}
