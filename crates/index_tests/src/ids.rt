//! What an id index has between two bounds.

ghost use Rattle.std.specs.Prelude.{◌≡◌, ◌<◌, ◌≤◌, ◌+◌, length, IfOk, IfSome};
ghost use Rattle.ghost_base.specs.Runs.{run_of};
ghost use Rattle.flash_pages.specs.Runs.{HasRun};
ghost use Rattle.climbing_index.specs.Indexes.{IsIdReadable};

use crate::device::Loaded;
use crate::found::{put_ids, rows_above};
use crate::lines::{Line, put, put_fault, put_number};
use crate::values::bound_of;
use climbing_index::IdIndex;
use edge_traits::flash::Flash;
use edge_traits::mem_flash::MemFlash;
use flash_layout::{Layout, need};
use flash_pages::fault::PageFault;
use ghost_base::Kind;
use ghost_base::runs::ListRef;
use page_pool::PagePool;
use std::alloc::Global;
use tree_schema::Catalog;

/// The id index of a table, where there are tables above it and the device has the catalog's pages.
fn ids_on(flash: &MemFlash, cat: &Catalog, table: usize) -> Option<IdIndex>
    ensures readable { IfSome result (IsIdReadable (⟦<MemFlash as Flash>⟧.state flash.now)) }
{
    if table >= cat.schema().tables() || need(cat) > flash.pages() {
        return None;
    }
    if Layout::of(cat).above(table).is_empty() {
        return None;
    }
    Some(IdIndex::of(cat, table))
}

/// Where the list of an entry at a level stands.
fn list_at(
    alloc: Global,
    flash: &mut MemFlash,
    index: &IdIndex,
    entry: u32,
    level: usize,
) -> Result<ListRef, PageFault>
    requires readable { IsIdReadable (⟦<MemFlash as Flash>⟧.state flash.old) index.now }
    requires within { entry < index.now.directory.run.count }
    requires above { 1 ≤ level }
    requires level { level ≤ length index.now.directory.levels.items }
    ensures run { IfOk result (λ list. HasRun (⟦<MemFlash as Flash>⟧.state flash.new) (run_of list.run)) }
    ensures width { IfOk result (λ list. list.run.width ≡ 1) }
    ensures within { IfOk result (λ list. list.first + list.count ≤ list.run.count) }
{
    let Ok(mut pool) = PagePool::new(alloc, 8) else {
        return Err(PageFault::Flash);
    };
    let Some(lease) = pool.lease() else {
        return Err(PageFault::Flash);
    };
    index.list(flash, &mut pool, &lease, entry, level)
}

/// Puts the list of an entry at a level behind a line.
fn put_list(
    alloc: Global,
    loaded: &mut Loaded,
    table: usize,
    entry: u32,
    level: usize,
    line: &mut Line,
) -> Result<(), PageFault> {
    let Some(index) = ids_on(&loaded.flash, &loaded.cat, table) else {
        return Err(PageFault::Flash);
    };
    let there = entry < index.directory.run.count && 1 <= level;
    if !there || level > index.directory.levels.len() {
        return Err(PageFault::Flash);
    }
    put(line, "/");
    let rows = rows_above(&loaded.cat, table, level);
    let list = list_at(alloc, &mut loaded.flash, &index, entry, level)?;
    put_ids(alloc, &mut loaded.flash, list, rows, line)
}

/// Puts the entries between two bounds there, with their lists at each level above.
fn put_between(
    alloc: Global,
    loaded: &mut Loaded,
    table: usize,
    low: &str,
    high: &str,
    line: &mut Line,
) -> Result<(), PageFault> {
    let Some(index) = ids_on(&loaded.flash, &loaded.cat, table) else {
        return Err(PageFault::Flash);
    };
    let kind = Some(Kind::Integer);
    let group = index.find(bound_of(kind, low), bound_of(kind, high));
    let levels = index.directory.levels.len();
    for entry in group.first..group.first.saturating_add(group.count) {
        put(line, "#");
        put_number(line, u64::from(entry));
        for level in 0..levels {
            put_list(alloc, loaded, table, entry, level + 1, line)?;
        }
    }
    Ok(())
}

/// The entries of a table's id index between two bounds: `#` and the number of each, and for each level above `/` and its
/// rows. What stands in a damaged slot is put in place of the rest.
pub(crate) fn ids_between(
    alloc: Global,
    loaded: &mut Loaded,
    table: usize,
    low: &str,
    high: &str,
) -> Line {
    let mut line = Line::new();
    if let Err(fault) = put_between(alloc, loaded, table, low, high, &mut line) {
        put_fault(&mut line, fault);
    }
    line
}
