//! What reductions give, against sets.

ghost use Rattle.std.specs.Prelude.{◌≡◌, ◌≤◌, IfOk};

use crate::areas::{areas_of, reduced};
use crate::device::lay_out;
use crate::rows::{Numbers, ascending, first_from, none_of, note};
use edge_traits::flash::AttachFault;
use edge_traits::mem_flash::MemFlash;
use flash_pages::fault::PageFault;
use ghost_base::runs::Run;
use page_pool::PagePool;
use std::alloc::{AllocError, Global};

/// Lists one behind another, and the rows that they have together.
#[derive(Drop)]
pub struct Lists {
    /// The identifiers.
    pub ids: Vec<u32>,
    /// Where each list begins and how many identifiers it has, one after another.
    pub places: Vec<u32>,
    /// The rows.
    pub wanted: Vec<bool>,
}

impl Lists {
    /// No list.
    pub fn none(alloc: Global, rows: u32) -> Result<Lists, AllocError> {
        Ok(Lists {
            ids: Vec::new(alloc),
            places: Vec::new(alloc),
            wanted: none_of(alloc, rows)?,
        })
    }

    /// Adds a place.
    fn put(&mut self, number: u32) -> Result<(), AllocError> {
        match self.places.push(number) {
            Ok(()) => Ok(()),
            Err(_) => Err(AllocError),
        }
    }

    /// Draws a list.
    pub fn draw(
        &mut self,
        numbers: &mut Numbers,
        count: u32,
        step: u32,
        rows: u32,
    ) -> Result<(), AllocError> {
        let first = self.ids.len();
        let count = ascending(&mut self.ids, numbers, count, step, rows)?;
        if let Some(ids) = self.ids.get(first..) {
            note(&mut self.wanted, ids);
        }
        self.put(u32::try_from(first).unwrap_or(0))?;
        self.put(count)
    }
}

/// What a reduction came to.
#[derive(Drop)]
pub struct Came {
    /// The one list, or why there is none.
    pub run: Result<Option<Run>, PageFault>,
    /// The device.
    pub flash: MemFlash,
    /// How many calls the reduction made.
    pub calls: u64,
    /// How many it counted.
    pub spent: u64,
    /// How many of them read page 256 or a later one.
    pub reads: u64,
    /// How many leases were left.
    pub left: u32,
}

/// How many leases a pool has left.
pub fn left_in(pool: &mut PagePool) -> u32 {
    let mut left = 0u32;
    for _at in 0..64 {
        if pool.lease().is_some() {
            left = left.saturating_add(1);
        }
    }
    left
}

/// What a reduction of lists comes to, where some calls of the device fail.
pub fn reduce(
    alloc: Global,
    ids: &[u32],
    places: &[u32],
    rows: u32,
    room: u32,
    fails: &[u64],
) -> Result<Came, AttachFault>
    requires least { 6 ≤ room }
    requires most { room ≤ 62 }
{
    if rows >= 2_000_000 || ids.len() > rows as usize || places.len() > 1_000_000 {
        return Err(AttachFault::NoMemory);
    }
    let areas = areas_of(rows, (places.len() / 2) as u32);
    let mut laid = lay_out(alloc, ids, places, areas.div_ceil(64), fails)?;
    let mut pool = PagePool::new(alloc, 64)?;
    let before = laid.flash.script.calls;
    let reads = laid.flash.deep_reads();
    let listed = Run {
        first: laid.other.first,
        width: 8,
        count: laid.other.count / 2,
    };
    let mut spent = 0;
    let run = reduced(
        &mut laid.flash,
        &mut pool,
        laid.one,
        listed,
        laid.free,
        rows,
        room,
        &mut spent,
    );
    Ok(Came {
        run,
        spent,
        calls: laid.flash.script.calls.saturating_sub(before),
        reads: laid.flash.deep_reads().saturating_sub(reads),
        left: left_in(&mut pool),
        flash: laid.flash,
    })
}

/// The identifier in a record of a run.
fn id_at(flash: &MemFlash, run: &Run, i: u32) -> Option<u32> {
    let bytes = flash.page(run.first.saturating_add(i / 512))?;
    let at = 4 * (i % 512) as usize;
    Some(u32::from_be_bytes([bytes[at], bytes[at + 1], bytes[at + 2], bytes[at + 3]]))
}

/// Whether a run has exactly the rows in which something is, ascending.
pub fn has_rows(flash: &MemFlash, run: &Run, wanted: &[bool]) -> bool {
    let mut next = 1;
    for i in 0..run.count {
        match id_at(flash, run, i) {
            Some(id) if first_from(wanted, next) == Some(id as usize) => next = id as usize + 1,
            _ => return false,
        }
    }
    first_from(wanted, next).is_none()
}

/// How many calls a reduction of so many lists, of so many identifiers in all, makes at most.
pub fn most_calls(lists: u64, ids: u64) -> u64 {
    let bits = u64::from(64 - lists.leading_zeros());
    bits.saturating_add(2).saturating_mul(
        lists
            .saturating_mul(8)
            .saturating_add(ids / 64)
            .saturating_add(8),
    )
}
