//! Candidates that are sifted by a filter, against sets.

ghost use Rattle.std.specs.Prelude.{◌≡◌, ◌+◌, ◌<◌, ◌≤◌, true, length, IfOk};
ghost use Rattle.ghost_model.specs.forms.Runs.{pages_of as run_pages};
ghost use Rattle.ghost_base.specs.Runs.{run_of};
ghost use Rattle.page_pool.specs.Pools.{AreOut, free_count};
ghost use Rattle.flash_pages.specs.Runs.{HasRun};
ghost use Rattle.bloom_post.specs.Places.{pages_of};
ghost use Rattle.spill_pass.specs.Merging.{IsArea};

use crate::device::lay_out;
use crate::reductions::{has_rows, left_in};
use crate::rows::{Numbers, ascending, none_of, note};
use arrayvec::ArrayVec;
use bloom_post::Filter;
use candidate_filter::{Filling, Sifting};
use candidate_lists::{Candidates, Scratch};
use edge_traits::flash::{AttachFault, Flash};
use edge_traits::mem_flash::MemFlash;
use flash_pages::fault::PageFault;
use ghost_base::runs::{ListRef, Run};
use page_pool::PagePool;
use std::alloc::{AllocError, Global};
use subtree_keys::SubtreeTable;

/// Fills a filter with the identifiers of a run, from 1 to `most`.
fn filled(
    ids: Run,
    most: u32,
    flash: &mut MemFlash,
    pool: &mut PagePool,
) -> Result<Filter, PageFault>
    requires room { pages_of (length pool.old.pages) < free_count pool.old }
    requires run { HasRun (⟦<MemFlash as Flash>⟧.state flash.old) (run_of ids) }
    requires width { ids.width ≡ 4 }
    ensures out { IfOk result (AreOut pool.new) }
    ensures some { IfOk result (λ filter. 0 < length filter) }
    ensures pages { (⟦<MemFlash as Flash>⟧.state flash.new).page_count ≡ (⟦<MemFlash as Flash>⟧.state flash.old).page_count }
{
    let Some(lease) = pool.lease() else {
        unreachable!()
    };
    let list = ListRef {
        run: ids,
        first: 0,
        count: ids.count,
    };
    let mut filling = Filling::begin(list, most, lease, pool);
    'steps: loop {
        let mut made = 0;
        match filling.step(flash, pool, &mut made) {
            Err(fault) => {
                filling.give_up(pool);
                return Err(fault);
            }
            Ok(true) => return Ok(filling.end(pool)),
            Ok(false) => {}
        }
    }
}

/// Sifts all rows by the row that each leads to, by a run of these, into an area from page `first` on. It gives all leases back, and
/// answers `None` where there are too few.
fn sifted(
    below: Run,
    most: u32,
    filter: Filter,
    first: u32,
    flash: &mut MemFlash,
    pool: &mut PagePool,
) -> Result<Option<Run>, PageFault>
    requires out { AreOut pool.old filter }
    requires some { 0 < length filter }
    requires run { HasRun (⟦<MemFlash as Flash>⟧.state flash.old) (run_of below) }
    requires width { below.width ≡ 4 }
    requires before { below.first + run_pages below.count 4 ≤ first }
    requires area { IsArea (⟦<MemFlash as Flash>⟧.state flash.old) first below.count }
    requires small { first ≤ 10000000 }
{
    let Some(writer) = pool.lease() else {
        return Ok(None);
    };
    let Some(lease) = pool.lease() else {
        return Ok(None);
    };
    let scratch = Scratch {
        candidates: first + 64,
        spare: first + 64,
        group: first + 64,
        lists: first + 64,
        other_lists: first,
        places: first + 64,
        other_places: first + 64,
    };
    let mut rows = ArrayVec::new();
    rows.push(most);
    let keys = SubtreeTable { run: below, rows };
    let candidates = Candidates::all(below.count, scratch);
    let mut sifting = Sifting::begin(candidates, writer, keys, 0, filter, lease);
    'steps: loop {
        let mut made = 0;
        match sifting.step(flash, pool, &mut made) {
            Err(fault) => {
                sifting.give_up(pool);
                return Err(fault);
            }
            Ok(true) => return Ok(Some(sifting.end(pool).run)),
            Ok(false) => {}
        }
    }
}

/// Whether of rows that lead to rows below exactly those are left in which something is, once they are sifted by some of the rows
/// below, and all leases were given back.
fn agrees(
    alloc: Global,
    below: &[u32],
    replied: &[u32],
    most: u32,
    buffers: u32,
    wanted: &[bool],
) -> Result<bool, AttachFault>
    requires least { 8 ≤ buffers }
    requires most { buffers ≤ 64 }
{
    if below.len() > 30_000 || replied.len() > 2_000_000 {
        return Err(AttachFault::NoMemory);
    }
    let mut laid = lay_out(alloc, below, replied, 1, &[])?;
    let mut pool = PagePool::new(alloc, buffers)?;
    let Ok(filter) = filled(laid.other, most, &mut laid.flash, &mut pool) else {
        return Ok(false);
    };
    match sifted(
        laid.one,
        most,
        filter,
        laid.free,
        &mut laid.flash,
        &mut pool,
    ) {
        Ok(Some(run)) => Ok(has_rows(&laid.flash, &run, wanted) && left_in(&mut pool) == buffers),
        _ => Ok(false),
    }
}

/// Rows that lead to rows below, each to one of `most`.
fn draw(
    alloc: Global,
    numbers: &mut Numbers,
    rows: u32,
    low: u32,
    most: u32,
) -> Result<Vec<u32>, AllocError> {
    let mut below = Vec::new(alloc);
    for _at in 0..rows {
        let row = low
            .saturating_add(numbers.below(most.saturating_sub(low)))
            .saturating_add(1);
        let Ok(()) = below.push(row) else {
            return Err(AllocError);
        };
    }
    Ok(below)
}

/// Notes the rows that lead to one in which something is.
fn note_above(wanted: &mut [bool], below: &[u32], replied: &[bool]) {
    for at in 1..wanted.len() {
        let row = below.get(at - 1).copied().unwrap_or(0);
        wanted[at] = replied.get(row as usize).copied().unwrap_or(false);
    }
}

#[test]
fn rows_are_left_that_lead_to_a_replied_one(rt: HostRuntime) -> Result<(), AttachFault> {
    for (seed, rows, most, step, buffers) in [
        (1u64, 2500u32, 3000u32, 60u32, 8u32),
        (2, 600, 3000, 700, 64),
        (3, 1, 40, 3, 9),
        (4, 2000, 20_000, 100_000, 8),
    ] {
        let mut numbers = Numbers::seeded(seed);
        let below = draw(rt.alloc(), &mut numbers, rows, 0, most)?;
        let mut replied = Vec::new(rt.alloc());
        ascending(&mut replied, &mut numbers, most, step, most)?;
        let mut among = none_of(rt.alloc(), most)?;
        note(&mut among, &replied);
        let mut wanted = none_of(rt.alloc(), rows)?;
        note_above(&mut wanted, &below, &among);
        assert!(rt;
            agrees(rt.alloc(), &below, &replied, most, buffers, &wanted)?,
            "case {seed}"
        );
    }
    Ok(())
}

#[test]
fn a_full_filter_leaves_all_rows(rt: HostRuntime) -> Result<(), AttachFault> {
    let mut numbers = Numbers::seeded(5);
    let below = draw(rt.alloc(), &mut numbers, 1500, 40_000, 60_000)?;
    let mut replied = Vec::new(rt.alloc());
    ascending(&mut replied, &mut numbers, 40_000, 1, 60_000)?;
    let mut wanted = none_of(rt.alloc(), 1500)?;
    for at in 1..wanted.len() {
        wanted[at] = true;
    }
    assert!(rt; agrees(rt.alloc(), &below, &replied, 60_000, 8, &wanted)?);
    Ok(())
}
