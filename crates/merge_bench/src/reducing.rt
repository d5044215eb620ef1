//! Reductions.

use crate::Figures;
use crate::lists::{BEFORE, ROWS, behind, drawn};
use edge_traits::flash::AttachFault;
use ghost_base::runs::Run;
use merge_tests::areas::{areas_of, reduced};
use merge_tests::device::lay_out;
use merge_tests::reductions::Lists;
use page_pool::PagePool;
use std::alloc::Global;

/// What a reduction came to.
#[derive(Clone, Copy)]
struct Counted {
    /// The identifiers of the one list.
    ids: u32,
    /// The calls of the flash.
    calls: u64,
    /// Those that read.
    reads: u64,
}

/// Reduces lists to one, if it goes well.
fn came(alloc: Global, room: u32, drawn: &Lists) -> Result<Option<Counted>, AttachFault> {
    let places = behind(alloc, &drawn.places)?;
    if room < 6
        || room > 62
        || places.len() < BEFORE as usize
        || places.len() > 1_000_000
        || drawn.ids.len() > ROWS as usize
    {
        return Ok(None);
    }
    let count = (places.len() - BEFORE as usize) / 2;
    let areas = areas_of(ROWS, count as u32);
    let mut laid = lay_out(alloc, &places, &drawn.ids, areas.div_ceil(64), &[])?;
    let mut pool = PagePool::new(alloc, 64)?;
    let listed = Run {
        first: laid.one.first + 256,
        width: 8,
        count: count as u32,
    };
    let calls = laid.flash.script.calls;
    let reads = laid.flash.deep_reads();
    let mut spent = 0;
    let run = reduced(
        &mut laid.flash,
        &mut pool,
        laid.other,
        listed,
        laid.free,
        ROWS,
        room,
        &mut spent,
    );
    let Ok(Some(run)) = run else {
        return Ok(None);
    };
    Ok(Some(Counted {
        ids: run.count,
        calls: laid.flash.script.calls.saturating_sub(calls),
        reads: laid.flash.deep_reads().saturating_sub(reads),
    }))
}

/// Reduces lists to one.
pub fn figures(
    alloc: Global,
    room: u32,
    lists: u32,
    ids: u32,
) -> Result<Option<Figures>, AttachFault> {
    let drawn = drawn(alloc, lists, ids)?;
    let Some(came) = came(alloc, room, &drawn)? else {
        return Ok(None);
    };
    let pages = drawn.ids.len().div_ceil(512) as u64;
    Ok(Some(Figures {
        lists,
        ids: drawn.ids.len() as u64,
        came: u64::from(came.ids),
        pages: pages.saturating_add(u64::from(came.ids.div_ceil(512))),
        calls: came.calls,
        reads: came.reads,
    }))
}
