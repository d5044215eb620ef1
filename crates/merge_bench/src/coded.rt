//! Merges of lists that are codes.

use crate::Figures;
use crate::lists::{ROWS, behind, drawn};
use crate::merging::{came, pieces_of};
use edge_traits::flash::{AttachFault, Flash};
use merge_tests::codes::{Codes, bytes_of};
use merge_tests::device::lay_out;
use merge_tests::pieces::merge_of;
use merge_tests::reductions::Lists;
use page_pool::PagePool;
use std::alloc::{AllocError, Global};

/// Lists as codes, and their places.
#[derive(Drop)]
struct Coded {
    /// The codes, as numbers of four bytes each.
    numbers: Vec<u32>,
    /// Where each list begins and how many identifiers it has, one after another.
    places: Vec<u32>,
}

/// Adds a number.
fn push(all: &mut Vec<u32>, number: u32) -> Result<(), AllocError> {
    match all.push(number) {
        Ok(()) => Ok(()),
        Err(_) => Err(AllocError),
    }
}

/// Lists as codes.
fn encoded(alloc: Global, lists: &Lists) -> Result<Coded, AllocError> {
    let mut codes = Codes::none(alloc);
    let mut places = Vec::new(alloc);
    for place in lists.places.chunks_exact(2) {
        let end = place[0].saturating_add(place[1]) as usize;
        let ids = lists.ids.get(place[0] as usize..end).unwrap_or(&[]);
        let begin = codes.put_list(ids)?;
        push(&mut places, begin)?;
        push(&mut places, place[1])?;
    }
    Ok(Coded {
        numbers: codes.numbers(alloc)?,
        places,
    })
}

/// Draws lists, and writes them as codes. The calls are those that made the flash and wrote them.
pub fn written(
    alloc: Global,
    blocks: u32,
    lists: u32,
    ids: u32,
) -> Result<Option<Figures>, AttachFault> {
    let drawn = drawn(alloc, lists, ids)?;
    let coded = encoded(alloc, &drawn)?;
    if blocks > 400 || coded.numbers.len() > 2_000_000 {
        return Ok(None);
    }
    let laid = lay_out(alloc, &[], &coded.numbers, blocks, &[])?;
    Ok(Some(Figures {
        lists,
        ids: drawn.ids.len() as u64,
        came: 0,
        pages: coded.numbers.len().div_ceil(512) as u64,
        calls: laid.flash.script.calls,
        reads: laid.flash.deep_reads(),
    }))
}

/// Merges unions of lists.
pub fn figures(
    alloc: Global,
    unions: u32,
    lists: u32,
    ids: u32,
) -> Result<Option<Figures>, AttachFault> {
    let all = unions.saturating_mul(lists);
    if all > 64 || ids > 1_800_000 {
        return Ok(None);
    }
    let drawn = drawn(alloc, all, ids)?;
    let coded = encoded(alloc, &drawn)?;
    let before = behind(alloc, &[])?;
    if coded.numbers.len() > 2_000_000 || before.len() > 2_000_000 {
        return Ok(None);
    }
    let pieces = pieces_of(alloc, &coded.places, lists)?;
    let mut laid = lay_out(alloc, &before, &coded.numbers, 1, &[])?;
    let mut pool = PagePool::new(alloc, 64)?;
    let merge = merge_of(&pieces, &bytes_of(&laid.other), ROWS, &mut pool);
    let calls = laid.flash.script.calls;
    let reads = laid.flash.deep_reads();
    let Ok(came) = came(merge, &mut laid.flash, &mut pool) else {
        return Ok(None);
    };
    Ok(Some(Figures {
        lists: all,
        ids: drawn.ids.len() as u64,
        came,
        pages: coded.numbers.len().div_ceil(512) as u64,
        calls: laid.flash.script.calls.saturating_sub(calls),
        reads: laid.flash.deep_reads().saturating_sub(reads),
    }))
}
