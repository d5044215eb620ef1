//! Merges.

ghost use Rattle.std.specs.Prelude.{true};
ghost use Rattle.id_merge.specs.Merges.{CanMerge};

use crate::Figures;
use crate::lists::{ROWS, behind, drawn};
use edge_traits::flash::{AttachFault, Flash};
use edge_traits::mem_flash::MemFlash;
use flash_pages::fault::PageFault;
use id_merge::Merge;
use merge_tests::device::lay_out;
use merge_tests::pieces::{Piece, merge_of};
use page_pool::PagePool;
use std::alloc::{AllocError, Global};

/// How many identifiers a merge gives. It gives its leases back.
pub(crate) fn came(
    merge: Merge,
    flash: &mut MemFlash,
    pool: &mut PagePool,
) -> Result<u64, PageFault>
    requires can { CanMerge true (⟦<MemFlash as Flash>⟧.state flash.old) pool.old merge }
{
    let mut merge = merge;
    let mut came = 0u64;
    'ids: loop {
        match merge.next(flash, pool) {
            Err(fault) => {
                merge.end(pool);
                return Err(fault);
            }
            Ok(None) => {
                merge.end(pool);
                return Ok(came);
            }
            Ok(Some(_)) => came = came.saturating_add(1),
        }
    }
}

/// The lists that have these places, in unions of so many.
pub(crate) fn pieces_of(
    alloc: Global,
    places: &[u32],
    lists: u32,
) -> Result<Vec<Piece>, AllocError> {
    let mut pieces = Vec::new(alloc);
    let mut left = lists;
    for place in places.chunks_exact(2) {
        if left == 0 {
            push(&mut pieces, Piece::Another)?;
            left = lists;
        }
        push(&mut pieces, Piece::List(place[0], place[1]))?;
        left = left.saturating_sub(1);
    }
    Ok(pieces)
}

/// Adds a piece.
fn push(pieces: &mut Vec<Piece>, piece: Piece) -> Result<(), AllocError> {
    match pieces.push(piece) {
        Ok(()) => Ok(()),
        Err(_) => Err(AllocError),
    }
}

/// Merges unions of lists.
pub fn figures(
    alloc: Global,
    unions: u32,
    lists: u32,
    ids: u32,
) -> Result<Option<Figures>, AttachFault> {
    let all = unions.saturating_mul(lists);
    if all > 64 || ids > 1_800_000 {
        return Ok(None);
    }
    let drawn = drawn(alloc, all, ids)?;
    let before = behind(alloc, &[])?;
    if drawn.ids.len() > 2_000_000 || before.len() > 2_000_000 {
        return Ok(None);
    }
    let pieces = pieces_of(alloc, &drawn.places, lists)?;
    let mut laid = lay_out(alloc, &before, &drawn.ids, 1, &[])?;
    let mut pool = PagePool::new(alloc, 64)?;
    let merge = merge_of(&pieces, &laid.other, ROWS, &mut pool);
    let calls = laid.flash.script.calls;
    let reads = laid.flash.deep_reads();
    let Ok(came) = came(merge, &mut laid.flash, &mut pool) else {
        return Ok(None);
    };
    Ok(Some(Figures {
        lists: all,
        ids: drawn.ids.len() as u64,
        came,
        pages: drawn.ids.len().div_ceil(512) as u64,
        calls: laid.flash.script.calls.saturating_sub(calls),
        reads: laid.flash.deep_reads().saturating_sub(reads),
    }))
}
