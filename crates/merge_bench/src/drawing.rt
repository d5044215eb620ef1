//! Lists that are only drawn and written.

use crate::Figures;
use crate::lists::drawn;
use edge_traits::flash::AttachFault;
use merge_tests::device::lay_out;
use std::alloc::Global;

/// Draws lists, and writes them and their places to a flash that has so many blocks behind them. The calls are those that made the
/// flash and wrote them.
pub fn figures(
    alloc: Global,
    blocks: u32,
    lists: u32,
    ids: u32,
) -> Result<Option<Figures>, AttachFault> {
    let drawn = drawn(alloc, lists, ids)?;
    if blocks > 400 || drawn.ids.len() > 2_000_000 || drawn.places.len() > 2_000_000 {
        return Ok(None);
    }
    let laid = lay_out(alloc, &drawn.ids, &drawn.places, blocks, &[])?;
    let ids = drawn.ids.len() as u64;
    Ok(Some(Figures {
        lists,
        ids,
        came: 0,
        pages: ids.div_ceil(512),
        calls: laid.flash.script.calls,
        reads: laid.flash.deep_reads(),
    }))
}
