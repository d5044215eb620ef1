//! Reductions against sets.

use crate::reductions::{Lists, has_rows, most_calls, reduce};
use crate::rows::Numbers;
use edge_traits::flash::AttachFault;
use flash_pages::fault::PageFault;
use std::alloc::{AllocError, Global};

/// The rows of each case.
const ROWS: u32 = 60_000;

/// So many lists of a seed, of at most so many identifiers.
fn draw(alloc: Global, seed: u64, lists: u32, most: u32) -> Result<Lists, AllocError> {
    let mut drawn = Lists::none(alloc, ROWS)?;
    let mut numbers = Numbers::seeded(seed);
    for _at in 0..lists {
        let count = numbers.below(most);
        drawn.draw(&mut numbers, count, 40, ROWS)?;
    }
    Ok(drawn)
}

#[test]
fn lists_are_reduced_to_one(rt: HostRuntime) -> Result<(), AttachFault> {
    for (seed, lists, most) in [
        (1u64, 0u32, 0u32),
        (2, 1, 600),
        (3, 2, 1200),
        (4, 7, 900),
        (5, 8, 30),
        (6, 399, 60),
        (7, 4096, 12),
    ] {
        let drawn = draw(rt.alloc(), seed, lists, most)?;
        let bound = most_calls(u64::from(lists), drawn.ids.len() as u64);
        for room in [6u32, 62] {
            let came = reduce(rt.alloc(), &drawn.ids, &drawn.places, ROWS, room, &[])?;
            assert!(rt;
                came.calls <= bound && came.spent == came.calls && came.left == 64,
                "{lists} lists at room {room}"
            );
            match came.run {
                Ok(Some(run)) => assert!(rt; has_rows(&came.flash, &run, &drawn.wanted)),
                _ => assert!(rt; false, "{lists} lists at room {room}"),
            }
        }
    }
    Ok(())
}

#[test]
fn each_call_of_a_reduction_may_fail(rt: HostRuntime) -> Result<(), AttachFault> {
    let drawn = draw(rt.alloc(), 8, 9, 700)?;
    let mut failed = 0u32;
    for call in 1..160u64 {
        if let Ok(came) = reduce(rt.alloc(), &drawn.ids, &drawn.places, ROWS, 6, &[call]) {
            assert!(rt; came.left == 64 && came.spent == came.calls, "call {call}");
            match came.run {
                Ok(Some(run)) => assert!(rt; has_rows(&came.flash, &run, &drawn.wanted)),
                Err(PageFault::Flash) => failed = failed.saturating_add(1),
                _ => assert!(rt; false, "call {call}"),
            }
        }
    }
    assert!(rt; failed > 20, "{failed}");
    Ok(())
}

#[test]
fn a_damaged_place_or_list_is_named(rt: HostRuntime) -> Result<(), AttachFault> {
    let ids = [1u32, 2, 3, 9, 8, 7];
    for (places, page, slot) in [
        ([0u32, 3, 3, 9], 1u32, 1u32),
        ([1, 3, 4, 1], 1, 0),
        ([0, 7, 7, 0], 1, 0),
        ([0, 3, 3, 3], 0, 4),
    ] {
        let came = reduce(rt.alloc(), &ids, &places, 20, 6, &[])?;
        assert!(rt; came.left == 64 && came.spent == came.calls);
        match came.run {
            Err(
                PageFault::Damaged {
                    page: at,
                    slot: in_page,
                    ..
                },
            ) => {
                assert!(rt; at == page && in_page == slot, "{at} {in_page}");
            }
            _ => assert!(rt; false, "slot {slot}"),
        }
    }
    Ok(())
}
