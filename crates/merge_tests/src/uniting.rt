//! Unions of several sources against sets.

use crate::device::lay_out;
use crate::pieces::agrees;
use crate::reductions::{Lists, left_in};
use crate::rows::{Numbers, note_range};
use crate::unions::{Member, Sources, united};
use candidate_lists::Scratch;
use edge_traits::flash::AttachFault;
use flash_pages::fault::PageFault;
use ghost_base::runs::Run;
use page_pool::PagePool;
use std::alloc::{AllocError, Global};

/// The rows of each case.
const ROWS: u32 = 3000;

/// What a union came to: whether it has the rows that were wanted, and how many leases were left.
type Came = (Result<bool, PageFault>, u32);

/// What the union of members comes to.
fn came(alloc: Global, drawn: &Lists, members: &[Member]) -> Result<Came, AttachFault> {
    if drawn.ids.len() > 2_000_000 || drawn.places.len() > 1_000_000 {
        return Err(AttachFault::NoMemory);
    }
    let mut laid = lay_out(alloc, &drawn.ids, &drawn.places, 1, &[])?;
    let mut pool = PagePool::new(alloc, 64)?;
    let sources = Sources {
        lists: laid.one,
        places: Run {
            first: laid.other.first,
            width: 8,
            count: laid.other.count / 2,
        },
        at: 0,
        next: 0,
    };
    let free = laid.free;
    let scratch = Scratch {
        candidates: free,
        spare: free,
        group: free,
        lists: free,
        other_lists: free,
        places: free,
        other_places: free,
    };
    let agreed = match united(members, sources, ROWS, scratch, &mut laid.flash, &mut pool) {
        Ok(candidates) => agrees(
            candidates.merge(),
            &mut laid.flash,
            &mut pool,
            &drawn.wanted,
        ),
        Err(fault) => Err(fault),
    };
    Ok((agreed, left_in(&mut pool)))
}

/// The lists of a source: so many of a seed. Those of two sources are equal as far as both have some.
fn draw(drawn: &mut Lists, seed: u64, lists: u32) -> Result<Member, AllocError> {
    let mut numbers = Numbers::seeded(seed);
    for _at in 0..lists {
        let count = numbers.below(90);
        drawn.draw(&mut numbers, count, 40, ROWS)?;
    }
    let places = u32::try_from(drawn.places.len()).unwrap_or(0) / 2;
    let ids = u32::try_from(drawn.ids.len()).unwrap_or(0);
    Ok(Member::Lists(places, ids))
}

#[test]
fn lists_of_several_sources_are_one_union(rt: HostRuntime) -> Result<(), AttachFault> {
    for (seed, first, second, third) in [
        (1u64, 3u32, 2u32, 4u32),
        (2, 0, 5, 1),
        (3, 1, 0, 0),
        (4, 20, 20, 20),
        (5, 0, 0, 0),
    ] {
        let mut drawn = Lists::none(rt.alloc(), ROWS)?;
        let one = draw(&mut drawn, seed, first)?;
        let two = draw(&mut drawn, seed.saturating_add(10), second)?;
        let three = draw(&mut drawn, seed, third)?;
        note_range(&mut drawn.wanted, 2990, 2995);
        note_range(&mut drawn.wanted, 7, 9);
        let members = [
            one,
            Member::Range(2990, 2995),
            two,
            three,
            Member::Range(7, 9),
            three,
        ];
        let (agreed, left) = came(rt.alloc(), &drawn, &members)?;
        assert!(rt; matches!(agreed, Ok(true)) && left == 64, "seed {seed}");
    }
    Ok(())
}
