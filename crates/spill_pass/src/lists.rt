//! The lists of a first pass and those of later ones.

use crate::places::PlaceReader;
use crate::source::ListSource;
use edge_traits::flash::Flash;
use flash_pages::fault::PageFault;
use ghost_base::runs::ListRef;
use page_pool::{Lease, PagePool};

/// The lists that were given to be merged, or those of an earlier pass.
#[derive(Drop)]
pub enum Lists<S> {
    /// Those that were given.
    Given(S),
    /// Those that a pass wrote, by their places.
    Placed(PlaceReader),
}

impl<S: ListSource + Drop> ListSource for Lists<S> {
    ghost use Rattle.spill_pass.specs.Listings.{source_in, ready_in, calls_in, may_in, has_in, given_in, damaged_in};

    ghost source = { source_in S.source };

    ghost ready = { ready_in S.ready };

    ghost calls = { calls_in S.calls };

    ghost may_give = { may_in S.may_give };

    ghost has_lists = { has_in S.has_lists };

    ghost given = { given_in S.given };

    ghost damaged = { damaged_in S.damaged };

    fn next_list<F: Flash>(
        &mut self,
        flash: &mut F,
        pool: &mut PagePool,
        spent: &mut u64,
    ) -> Result<Option<ListRef>, PageFault> {
        match self {
            Lists::Given(lists) => lists.next_list(flash, pool, spent),
            Lists::Placed(reader) => reader.next_list(flash, pool, spent),
        }
    }

    fn will_call(&self, pool: &PagePool) -> bool {
        match self {
            Lists::Given(lists) => lists.will_call(pool),
            Lists::Placed(reader) => reader.will_call(pool),
        }
    }

    fn lists_left(&self) -> u32 {
        match self {
            Lists::Given(lists) => lists.lists_left(),
            Lists::Placed(reader) => reader.lists_left(),
        }
    }

    fn end(self) -> Lease {
        match self {
            Lists::Given(lists) => lists.end(),
            Lists::Placed(reader) => reader.end(),
        }
    }

    fn spared(&self) {
        match self {
            Lists::Given(lists) => lists.spared(),
            Lists::Placed(reader) => reader.spared(),
        }
    }
}
