//! Lists that lie one behind another in a run, as a source of lists.

ghost use Rattle.spill_pass.specs.Listings.{ReaderGiven};
ghost use Rattle.spill_pass.specs.Places.{CanGive, DamagesReader, LiesInLists, ReaderHas, reads_place, source_of};

use crate::places::PlaceReader;
use crate::source::ListSource;
use edge_traits::flash::Flash;
use flash_pages::fault::PageFault;
use ghost_base::runs::ListRef;
use page_pool::{Lease, PagePool};

impl ListSource for PlaceReader {
    ghost source = { source_of };

    ghost ready = { CanGive };

    ghost calls = { reads_place };

    ghost may_give = { LiesInLists };

    ghost has_lists = { ReaderHas };

    ghost given = { ReaderGiven };

    ghost damaged = { DamagesReader };

    fn next_list<F: Flash>(
        &mut self,
        flash: &mut F,
        pool: &mut PagePool,
        spent: &mut u64,
    ) -> Result<Option<ListRef>, PageFault> {
        if self.will_read(pool) {
            *spent += 1;
        }
        self.next(flash, pool)
    }

    fn will_call(&self, pool: &PagePool) -> bool {
        self.will_read(pool)
    }

    fn lists_left(&self) -> u32 {
        self.places.count.saturating_sub(self.at)
    }

    fn end(self) -> Lease {
        self.lease
    }

    fn spared(&self) {}
}
