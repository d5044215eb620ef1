//! Passes over lists as a work.

use crate::reduce::Reduce;
use crate::source::ListSource;
use crate::spared::reducing_is_spared;
use crate::works::work::Work;
use edge_traits::flash::Flash;
use flash_pages::fault::PageFault;
use page_pool::PagePool;

impl<S: ListSource + Drop> Work for Reduce<S> {
    ghost use Rattle.spill_pass.specs.ReduceWork.{SameReduce, left_in, reduce_again, reduce_apart, reduce_costs, reduce_damaged, reduce_given, reduce_has, reduce_held, reduce_itself, reduce_leases, reduce_outside, reduce_ready, reduce_rows, reduce_unwritten};

    ghost ready = { reduce_ready S.source S.ready };

    ghost has = { reduce_has S.has_lists S.may_give };

    ghost given = { reduce_given S.given };

    ghost damaged = { reduce_damaged S.damaged };

    ghost rows = { reduce_rows };

    ghost costs = { reduce_costs S.source S.has_lists };

    ghost left = { left_in S.source };

    ghost leases = { reduce_leases S.source };

    ghost unwritten = { reduce_unwritten };

    ghost outside = { reduce_outside S.source };

    ghost same = { SameReduce };

    fn step<F: Flash>(
        &mut self,
        flash: &mut F,
        pool: &mut PagePool,
        spent: &mut u64,
    ) -> Result<bool, PageFault> {
        Reduce::step(self, flash, pool, spent)
    }

    fn give_up(self, pool: &mut PagePool) {
        self.end(pool);
    }

    fn spared(&self) {
        reducing_is_spared();
        Reduce::spared(self);
    }

    ghost held = { reduce_held S.source S.ready };

    ghost apart = { reduce_apart S.source };

    ghost same_itself = { reduce_itself };

    ghost same_again = { reduce_again };
}
