//! A row by its identifier, and all identifiers.

ghost use Rattle.std.specs.Prelude.{◌≡◌, ◌<◌, ◌≤◌, ◌+◌, ◌^◌, ℕ, Bool, true, List, map, IfSome};
ghost use Rattle.ghost_base.specs.Runs.{run_of};
ghost use Rattle.edge_traits.specs.Devices.{Device};
ghost use Rattle.page_pool.specs.Pools.{Pool, page_at};
ghost use Rattle.flash_pages.specs.Reads.{ReadsPages, CanRead, WasGiven};
ghost use Rattle.flash_pages.specs.Cursors.{IsReady, IsPageOf, ids_left};
ghost use Rattle.visible_spool.specs.Searches.{GivesRow, IsCursorOf};
ghost use Rattle.visible_spool.specs.Replies.{IsReadable, IsSound, HoldsRows, WasFound, id_of_bytes};

use crate::reply::Reply;
use crate::row::SpoolRow;
use crate::search::{Search, Step};
use edge_traits::flash::Flash;
use flash_pages::cursor::RunCursor;
use flash_pages::fault::PageFault;
use ghost_base::runs::ListRef;
use page_pool::{Lease, PagePool};

impl Reply {
    /// The row of an identifier, and none exactly where the reply has none.
    ///
    /// Of a reply with less than 2^k rows it reads at most k + 3 pages, and none where the identifier lies between those of rows
    /// of the page in the buffer. For each other identifier it reads a page at least, unless the reply has no rows.
    pub fn find<F: Flash>(
        &self,
        flash: &mut F,
        pool: &mut PagePool,
        lease: &Lease,
        id: u32,
    ) -> Result<Option<SpoolRow>, PageFault>
        requires readable { IsReadable (F.state flash.old) self.now }
        requires ready { CanRead F.told (F.state flash.old) pool.old lease.now }
        ensures gives { F.told ≡ true → GivesRow (F.state flash.old) (F.state flash.new) (page_at pool.old lease.now) self.now id result }
        ensures found { (since : ℕ) → since ≤ (F.state flash.old).calls → WasGiven since (F.state flash.old) pool.old lease.now → WasFound since (F.state flash.new) self.now id result }
        ensures readable { IsReadable (F.state flash.new) self.now }
        ensures read { (k : ℕ) → self.now.run.count < 2 ^ k → ReadsPages F.told (F.state flash.old) (F.state flash.new) pool.old pool.new lease.now (k + 3) result }
    {
        let mut search = Search::New;
        'steps: loop {
            match self.step(flash, pool, lease, &mut search, id) {
                Err(fault) => return Err(fault),
                Ok(Step::Found(None)) => return Ok(None),
                Ok(Step::Beyond) => return Ok(None),
                Ok(Step::Found(Some(place))) => {
                    return Ok(Some(SpoolRow::of(self.row(pool.page(lease), place))));
                }
                Ok(Step::More) => {}
            }
        }
    }

    /// The identifiers of the rows, in their order.
    pub fn ids(&self, lease: Lease) -> RunCursor
        ensures begins { IsCursorOf self.now lease result }
        ensures ids { IsSound self.now → (page : ℕ → List ℕ) (rows : List (List ℕ)) → HoldsRows page self.now rows → ids_left page result ≡ map id_of_bytes rows }
        ensures ready { (told : Bool) (device : Device) (pool : Pool) → IsReadable device self.now → CanRead told device pool lease → IfSome (page_at pool lease) (IsPageOf (run_of self.now.run)) → IsReady told device pool result }
    {
        ghost_model::runs::identifiers_of_records();
        let list = ListRef {
            run: self.run,
            first: 0,
            count: self.run.count,
        };
        RunCursor::begin(list, self.rows, lease)
    }
}
