//! The replies of one text.

ghost use Rattle.std.specs.Prelude.{◌≡◌, ◌<◌, ◌≤◌, ◌+◌, ◌^◌, ℕ, Bool, true, List, map, IfSome};
ghost use Rattle.ghost_base.specs.Runs.{run_of};
ghost use Rattle.page_pool.specs.Pools.{Pool, page_at};
ghost use Rattle.edge_traits.specs.Devices.{Device};
ghost use Rattle.flash_pages.specs.Reads.{ReadsPages, CanRead, WasGiven};
ghost use Rattle.flash_pages.specs.Cursors.{IsReady, IsPageOf, ids_left};
ghost use Rattle.visible_spool.specs.Replies.{IsReadable, IsSound, HoldsRows, WasFound, id_of_bytes};
ghost use Rattle.visible_spool.specs.Searches.{GivesRow, IsCursorOf};
ghost use Rattle.visible_spool.specs.Halves.{reply_of, no_half, HasNoReply};

use crate::reply::Reply;
use crate::row::SpoolRow;
use edge_traits::flash::Flash;
use flash_pages::cursor::RunCursor;
use flash_pages::fault::PageFault;
use ghost_base::Kind;
use ghost_base::limits::{MAX_COLUMNS, MAX_TABLES};
use ghost_base::runs::Run;
use page_pool::{Lease, PagePool};

/// The replies of one text, by their tables. They are read as long as nothing is written to their half of the spool.
#[derive(Clone, Copy)]
pub struct Half {
    /// For each table its reply, one without rows where no row came for it.
    pub replies: [Reply; MAX_TABLES],
}

impl Half {
    /// No rows for any table.
    pub fn none() -> Half
        ensures half { result ≡ no_half }
        ensures none { (table : ℕ) → table < MAX_TABLES → HasNoReply result table }
    {
        let run = Run {
            first: 0,
            count: 0,
            width: 4,
        };
        let reply = Reply {
            run,
            rows: 0,
            cells: 0,
            kinds: [Kind::Integer; MAX_COLUMNS],
        };
        Half {
            replies: [reply; MAX_TABLES],
        }
    }

    /// The reply of a table.
    pub fn reply(&self, table: usize) -> Reply
        requires there { table < MAX_TABLES }
        ensures reply { result ≡ reply_of self.now table }
    {
        self.replies[table]
    }

    /// `reply` where it stands.
    pub fn reply_at(&self, table: usize) -> &Reply
        requires there { table < MAX_TABLES }
        ensures reply { result.now ≡ reply_of self.now table }
    {
        &self.replies[table]
    }

    /// The row of an identifier in the reply of a table: `Reply::find`.
    pub fn find<F: Flash>(
        &self,
        flash: &mut F,
        pool: &mut PagePool,
        lease: &Lease,
        table: usize,
        id: u32,
    ) -> Result<Option<SpoolRow>, PageFault>
        requires there { table < MAX_TABLES }
        requires readable { IsReadable (F.state flash.old) (reply_of self.now table) }
        requires ready { CanRead F.told (F.state flash.old) pool.old lease.now }
        ensures gives { F.told ≡ true → GivesRow (F.state flash.old) (F.state flash.new) (page_at pool.old lease.now) (reply_of self.now table) id result }
        ensures found { (since : ℕ) → since ≤ (F.state flash.old).calls → WasGiven since (F.state flash.old) pool.old lease.now → WasFound since (F.state flash.new) (reply_of self.now table) id result }
        ensures readable { IsReadable (F.state flash.new) (reply_of self.now table) }
        ensures read { (k : ℕ) → (reply_of self.now table).run.count < 2 ^ k → ReadsPages F.told (F.state flash.old) (F.state flash.new) pool.old pool.new lease.now (k + 3) result }
    {
        self.reply_at(table).find(flash, pool, lease, id)
    }

    /// The identifiers of the rows in the reply of a table: `Reply::ids`.
    pub fn ids(&self, table: usize, lease: Lease) -> RunCursor
        requires there { table < MAX_TABLES }
        ensures begins { IsCursorOf (reply_of self.now table) lease result }
        ensures ids { IsSound (reply_of self.now table) → (page : ℕ → List ℕ) (rows : List (List ℕ)) → HoldsRows page (reply_of self.now table) rows → ids_left page result ≡ map id_of_bytes rows }
        ensures ready { (told : Bool) (device : Device) (pool : Pool) → IsReadable device (reply_of self.now table) → CanRead told device pool lease → IfSome (page_at pool lease) (IsPageOf (run_of (reply_of self.now table).run)) → IsReady told device pool result }
    {
        self.reply_at(table).ids(lease)
    }
}
