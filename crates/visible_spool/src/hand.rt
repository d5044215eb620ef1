//! The reply at hand.

ghost use Rattle.std.specs.Prelude.{◌≡◌, ◌<◌, ◌≤◌, ◌+◌, ◌-◌, ◌*◌, ◌++◌, ◌∷◌, [], ℕ, Bool, true, false, List, length, drop, IfOk, OnOk, OnErr};
ghost use Rattle.ghost_model.specs.core.Causes.{HasCause, Rose};
ghost use Rattle.ghost_model.specs.core.NextMove.{are_cells};
ghost use Rattle.ghost_model.specs.forms.Runs.{number_in};
ghost use Rattle.edge_traits.specs.Devices.{Device, ChangesOnly};
ghost use Rattle.page_pool.specs.Pools.{Pool, IsOut, ChangesPage};
ghost use Rattle.visible_spool.specs.Replies.{IsReadable, HoldsRows, kinds_of};
ghost use Rattle.visible_spool.specs.Laws.{LiesWithin};
ghost use Rattle.flash_pages.specs.Writers.{waits};
ghost use Rattle.visible_spool.specs.Hands.{CanBegin, CanPut, HasRows, SameHand, IsReplyOf, area_end};

use crate::reply::Reply;
use edge_traits::Failed;
use edge_traits::flash::Flash;
use flash_pages::cells::number_at;
use flash_pages::filler::RunFiller;
use flash_pages::writer::RunWriter;
use page_pool::{Lease, PagePool};

/// The reply at hand.
#[derive(Drop)]
pub struct Hand {
    /// The text, by its number, and 0 where no reply is at hand.
    pub text: u32,
    /// The table.
    pub table: usize,
    /// Where it lies, and what its cells hold. Its rows are counted by the writer.
    pub reply: Reply,
    /// The identifier of its last row, and 0 before the first.
    pub last: u32,
    /// The writer of its rows.
    pub writer: RunWriter,
}

impl Hand {
    /// Begins another reply. Rows of the one before that were not written are lost.
    pub(crate) fn begin(&mut self, text: u32, table: usize, reply: Reply)
        requires wide { 4 ≤ reply.run.width }
        requires narrow { reply.run.width ≤ 1564 }
        ensures text { self.new.text ≡ text }
        ensures table { self.new.table ≡ table }
        ensures reply { self.new.reply ≡ reply }
        ensures last { self.new.last ≡ 0 }
        ensures pages { self.new.writer.filler.pages ≡ 0 }
        ensures lease { self.new.writer.lease ≡ self.old.writer.lease }
        ensures can { (device : Device) → CanBegin device reply → CanPut device self.new }
        ensures none { (told : Bool) (page : ℕ → List ℕ) (pool : Pool) → HasRows told page pool self.new [] }
    {
        self.text = text;
        self.table = table;
        self.reply = reply;
        self.last = 0;
        self.writer.filler = RunFiller::begin(reply.run.first, reply.run.width, true);
    }

    /// Puts a row behind the others, and writes the page that it fills. After a failure nothing may be put any more.
    pub(crate) fn put<F: Flash>(
        &mut self,
        flash: &mut F,
        pool: &mut PagePool,
        row: &[u8],
    ) -> Result<(), Failed>
        requires can { CanPut (F.state flash.old) self.old }
        requires out { IsOut pool.old self.old.writer.lease }
        requires width { length row.now ≡ self.old.reply.run.width }
        requires above { self.old.last < number_in row.now 0 }
        requires within { number_in row.now 0 ≤ self.old.reply.rows }
        ensures appended { OnOk result ((rows : List (List ℕ)) → HasRows F.told (F.state flash.old).page pool.old self.old rows → are_cells (kinds_of self.old.reply) (drop 4 row.now) ≡ true → HasRows F.told (F.state flash.new).page pool.new self.new (rows ++ row.now ∷ [])) }
        ensures last { OnOk result (self.new.last ≡ number_in row.now 0) }
        ensures can { OnOk result (CanPut (F.state flash.new) self.new) }
        ensures failed { OnErr result (self.new ≡ self.old) }
        ensures same { SameHand self.old self.new }
        ensures text { self.new.text ≡ self.old.text }
        ensures others { ChangesOnly self.old.reply.run.first (area_end self.old.reply) (F.state flash.old) (F.state flash.new) }
        ensures completes { OnOk result ((F.state flash.new).calls ≤ (F.state flash.old).calls + 2 * (self.new.writer.filler.pages - self.old.writer.filler.pages)) }
        ensures grows { self.old.writer.filler.pages ≤ self.new.writer.filler.pages }
        ensures at_most { (F.state flash.new).calls ≤ (F.state flash.old).calls + 2 }
        ensures deep_reads { (F.state flash.new).deep_reads ≡ (F.state flash.old).deep_reads }
        ensures cause { HasCause (F.state flash.old).faults (F.state flash.new).faults result }
        ensures since_fault { OnErr result ((F.state flash.new).since_fault ≡ 0) }
        ensures called { OnErr result (Rose (F.state flash.old).calls (F.state flash.new).calls) }
        ensures buffer { ChangesPage pool.old pool.new self.old.writer.lease }
        ensures out { IsOut pool.new self.new.writer.lease }
    {
        match self.writer.put(flash, pool, row) {
            Err(failed) => Err(failed),
            Ok(()) => {
                self.last = number_at(row, 0);
                Ok(())
            }
        }
    }

    /// Writes the last page, and answers the reply with all its rows. No reply is at hand then.
    pub(crate) fn finish<F: Flash>(
        &mut self,
        flash: &mut F,
        pool: &mut PagePool,
    ) -> Result<Reply, Failed>
        requires can { CanPut (F.state flash.old) self.old }
        requires out { IsOut pool.old self.old.writer.lease }
        ensures holds { IfOk result (λ reply. F.told ≡ true → (rows : List (List ℕ)) → HasRows F.told (F.state flash.old).page pool.old self.old rows → HoldsRows (F.state flash.new).page reply rows) }
        ensures readable { IfOk result (IsReadable (F.state flash.new)) }
        ensures reply { IfOk result (IsReplyOf self.old) }
        ensures lies { IfOk result (LiesWithin self.old.reply.run.first (area_end self.old.reply)) }
        ensures same { SameHand self.old self.new }
        ensures none { OnOk result (self.new.text ≡ 0) }
        ensures failed { OnErr result (self.new ≡ self.old) }
        ensures others { ChangesOnly self.old.reply.run.first (area_end self.old.reply) (F.state flash.old) (F.state flash.new) }
        ensures quiet { waits self.old.writer.filler ≡ false → (F.state flash.new).calls ≡ (F.state flash.old).calls }
        ensures at_most { (F.state flash.new).calls ≤ (F.state flash.old).calls + 2 }
        ensures deep_reads { (F.state flash.new).deep_reads ≡ (F.state flash.old).deep_reads }
        ensures cause { HasCause (F.state flash.old).faults (F.state flash.new).faults result }
        ensures since_fault { OnErr result ((F.state flash.new).since_fault ≡ 0) }
        ensures called { OnErr result (Rose (F.state flash.old).calls (F.state flash.new).calls) }
        ensures buffers { pool.new ≡ pool.old }
    {
        match self.writer.finish(flash, pool) {
            Err(failed) => Err(failed),
            Ok(run) => {
                self.text = 0;
                Ok(Reply {
                    run,
                    rows: self.reply.rows,
                    cells: self.reply.cells,
                    kinds: self.reply.kinds,
                })
            }
        }
    }
}
