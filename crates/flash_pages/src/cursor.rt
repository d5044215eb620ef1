//! The ascending identifiers of a list.

ghost use Rattle.std.specs.Prelude.{◌≡◌, ◌<◌, ◌≤◌, ◌+◌, ◌^◌, true, IfOk, IfErr, OnOk, ℕ};
ghost use Rattle.page_pool.specs.Pools.{IsOut, bytes_at};
ghost use Rattle.flash_pages.specs.Faults.{BlamesNoSlot};
ghost use Rattle.flash_pages.specs.Cursors.{GivesNext, GivesPass, BlamesNext, BlamesPassed, TakesNext, PassesOver, CursorReads, LeavesUnread, SameList, IsReady, IsNext, id_in, will_read, unread_list, page_next};
ghost use Rattle.flash_pages.specs.Codes.{stand_of};
ghost use Rattle.flash_pages.specs.Looking.{IsInPage, DamagesAt, BlamesAt};
ghost use Rattle.flash_pages.specs.Reads.{Reads, WasGiven, must_read};
ghost use Rattle.ghost_base.specs.Runs.{run_of};

use crate::cells::{cell_of, found_from, found_of, number_at};
use crate::fault::PageFault;
use crate::load::load;
use crate::places::{left_in_page, pages_before, slot_in_page};
use crate::standing::{Stand, take_code, take_codes};
use edge_traits::flash::Flash;
use ghost_base::runs::ListRef;
use page_pool::{Lease, PagePool};

/// Reads the identifiers of a list one after another: the first four bytes of each record, or, in a run of single bytes, the sums
/// of the codes.
///
/// They ascend, and each is from 1 to `rows`; an identifier that does not so, and a code that is none, is damaged. A cursor reads
/// into the buffer of its lease, one page at a time.
#[derive(Drop)]
pub struct RunCursor {
    /// The list.
    pub list: ListRef,
    /// The last identifier that there may be.
    pub rows: u32,
    /// How many identifiers were given or passed over.
    pub at: u32,
    /// Where the next one stands in the run: the number of its record, or the byte at which its code begins.
    pub place: u32,
    /// The identifier given last, or looked at last, and 0 before the first.
    pub last: u32,
    /// The leave to use a buffer.
    pub lease: Lease,
}

impl RunCursor {
    /// A cursor at the beginning of a list, whose identifiers are from 1 to `rows`.
    pub fn begin(list: ListRef, rows: u32, lease: Lease) -> RunCursor
        ensures list { result.list ≡ list }
        ensures rows { result.rows ≡ rows }
        ensures at { result.at ≡ 0 }
        ensures place { result.place ≡ list.first }
        ensures last { result.last ≡ 0 }
        ensures lease { result.lease ≡ lease }
    {
        RunCursor {
            list,
            rows,
            at: 0,
            place: list.first,
            last: 0,
            lease,
        }
    }

    /// The next identifier, or `None` at the end of the list.
    ///
    /// It reads at most one page, and none where what it takes stands in the page that was read last. After a fault the same call
    /// is made anew.
    pub fn next<F: Flash>(
        &mut self,
        flash: &mut F,
        pool: &mut PagePool,
    ) -> Result<Option<u32>, PageFault>
        requires ready { IsReady F.told (F.state flash.old) pool.old self.old }
        ensures gives { F.told ≡ true → GivesNext (F.state flash.old).page self.old self.new result }
        ensures blames { (since : ℕ) → since ≤ (F.state flash.old).calls → WasGiven since (F.state flash.old) pool.old self.old.lease → BlamesNext since (F.state flash.new) self.old result }
        ensures always { TakesNext F.told (F.state flash.new) pool.new self.old self.new result }
        ensures read { CursorReads F.told (F.state flash.old) (F.state flash.new) pool.old pool.new self.old result }
        ensures unread { LeavesUnread (will_read pool.old self.old) (unread_list pool.old self.old) (unread_list pool.new self.new) result }
    {
        if self.at >= self.list.count {
            return Ok(None);
        }
        if self.list.run.width == 1 {
            return self.next_code(flash, pool);
        }
        let at = self.at;
        let id = self.look(flash, pool, at)?;
        self.at += 1;
        self.place += 1;
        self.last = id;
        Ok(Some(id))
    }

    /// Passes over the records of the list that stand in the page of the next one, where the last of them has an identifier
    /// below `bound`, and answers whether it did. Those before it are not looked at, and so not judged. Of codes it passes over
    /// those in the page of the next one whose identifiers are below `bound`, up to the first that is damaged, and blames none.
    ///
    /// It reads at most one page, as `next` does. At the end of the list it answers `false`.
    pub fn pass<F: Flash>(
        &mut self,
        flash: &mut F,
        pool: &mut PagePool,
        bound: u32,
    ) -> Result<bool, PageFault>
        requires ready { IsReady F.told (F.state flash.old) pool.old self.old }
        ensures gives { F.told ≡ true → GivesPass (F.state flash.old).page self.old self.new bound result }
        ensures blames { (since : ℕ) → since ≤ (F.state flash.old).calls → WasGiven since (F.state flash.old) pool.old self.old.lease → BlamesPassed since (F.state flash.new) self.old result }
        ensures always { PassesOver F.told (F.state flash.new) pool.new self.old self.new bound result }
        ensures read { CursorReads F.told (F.state flash.old) (F.state flash.new) pool.old pool.new self.old result }
        ensures unread { LeavesUnread (will_read pool.old self.old) (unread_list pool.old self.old) (unread_list pool.new self.new) result }
    {
        if self.at >= self.list.count {
            return Ok(false);
        }
        if self.list.run.width == 1 {
            return self.pass_codes(flash, pool, bound);
        }
        let at = self.at
            + left_in_page(self.list.run.width, self.place).min(self.list.count - 1 - self.at);
        let id = self.look(flash, pool, at)?;
        if id >= bound {
            return Ok(false);
        }
        self.at = at + 1;
        self.place = self.list.first + self.at;
        self.last = id;
        Ok(true)
    }

    /// The identifier of a record of the list that stands in the page of the next one, if it is in range and order.
    fn look<F: Flash>(&self, flash: &mut F, pool: &mut PagePool, at: u32) -> Result<u32, PageFault>
        requires ready { IsReady F.told (F.state flash.old) pool.old self.now }
        requires records { 4 ≤ self.now.list.run.width }
        requires here { IsInPage self.now at }
        requires small { self.now.list.first + at < 2 ^ 32 }
        ensures id { IfOk result (λ id. F.told ≡ true → id ≡ id_in (F.state flash.old).page self.now at) }
        ensures in_order { IfOk result (IsNext self.now) }
        ensures damage { IfErr result (λ fault. F.told ≡ true → DamagesAt (F.state flash.old).page self.now at fault) }
        ensures blames { IfErr result (λ fault. (since : ℕ) → since ≤ (F.state flash.old).calls → WasGiven since (F.state flash.old) pool.old self.now.lease → BlamesAt since (F.state flash.new) self.now at fault) }
        ensures ready { IsReady F.told (F.state flash.new) pool.new self.now }
        ensures read { Reads F.told (F.state flash.old) (F.state flash.new) pool.old pool.new self.now.lease (must_read pool.old self.now.lease (page_next self.now)) (page_next self.now) result }
    {
        let run = self.list.run;
        let place = self.list.first + at;
        let page = run.first + pages_before(run.width, place);
        let slot = slot_in_page(run.width, place);
        load(flash, pool, &self.lease, page)?;
        let cell = cell_of(pool.page(&self.lease), run.width, slot);
        let id = number_at(cell, 0);
        if id <= self.last || id > self.rows {
            let found = found_of(cell);
            return Err(PageFault::Damaged { page, slot, found });
        }
        Ok(id)
    }

    /// `next` over codes.
    fn next_code<F: Flash>(
        &mut self,
        flash: &mut F,
        pool: &mut PagePool,
    ) -> Result<Option<u32>, PageFault>
        requires ready { IsReady F.told (F.state flash.old) pool.old self.old }
        requires codes { self.old.list.run.width ≡ 1 }
        requires more { self.old.at < self.old.list.count }
        ensures gives { F.told ≡ true → GivesNext (F.state flash.old).page self.old self.new result }
        ensures blames { (since : ℕ) → since ≤ (F.state flash.old).calls → WasGiven since (F.state flash.old) pool.old self.old.lease → BlamesNext since (F.state flash.new) self.old result }
        ensures always { TakesNext F.told (F.state flash.new) pool.new self.old self.new result }
        ensures read { CursorReads F.told (F.state flash.old) (F.state flash.new) pool.old pool.new self.old result }
        ensures unread { LeavesUnread (will_read pool.old self.old) (unread_list pool.old self.old) (unread_list pool.new self.new) result }
    {
        self.load_codes(flash, pool)?;
        let run = self.list.run;
        let bytes = pool.page(&self.lease);
        let Some(next) = take_code(bytes, run.count, self.rows, self.stand()) else {
            let slot = self.place % 2048;
            return Err(PageFault::Damaged {
                page: run.first + self.place / 2048,
                slot,
                found: found_from(bytes, slot),
            });
        };
        self.at = next.at;
        self.place = next.place;
        self.last = next.last;
        Ok(Some(next.last))
    }

    /// `pass` over codes.
    fn pass_codes<F: Flash>(
        &mut self,
        flash: &mut F,
        pool: &mut PagePool,
        bound: u32,
    ) -> Result<bool, PageFault>
        requires ready { IsReady F.told (F.state flash.old) pool.old self.old }
        requires codes { self.old.list.run.width ≡ 1 }
        requires more { self.old.at < self.old.list.count }
        ensures gives { F.told ≡ true → GivesPass (F.state flash.old).page self.old self.new bound result }
        ensures always { PassesOver F.told (F.state flash.new) pool.new self.old self.new bound result }
        ensures read { CursorReads F.told (F.state flash.old) (F.state flash.new) pool.old pool.new self.old result }
        ensures unread { LeavesUnread (will_read pool.old self.old) (unread_list pool.old self.old) (unread_list pool.new self.new) result }
    {
        self.load_codes(flash, pool)?;
        let limit = self.rows.min(bound.saturating_sub(1));
        let bytes = pool.page(&self.lease);
        let next = take_codes(
            bytes,
            self.list.count,
            self.list.run.count,
            limit,
            self.stand(),
        );
        let passed = self.at < next.at;
        self.at = next.at;
        self.place = next.place;
        self.last = next.last;
        Ok(passed)
    }

    /// Has the page of the next code in the buffer. No slot is blamed.
    fn load_codes<F: Flash>(&self, flash: &mut F, pool: &mut PagePool) -> Result<(), PageFault>
        requires ready { IsReady F.told (F.state flash.old) pool.old self.now }
        requires codes { self.now.list.run.width ≡ 1 }
        requires more { self.now.at < self.now.list.count }
        ensures bytes { OnOk result (F.told ≡ true → bytes_at pool.new self.now.lease ≡ (F.state flash.old).page (page_next self.now)) }
        ensures read { CursorReads F.told (F.state flash.old) (F.state flash.new) pool.old pool.new self.now result }
        ensures ready { IsReady F.told (F.state flash.new) pool.new self.now }
        ensures no_slot { BlamesNoSlot result }
    {
        load(
            flash,
            pool,
            &self.lease,
            self.list.run.first + self.place / 2048,
        )
    }

    /// Where it stands.
    fn stand(&self) -> Stand
        ensures { result ≡ stand_of self.now }
    {
        Stand {
            at: self.at,
            place: self.place,
            last: self.last,
        }
    }

    /// Whether the next call of `next` or `pass` reads a page.
    pub fn will_read(&self, pool: &PagePool) -> bool
        requires some { 0 < self.now.list.run.width }
        requires fits { self.now.list.run.width ≤ 2048 }
        requires page { page_next self.now < 2 ^ 32 }
        requires out { IsOut pool.now self.now.lease }
        ensures { result ≡ will_read pool.now self.now }
    {
        if self.at >= self.list.count {
            return false;
        }
        let run = self.list.run;
        pool.filled_from(&self.lease) != Some(run.first + pages_before(run.width, self.place))
    }

    /// Gives the lease back.
    pub fn end(self) -> Lease
        ensures lease { result ≡ self.lease }
    {
        self.lease
    }
}
