//! A run that is written under a lease.

ghost use Rattle.std.specs.Prelude.{◌≡◌, ◌<◌, ◌≤◌, ◌+◌, ◌-◌, ◌^◌, ◌++◌, ◌∷◌, [], true, false, Bool, List, ℕ, None, length, IfOk, OnOk, OnErr};
ghost use Rattle.ghost_model.specs.forms.Runs.{Stores};
ghost use Rattle.edge_traits.specs.Devices.{Counts, KeepsPages};
ghost use Rattle.page_pool.specs.Pools.{Pool, IsOut, ChangesPage, page_at};
ghost use Rattle.flash_pages.specs.Writing.{IsEntered, reach};
ghost use Rattle.flash_pages.specs.Writers.{CanWrite, HasPut, HasOneMore, SameRun, IsRunOf, Writes, next_page, fills, waits, put_calls, finish_calls};
ghost use Rattle.ghost_base.specs.Runs.{run_of};

use crate::filler::RunFiller;
use edge_traits::Failed;
use edge_traits::flash::Flash;
use ghost_base::runs::Run;
use page_pool::{Lease, PagePool};

/// Writes a run, record by record, from a page on, through the buffer of its lease.
///
/// A page is written when its last record is put, with 0xFF after the records, or by `finish`. With `erase` a block is erased
/// when its first page is about to be written.
#[derive(Drop)]
pub struct RunWriter {
    /// How far the run is.
    pub filler: RunFiller,
    /// The leave to use a buffer.
    pub lease: Lease,
}

impl RunWriter {
    /// A writer of records of `width` bytes, 1 to 2,048, from the beginning of page `first` on. With `erase` that page is the
    /// first of a block; without it the pages that are written are blank.
    pub fn begin(first: u32, width: u32, erase: bool, lease: Lease) -> RunWriter
        requires some { 0 < width }
        requires fits { width ≤ 2048 }
        ensures first { result.filler.first ≡ first }
        ensures width { result.filler.width ≡ width }
        ensures erase { result.filler.erase ≡ erase }
        ensures pages { result.filler.pages ≡ 0 }
        ensures held { result.filler.held ≡ 0 }
        ensures count { result.filler.count ≡ 0 }
        ensures lease { result.lease ≡ lease }
        ensures none { (told : Bool) → (page : ℕ → List ℕ) → (pool : Pool) → HasPut told page pool result [] }
    {
        RunWriter {
            filler: RunFiller::begin(first, width, erase),
            lease,
        }
    }

    /// Adds a record, which has the run's width, and writes the page that it fills.
    ///
    /// After a failure nothing may be put any more.
    pub fn put<F: Flash>(
        &mut self,
        flash: &mut F,
        pool: &mut PagePool,
        cell: &[u8],
    ) -> Result<(), Failed>
        requires can { CanWrite (F.state flash.old) self.old.filler }
        requires out { IsOut pool.old self.old.lease }
        requires width { length cell.now ≡ self.old.filler.width }
        requires room { self.old.filler.count < 2 ^ 32 - 1 }
        ensures appended { OnOk result ((records : List (List ℕ)) → HasPut F.told (F.state flash.old).page pool.old self.old records → HasPut F.told (F.state flash.new).page pool.new self.new (records ++ cell.now ∷ [])) }
        ensures more { OnOk result (HasOneMore self.old.filler self.new.filler) }
        ensures failed { OnErr result (self.new ≡ self.old) }
        ensures same { SameRun self.old.filler self.new.filler }
        ensures lease { self.new.lease ≡ self.old.lease }
        ensures entered { OnOk result (IsEntered (F.state flash.new) (next_page self.new.filler) self.new.filler.erase) }
        ensures unwritten { fills self.old.filler ≡ false → KeepsPages (F.state flash.old) (F.state flash.new) }
        ensures writes { Writes (F.state flash.old) (F.state flash.new) (next_page self.old.filler) (reach (next_page self.old.filler) self.old.filler.erase) (put_calls self.old.filler) result }
        ensures buffer { ChangesPage pool.old pool.new self.old.lease }
        ensures out { IsOut pool.new self.new.lease }
        ensures unheld { page_at pool.new self.new.lease ≡ None }
    {
        self.filler.put(flash, pool.page_mut(&self.lease), cell)
    }

    /// Adds a record, which has the run's width, and writes the page that it fills. Each call is added to `spent` before it is made.
    ///
    /// After a failure nothing may be put any more.
    pub fn put_and_count<F: Flash>(
        &mut self,
        flash: &mut F,
        pool: &mut PagePool,
        cell: &[u8],
        spent: &mut u64,
    ) -> Result<(), Failed>
        requires can { CanWrite (F.state flash.old) self.old.filler }
        requires out { IsOut pool.old self.old.lease }
        requires width { length cell.now ≡ self.old.filler.width }
        requires room { self.old.filler.count < 2 ^ 32 - 1 }
        requires few { spent.old + 2 < 2 ^ 64 }
        ensures appended { OnOk result ((records : List (List ℕ)) → HasPut F.told (F.state flash.old).page pool.old self.old records → HasPut F.told (F.state flash.new).page pool.new self.new (records ++ cell.now ∷ [])) }
        ensures more { OnOk result (HasOneMore self.old.filler self.new.filler) }
        ensures failed { OnErr result (self.new ≡ self.old) }
        ensures same { SameRun self.old.filler self.new.filler }
        ensures lease { self.new.lease ≡ self.old.lease }
        ensures entered { OnOk result (IsEntered (F.state flash.new) (next_page self.new.filler) self.new.filler.erase) }
        ensures unwritten { fills self.old.filler ≡ false → KeepsPages (F.state flash.old) (F.state flash.new) }
        ensures writes { Writes (F.state flash.old) (F.state flash.new) (next_page self.old.filler) (reach (next_page self.old.filler) self.old.filler.erase) (put_calls self.old.filler) result }
        ensures buffer { ChangesPage pool.old pool.new self.old.lease }
        ensures out { IsOut pool.new self.new.lease }
        ensures unheld { page_at pool.new self.new.lease ≡ None }
        ensures counted { Counts (spent.new - spent.old) (F.state flash.old).calls (F.state flash.new).calls }
        ensures rises { spent.old ≤ spent.new }
        ensures most { spent.new ≤ spent.old + put_calls self.old.filler }
        ensures all { OnOk result (spent.new ≡ spent.old + put_calls self.old.filler) }
    {
        self.filler
            .put_and_count(flash, pool.page_mut(&self.lease), cell, spent)
    }

    /// Writes the last page, if records wait for it, and answers the run. Nothing may be put after it before `restart`.
    pub fn finish<F: Flash>(&mut self, flash: &mut F, pool: &mut PagePool) -> Result<Run, Failed>
        requires can { waits self.old.filler ≡ true → CanWrite (F.state flash.old) self.old.filler }
        requires out { IsOut pool.old self.old.lease }
        ensures run { IfOk result (λ run. IsRunOf self.old.filler run) }
        ensures stores { IfOk result (λ run. F.told ≡ true → (records : List (List ℕ)) → HasPut F.told (F.state flash.old).page pool.old self.old records → Stores (F.state flash.new).page (run_of run) records) }
        ensures same { self.new ≡ self.old }
        ensures unwritten { waits self.old.filler ≡ false → KeepsPages (F.state flash.old) (F.state flash.new) }
        ensures writes { Writes (F.state flash.old) (F.state flash.new) (next_page self.old.filler) (reach (next_page self.old.filler) self.old.filler.erase) (finish_calls self.old.filler) result }
        ensures buffers { pool.new ≡ pool.old }
    {
        self.filler.finish(flash, pool.page(&self.lease))
    }

    /// Writes the last page, if records wait for it, and answers the run. Nothing may be put after it before `restart`.
    /// Each call is added to `spent` before it is made.
    pub fn finish_and_count<F: Flash>(
        &mut self,
        flash: &mut F,
        pool: &mut PagePool,
        spent: &mut u64,
    ) -> Result<Run, Failed>
        requires can { waits self.old.filler ≡ true → CanWrite (F.state flash.old) self.old.filler }
        requires out { IsOut pool.old self.old.lease }
        requires few { spent.old + 2 < 2 ^ 64 }
        ensures run { IfOk result (λ run. IsRunOf self.old.filler run) }
        ensures stores { IfOk result (λ run. F.told ≡ true → (records : List (List ℕ)) → HasPut F.told (F.state flash.old).page pool.old self.old records → Stores (F.state flash.new).page (run_of run) records) }
        ensures same { self.new ≡ self.old }
        ensures unwritten { waits self.old.filler ≡ false → KeepsPages (F.state flash.old) (F.state flash.new) }
        ensures writes { Writes (F.state flash.old) (F.state flash.new) (next_page self.old.filler) (reach (next_page self.old.filler) self.old.filler.erase) (finish_calls self.old.filler) result }
        ensures buffers { pool.new ≡ pool.old }
        ensures counted { Counts (spent.new - spent.old) (F.state flash.old).calls (F.state flash.new).calls }
        ensures rises { spent.old ≤ spent.new }
        ensures most { spent.new ≤ spent.old + finish_calls self.old.filler }
        ensures all { OnOk result (spent.new ≡ spent.old + finish_calls self.old.filler) }
    {
        self.filler
            .finish_and_count(flash, pool.page(&self.lease), spent)
    }

    /// Begins another run of records of the same width at page `first`, with the same lease. What waited for its page is lost.
    pub fn restart(&mut self, first: u32)
        ensures first { self.new.filler.first ≡ first }
        ensures width { self.new.filler.width ≡ self.old.filler.width }
        ensures erase { self.new.filler.erase ≡ self.old.filler.erase }
        ensures pages { self.new.filler.pages ≡ 0 }
        ensures held { self.new.filler.held ≡ 0 }
        ensures count { self.new.filler.count ≡ 0 }
        ensures lease { self.new.lease ≡ self.old.lease }
        ensures none { (told : Bool) → (page : ℕ → List ℕ) → (pool : Pool) → HasPut told page pool self.new [] }
    {
        self.filler = RunFiller::begin(first, self.filler.width, self.filler.erase);
    }

    /// Gives the lease back.
    pub fn end(self) -> Lease
        ensures lease { result ≡ self.lease }
    {
        self.lease
    }
}
