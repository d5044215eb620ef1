//! A run that is written through a buffer that is lent.

ghost use Rattle.std.specs.Prelude.{◌≡◌, ◌<◌, ◌≤◌, ◌+◌, ◌-◌, ◌*◌, ◌/◌, ◌^◌, ◌++◌, ◌∷◌, [], true, false, Bool, List, ℕ, length, take, drop, replicate, if◌then◌else◌, IfOk, OnOk, OnErr};
ghost use Rattle.ghost_model.specs.core.Causes.{HasCause, Rose};
ghost use Rattle.std.specs.List.{slice_range};
ghost use Rattle.ghost_model.specs.forms.Runs.{Stores};
ghost use Rattle.edge_traits.specs.Devices.{Counts, KeepsPages, ChangesOnly};
ghost use Rattle.flash_pages.specs.Writing.{CanWritePage, IsEntered, reach, page_calls};

use edge_traits::Failed;
use edge_traits::flash::Flash;
use ghost_base::runs::{Run, per_page};

/// Writes a run, record by record, from a page on, through a buffer that each call is lent.
///
/// The records of a page are gathered in the buffer, which is written with 0xFF after them when it is full, or by `finish`.
/// Nothing else may write to it between the calls. With `erase` a block is erased when its first page is about to be written.
#[derive(Drop)]
pub struct RunFiller {
    /// The first page.
    pub first: u32,
    /// The bytes of a record.
    pub width: u32,
    /// Whether blocks are erased.
    pub erase: bool,
    /// How many whole pages were written.
    pub pages: u32,
    /// How many records wait in the buffer.
    pub held: u32,
    /// How many records were put.
    pub count: u32,
    ghost some: { 0 < width },
    ghost fits: { width ≤ 2048 },
    ghost not_full: { held < 2048 / width },
    ghost counted: { count ≡ pages * (2048 / width) + held },
}

/// Puts a record at a place of a page, at the first one after all bytes of the page became 0xFF.
fn put_cell(bytes: &mut [u8; 2048], at: usize, cell: &[u8])
    requires { at + length cell.now ≤ 2048 }
    ensures front { take at bytes.new ≡ take at bytes.old }
    ensures cell { slice_range bytes.new at (at + length cell.now) ≡ cell.now }
    ensures rest { (0 < at → drop at bytes.old ≡ replicate (2048 - at) 255) → drop (at + length cell.now) bytes.new ≡ replicate (2048 - (at + length cell.now)) 255 }
{
    if at == 0 {
        *bytes = [0xFF; 2048];
    }
    copy_cell(bytes, at, cell);
}

/// Copies a record to a place of a page.
fn copy_cell(bytes: &mut [u8; 2048], at: usize, cell: &[u8])
    requires { at + length cell.now ≤ 2048 }
    ensures { bytes.new ≡ take at bytes.old ++ (cell.now ++ drop (at + length cell.now) bytes.old) }
{
    bytes[at..at + cell.len()].copy_from_slice(cell);
}

/// Writes a page, and erases its block before where the page is its first and that is asked for. It adds each call to `spent`
/// before it makes it.
fn write_next<F: Flash>(
    flash: &mut F,
    page: u32,
    erase: bool,
    bytes: &[u8; 2048],
    spent: &mut u64,
) -> Result<(), Failed>
    requires can { CanWritePage (F.state flash.old) page erase }
    requires few { spent.old + 2 < 2 ^ 64 }
    ensures written { OnOk result (F.told ≡ true → (F.state flash.new).page page ≡ bytes.now) }
    ensures entered { OnOk result (IsEntered (F.state flash.new) (page + 1) erase) }
    ensures others { ChangesOnly page (reach page erase) (F.state flash.old) (F.state flash.new) }
    ensures exact { OnOk result (Counts (page_calls page erase) (F.state flash.old).calls (F.state flash.new).calls) }
    ensures at_most { (F.state flash.new).calls ≤ (F.state flash.old).calls + page_calls page erase }
    ensures deep_reads { (F.state flash.new).deep_reads ≡ (F.state flash.old).deep_reads }
    ensures cause { HasCause (F.state flash.old).faults (F.state flash.new).faults result }
    ensures last { OnErr result ((F.state flash.new).since_fault ≡ 0) }
    ensures called { OnErr result (Rose (F.state flash.old).calls (F.state flash.new).calls) }
    ensures counted { Counts (spent.new - spent.old) (F.state flash.old).calls (F.state flash.new).calls }
    ensures rises { spent.old ≤ spent.new }
    ensures most { spent.new ≤ spent.old + page_calls page erase }
    ensures all { OnOk result (spent.new ≡ spent.old + page_calls page erase) }
{
    if erase && page % 64 == 0 {
        *spent += 1;
        flash.erase_block(page / 64)?;
        *spent += 1;
        return flash.write_page(page, bytes);
    }
    *spent += 1;
    flash.write_page(page, bytes)
}

impl RunFiller {
    ghost use Rattle.ghost_base.specs.Runs.{run_of};
    ghost use Rattle.flash_pages.specs.Writers.{CanWrite, HasWritten, SameRun, IsRunOf, next_page, fills, waits, put_calls, finish_calls};

    /// For records of `width` bytes, 1 to 2,048, from the beginning of page `first` on. With `erase` that page is the
    /// first of a block; without it the pages that are written are blank.
    pub fn begin(first: u32, width: u32, erase: bool) -> RunFiller
        requires some { 0 < width }
        requires fits { width ≤ 2048 }
        ensures first { result.first ≡ first }
        ensures width { result.width ≡ width }
        ensures erase { result.erase ≡ erase }
        ensures pages { result.pages ≡ 0 }
        ensures held { result.held ≡ 0 }
        ensures count { result.count ≡ 0 }
        ensures none { (told : Bool) → (page : ℕ → List ℕ) → (bytes : List ℕ) → HasWritten told page bytes result [] }
    {
        RunFiller {
            first,
            width,
            erase,
            pages: 0,
            held: 0,
            count: 0,
        }
    }

    /// Adds a record, which has the run's width, and writes the page that it fills.
    ///
    /// After a failure nothing may be put any more.
    pub fn put<F: Flash>(
        &mut self,
        flash: &mut F,
        buf: &mut [u8; 2048],
        cell: &[u8],
    ) -> Result<(), Failed>
        requires can { CanWrite (F.state flash.old) self.old }
        requires width { length cell.now ≡ self.old.width }
        requires room { self.old.count < 2 ^ 32 - 1 }
        ensures appended { OnOk result ((records : List (List ℕ)) → HasWritten F.told (F.state flash.old).page buf.old self.old records → HasWritten F.told (F.state flash.new).page buf.new self.new (records ++ cell.now ∷ [])) }
        ensures counted { OnOk result (self.new.count ≡ self.old.count + 1) }
        ensures pages { OnOk result (self.new.pages ≡ self.old.pages + (if fills self.old then 1 else 0)) }
        ensures held { OnOk result (self.new.held ≡ (if fills self.old then 0 else self.old.held + 1)) }
        ensures failed { OnErr result (self.new ≡ self.old) }
        ensures same { SameRun self.old self.new }
        ensures entered { OnOk result (IsEntered (F.state flash.new) (next_page self.new) self.new.erase) }
        ensures unwritten { fills self.old ≡ false → KeepsPages (F.state flash.old) (F.state flash.new) }
        ensures others { ChangesOnly (next_page self.old) (reach (next_page self.old) self.old.erase) (F.state flash.old) (F.state flash.new) }
        ensures exact { OnOk result (Counts (put_calls self.old) (F.state flash.old).calls (F.state flash.new).calls) }
        ensures at_most { (F.state flash.new).calls ≤ (F.state flash.old).calls + put_calls self.old }
        ensures deep_reads { (F.state flash.new).deep_reads ≡ (F.state flash.old).deep_reads }
        ensures cause { HasCause (F.state flash.old).faults (F.state flash.new).faults result }
        ensures last { OnErr result ((F.state flash.new).since_fault ≡ 0) }
        ensures called { OnErr result (Rose (F.state flash.old).calls (F.state flash.new).calls) }
    {
        let mut spent = 0;
        self.put_and_count(flash, buf, cell, &mut spent)
    }

    /// Adds a record, which has the run's width, and writes the page that it fills. Each call is added to `spent` before it is made.
    ///
    /// After a failure nothing may be put any more.
    pub fn put_and_count<F: Flash>(
        &mut self,
        flash: &mut F,
        buf: &mut [u8; 2048],
        cell: &[u8],
        spent: &mut u64,
    ) -> Result<(), Failed>
        requires can { CanWrite (F.state flash.old) self.old }
        requires width { length cell.now ≡ self.old.width }
        requires room { self.old.count < 2 ^ 32 - 1 }
        requires few { spent.old + 2 < 2 ^ 64 }
        ensures appended { OnOk result ((records : List (List ℕ)) → HasWritten F.told (F.state flash.old).page buf.old self.old records → HasWritten F.told (F.state flash.new).page buf.new self.new (records ++ cell.now ∷ [])) }
        ensures count { OnOk result (self.new.count ≡ self.old.count + 1) }
        ensures pages { OnOk result (self.new.pages ≡ self.old.pages + (if fills self.old then 1 else 0)) }
        ensures held { OnOk result (self.new.held ≡ (if fills self.old then 0 else self.old.held + 1)) }
        ensures failed { OnErr result (self.new ≡ self.old) }
        ensures same { SameRun self.old self.new }
        ensures entered { OnOk result (IsEntered (F.state flash.new) (next_page self.new) self.new.erase) }
        ensures unwritten { fills self.old ≡ false → KeepsPages (F.state flash.old) (F.state flash.new) }
        ensures others { ChangesOnly (next_page self.old) (reach (next_page self.old) self.old.erase) (F.state flash.old) (F.state flash.new) }
        ensures exact { OnOk result (Counts (put_calls self.old) (F.state flash.old).calls (F.state flash.new).calls) }
        ensures at_most { (F.state flash.new).calls ≤ (F.state flash.old).calls + put_calls self.old }
        ensures deep_reads { (F.state flash.new).deep_reads ≡ (F.state flash.old).deep_reads }
        ensures cause { HasCause (F.state flash.old).faults (F.state flash.new).faults result }
        ensures last { OnErr result ((F.state flash.new).since_fault ≡ 0) }
        ensures called { OnErr result (Rose (F.state flash.old).calls (F.state flash.new).calls) }
        ensures counted { Counts (spent.new - spent.old) (F.state flash.old).calls (F.state flash.new).calls }
        ensures rises { spent.old ≤ spent.new }
        ensures most { spent.new ≤ spent.old + put_calls self.old }
        ensures all { OnOk result (spent.new ≡ spent.old + put_calls self.old) }
    {
        put_cell(buf, (self.held * self.width) as usize, cell);
        if self.held + 1 < per_page(self.width) {
            self.held += 1;
            self.count += 1;
            return Ok(());
        }
        write_next(flash, self.first + self.pages, self.erase, buf, spent)?;
        self.held = 0;
        self.pages += 1;
        self.count += 1;
        Ok(())
    }

    /// Writes the last page, if records wait for it, and answers the run. Nothing may be put after it.
    pub fn finish<F: Flash>(&mut self, flash: &mut F, buf: &[u8; 2048]) -> Result<Run, Failed>
        requires can { waits self.old ≡ true → CanWrite (F.state flash.old) self.old }
        ensures run { IfOk result (λ run. IsRunOf self.old run) }
        ensures stores { IfOk result (λ run. F.told ≡ true → (records : List (List ℕ)) → HasWritten F.told (F.state flash.old).page buf.now self.old records → Stores (F.state flash.new).page (run_of run) records) }
        ensures same { self.new ≡ self.old }
        ensures unwritten { waits self.old ≡ false → KeepsPages (F.state flash.old) (F.state flash.new) }
        ensures others { ChangesOnly (next_page self.old) (reach (next_page self.old) self.old.erase) (F.state flash.old) (F.state flash.new) }
        ensures exact { OnOk result (Counts (finish_calls self.old) (F.state flash.old).calls (F.state flash.new).calls) }
        ensures at_most { (F.state flash.new).calls ≤ (F.state flash.old).calls + finish_calls self.old }
        ensures deep_reads { (F.state flash.new).deep_reads ≡ (F.state flash.old).deep_reads }
        ensures cause { HasCause (F.state flash.old).faults (F.state flash.new).faults result }
        ensures last { OnErr result ((F.state flash.new).since_fault ≡ 0) }
        ensures called { OnErr result (Rose (F.state flash.old).calls (F.state flash.new).calls) }
    {
        let mut spent = 0;
        self.finish_and_count(flash, buf, &mut spent)
    }

    /// Writes the last page, if records wait for it, and answers the run. Nothing may be put after it. Each call is added
    /// to `spent` before it is made.
    pub fn finish_and_count<F: Flash>(
        &mut self,
        flash: &mut F,
        buf: &[u8; 2048],
        spent: &mut u64,
    ) -> Result<Run, Failed>
        requires can { waits self.old ≡ true → CanWrite (F.state flash.old) self.old }
        requires few { spent.old + 2 < 2 ^ 64 }
        ensures run { IfOk result (λ run. IsRunOf self.old run) }
        ensures stores { IfOk result (λ run. F.told ≡ true → (records : List (List ℕ)) → HasWritten F.told (F.state flash.old).page buf.now self.old records → Stores (F.state flash.new).page (run_of run) records) }
        ensures same { self.new ≡ self.old }
        ensures unwritten { waits self.old ≡ false → KeepsPages (F.state flash.old) (F.state flash.new) }
        ensures others { ChangesOnly (next_page self.old) (reach (next_page self.old) self.old.erase) (F.state flash.old) (F.state flash.new) }
        ensures exact { OnOk result (Counts (finish_calls self.old) (F.state flash.old).calls (F.state flash.new).calls) }
        ensures at_most { (F.state flash.new).calls ≤ (F.state flash.old).calls + finish_calls self.old }
        ensures deep_reads { (F.state flash.new).deep_reads ≡ (F.state flash.old).deep_reads }
        ensures cause { HasCause (F.state flash.old).faults (F.state flash.new).faults result }
        ensures last { OnErr result ((F.state flash.new).since_fault ≡ 0) }
        ensures called { OnErr result (Rose (F.state flash.old).calls (F.state flash.new).calls) }
        ensures counted { Counts (spent.new - spent.old) (F.state flash.old).calls (F.state flash.new).calls }
        ensures rises { spent.old ≤ spent.new }
        ensures most { spent.new ≤ spent.old + finish_calls self.old }
        ensures all { OnOk result (spent.new ≡ spent.old + finish_calls self.old) }
    {
        let run = Run {
            first: self.first,
            count: self.count,
            width: self.width,
        };
        if self.held == 0 {
            return Ok(run);
        }
        write_next(flash, self.first + self.pages, self.erase, buf, spent)?;
        Ok(run)
    }
}
