//! The places of lists that lie one behind another in a run.

ghost use Rattle.std.specs.Prelude.{◌≡◌, ◌^◌, ◌<◌, ◌≤◌, ◌++◌, Bool, true, ℕ};
ghost use Rattle.ghost_model.specs.forms.Runs.{page_of, number_cell, number_in};
ghost use Rattle.ghost_base.specs.Runs.{run_of};
ghost use Rattle.edge_traits.specs.Devices.{Device};
ghost use Rattle.page_pool.specs.Pools.{Pool, IsOut};
ghost use Rattle.flash_pages.specs.Reads.{CanRead, WasGiven};
ghost use Rattle.flash_pages.specs.Runs.{HasRun};
ghost use Rattle.spill_pass.specs.Places.{CanReadPlaces, GivesPlace, BlamesPlace, TakesPlace, ReadsPlace, reads_place};

use edge_traits::flash::Flash;
use flash_pages::cells::{found_of, number_at};
use flash_pages::fault::PageFault;
use flash_pages::fixed::fixed_get;
use ghost_base::runs::{ListRef, Run, per_page};
use page_pool::{Lease, PagePool};

/// The bytes of a place.
pub const PLACE_BYTES: u32 = 8;

/// A place as it is stored: the number of a list's first record and how many records it has, most significant byte first.
pub fn place_cell(first: u32, count: u32) -> [u8; 8]
    ensures cell { result ≡ number_cell first ++ number_cell count }
    ensures first { number_in result 0 ≡ first }
    ensures count { number_in result 4 ≡ count }
{
    let [a, b, c, d] = first.to_be_bytes();
    let [e, f, g, h] = count.to_be_bytes();
    [a, b, c, d, e, f, g, h]
}

/// Reads places, and gives the lists that stand there.
///
/// Each list begins where the one before it ends, and ends within the run; a place that says otherwise is damaged. So over any
/// pages the lists given have together no more records than the run.
#[derive(Drop)]
pub struct PlaceReader {
    /// The places, records of eight bytes.
    pub places: Run,
    /// The run in which the lists lie.
    pub lists: Run,
    /// How many lists were given.
    pub at: u32,
    /// The number of the record with which the next list begins.
    pub next: u32,
    /// The leave to use a buffer.
    pub lease: Lease,
}

impl PlaceReader {
    /// A reader of the places of lists in a run, at the first of them.
    pub fn begin(places: Run, lists: Run, lease: Lease) -> PlaceReader
        ensures places { result.places ≡ places }
        ensures lists { result.lists ≡ lists }
        ensures at { result.at ≡ 0 }
        ensures next { result.next ≡ 0 }
        ensures lease { result.lease ≡ lease }
        ensures ready { (told : Bool) → (device : Device) → (pool : Pool) → HasRun device (run_of places) → places.width ≡ 8 → CanRead told device pool lease → CanReadPlaces told device pool result }
    {
        PlaceReader {
            places,
            lists,
            at: 0,
            next: 0,
            lease,
        }
    }

    /// The next list, or `None` where all were given. It reads at most one page. After a fault the same call is made anew.
    pub fn next<F: Flash>(
        &mut self,
        flash: &mut F,
        pool: &mut PagePool,
    ) -> Result<Option<ListRef>, PageFault>
        requires ready { CanReadPlaces F.told (F.state flash.old) pool.old self.old }
        ensures gives { F.told ≡ true → GivesPlace (F.state flash.old).page self.old result }
        ensures blames { (since : ℕ) → since ≤ (F.state flash.old).calls → WasGiven since (F.state flash.old) pool.old self.old.lease → BlamesPlace since (F.state flash.new) self.old result }
        ensures always { TakesPlace F.told (F.state flash.new) pool.old pool.new self.old self.new result }
        ensures read { ReadsPlace F.told (F.state flash.old) (F.state flash.new) pool.old pool.new self.old result }
    {
        if self.at >= self.places.count {
            return Ok(None);
        }
        let mut cell = [0; 8];
        fixed_get(flash, pool, &self.lease, &self.places, self.at, &mut cell)?;
        let first = number_at(&cell, 0);
        let count = number_at(&cell, 4);
        if first != self.next || count > self.lists.count - self.next {
            let records = per_page(self.places.width);
            return Err(PageFault::Damaged {
                page: self.places.first + self.at / records,
                slot: self.at % records,
                found: found_of(&cell),
            });
        }
        self.at += 1;
        self.next = first + count;
        Ok(Some(ListRef {
            run: self.lists,
            first,
            count,
        }))
    }

    /// Whether the next call reads a page.
    pub fn will_read(&self, pool: &PagePool) -> bool
        requires width { self.now.places.width ≡ 8 }
        requires within { self.now.at < self.now.places.count → page_of (run_of self.now.places) self.now.at < 2 ^ 32 }
        requires out { IsOut pool.now self.now.lease }
        ensures reads { result ≡ reads_place pool.now self.now }
    {
        if self.at >= self.places.count {
            return false;
        }
        let page = self.places.first + self.at / per_page(self.places.width);
        match pool.filled_from(&self.lease) {
            None => true,
            Some(held) => held != page,
        }
    }

    /// Gives the lease back.
    pub fn end(self) -> Lease
        ensures lease { result ≡ self.lease }
    {
        self.lease
    }
}
