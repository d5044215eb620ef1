//! Merges that are put together from lists and ranges.

ghost use Rattle.std.specs.Prelude.{◌≡◌, ◌+◌, ◌<◌, ◌≤◌, true, length, sum};
ghost use Rattle.ghost_base.specs.Runs.{run_of};
ghost use Rattle.edge_traits.specs.Devices.{Device};
ghost use Rattle.page_pool.specs.Pools.{Pool};
ghost use Rattle.flash_pages.specs.Cursors.{IsListWidth};
ghost use Rattle.flash_pages.specs.Runs.{HasRun};
ghost use Rattle.id_merge.specs.Cursors.{AllReady};
ghost use Rattle.id_merge.specs.Merges.{CanMerge};

use crate::rows::first_from;
use arrayvec::ArrayVec;
use edge_traits::flash::Flash;
use edge_traits::mem_flash::MemFlash;
use flash_pages::cursor::RunCursor;
use flash_pages::fault::PageFault;
use ghost_base::runs::{ListRef, Run};
use id_merge::{Cursor, Merge};
use page_pool::PagePool;

/// What a cursor of a merge is made from, or that a union begins.
#[derive(Clone, Copy)]
pub enum Piece {
    /// Another union begins.
    Another,
    /// A list of so many identifiers of a run, from a place on.
    List(u32, u32),
    /// A range.
    Range(u32, u32),
}

/// A merge that is put together.
#[derive(Drop)]
struct Together {
    cursors: ArrayVec<Cursor, 96>,
    unions: ArrayVec<u32, 96>,
    /// How many cursors the last union has.
    last: u32,
}

impl Together {
    /// Adds a cursor or a union, as long as there is room and a buffer for it.
    fn put(&mut self, piece: Piece, run: &Run, rows: u32, pool: &mut PagePool)
        requires sums { sum self.old.unions.items + self.old.last ≡ length self.old.cursors.items }
        requires room { length self.old.unions.items < 96 }
        ensures sums { sum self.new.unions.items + self.new.last ≡ length self.new.cursors.items }
        ensures room { length self.new.unions.items < 96 }
        ensures ready { (device : Device) → HasRun device (run_of run.now) → IsListWidth run.now.width → AllReady true device pool.old self.old.cursors.items → AllReady true device pool.new self.new.cursors.items }
    {
        match piece {
            Piece::Another => self.begin_union(),
            Piece::List(first, count) => {
                let first = first.min(run.count);
                let list = ListRef {
                    run: *run,
                    first,
                    count: count.min(run.count - first),
                };
                self.put_list(list, rows, pool);
            }
            Piece::Range(low, high) => self.put_range(low, high),
        }
    }

    /// Begins another union.
    fn begin_union(&mut self)
        requires sums { sum self.old.unions.items + self.old.last ≡ length self.old.cursors.items }
        requires room { length self.old.unions.items < 96 }
        ensures sums { sum self.new.unions.items + self.new.last ≡ length self.new.cursors.items }
        ensures room { length self.new.unions.items < 96 }
        ensures cursors { self.new.cursors ≡ self.old.cursors }
    {
        if self.unions.len() < 95 {
            self.unions.push(self.last);
            self.last = 0;
        }
    }

    /// Adds a list.
    fn put_list(&mut self, list: ListRef, rows: u32, pool: &mut PagePool)
        requires sums { sum self.old.unions.items + self.old.last ≡ length self.old.cursors.items }
        ensures sums { sum self.new.unions.items + self.new.last ≡ length self.new.cursors.items }
        ensures unions { self.new.unions ≡ self.old.unions }
        ensures ready { (device : Device) → HasRun device (run_of list.run) → IsListWidth list.run.width → list.first + list.count ≤ list.run.count → AllReady true device pool.old self.old.cursors.items → AllReady true device pool.new self.new.cursors.items }
    {
        if self.cursors.is_full() {
            return;
        }
        if let Some(lease) = pool.lease() {
            let cursor = RunCursor::begin(list, rows, lease);
            self.cursors.push(Cursor::List(cursor));
            self.last += 1;
        }
    }

    /// Adds a range.
    fn put_range(&mut self, low: u32, high: u32)
        requires sums { sum self.old.unions.items + self.old.last ≡ length self.old.cursors.items }
        ensures sums { sum self.new.unions.items + self.new.last ≡ length self.new.cursors.items }
        ensures unions { self.new.unions ≡ self.old.unions }
        ensures ready { (device : Device) → (pool : Pool) → AllReady true device pool self.old.cursors.items → AllReady true device pool self.new.cursors.items }
    {
        if self.cursors.is_full() {
            return;
        }
        self.cursors.push(Cursor::Range { low, high });
        self.last += 1;
    }
}

/// A merge of lists of a run and ranges, with a lease of each list.
pub fn merge_of(pieces: &[Piece], run: &Run, rows: u32, pool: &mut PagePool) -> Merge
    ensures can { (device : Device) → HasRun device (run_of run.now) → IsListWidth run.now.width → CanMerge true device pool.new result }
{
    let mut together = Together {
        cursors: ArrayVec::new(),
        unions: ArrayVec::new(),
        last: 0,
    };
    'pieces: for piece in pieces {
        together.put(*piece, run, rows, pool);
    }
    let Together {
        cursors,
        unions,
        last,
    } = together;
    let mut unions = unions;
    unions.push(last);
    Merge::new(cursors, unions)
}

/// Whether a merge gives exactly the rows in which something is, ascending. It gives its leases back.
pub fn agrees(
    merge: Merge,
    flash: &mut MemFlash,
    pool: &mut PagePool,
    wanted: &[bool],
) -> Result<bool, PageFault>
    requires can { CanMerge true (⟦<MemFlash as Flash>⟧.state flash.old) pool.old merge }
{
    let mut merge = merge;
    let mut next = 1;
    let mut same = true;
    'ids: loop {
        match merge.next(flash, pool) {
            Err(fault) => {
                merge.end(pool);
                return Err(fault);
            }
            Ok(None) => {
                merge.end(pool);
                return Ok(same && first_from(wanted, next).is_none());
            }
            Ok(Some(id)) => {
                same = same && first_from(wanted, next) == Some(id as usize);
                next = id as usize + 1;
            }
        }
    }
}
