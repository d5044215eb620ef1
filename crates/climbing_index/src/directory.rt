//! The directory of an index, whose entries say where their lists stand.

ghost use Rattle.std.specs.Prelude.{◌≡◌, ◌<◌, ◌≤◌, ◌+◌, ◌*◌, ℕ, true, length, Some, IfErr, slice_get, option_map};
ghost use Rattle.ghost_base.specs.Runs.{run_of};
ghost use Rattle.flash_pages.specs.Reads.{Reads, CanRead, WasGiven, must_read};
ghost use Rattle.climbing_index.specs.Directories.{IsReadable, GivesEntry, GivesList, GivesStanding, GivesWithin, WasEntry, BlamesRecord, GivesPlace, entry_page, entry_stands, are_places, spells, plain_cell, file_of};

use crate::damage::damage;
use arrayvec::ArrayVec;
use edge_traits::flash::Flash;
use flash_pages::cells::number_at;
use flash_pages::fault::PageFault;
use flash_pages::fixed::fixed_get;
use ghost_base::Kind;
use ghost_base::cells::decode_cell;
use ghost_base::limits::{MAX_CELL, MAX_TABLES};
use ghost_base::runs::{ListRef, Run};
use page_pool::{Lease, PagePool};

/// The most bytes of an entry: a cell, and eight bytes for each level.
pub const MAX_ENTRY: usize = MAX_CELL + 8 * MAX_TABLES;

/// A level file: lists of identifiers as gaps.
#[derive(Clone, Copy, Default)]
pub struct LevelFile {
    /// The number of the first page.
    pub first: u32,
    /// How many bytes it has room for.
    pub count: u32,
}

impl LevelFile {
    /// Its run, of single bytes.
    pub fn run(&self) -> Run
        ensures run { run_of result ≡ file_of self.now }
    {
        Run {
            first: self.first,
            count: self.count,
            width: 1,
        }
    }
}

/// The directory and the level files of an index.
#[derive(Drop)]
pub struct Directory {
    /// Room for an entry for each row of the table.
    pub run: Run,
    /// What the cell of an entry spells, where it has one.
    pub kind: Option<Kind>,
    /// The bytes of a cell.
    pub cell: u32,
    /// The level files in order.
    pub levels: ArrayVec<LevelFile, MAX_TABLES>,
}

/// Whether bytes spell a value of a kind, where there is one.
fn is_spelled(kind: Option<Kind>, bytes: &[u8]) -> bool
    requires narrow { plain_cell kind ≤ 64 }
    ensures spells { result ≡ spells kind bytes.now }
{
    match kind {
        None => true,
        Some(kind) => decode_cell(kind, bytes).is_some(),
    }
}

/// Whether the lists whose places these are end within their level files.
fn are_within(levels: &[LevelFile], bytes: &[u8]) -> bool
    requires width { length bytes.now ≡ 8 * length levels.now }
    ensures places { result ≡ are_places levels.now bytes.now }
{
    let mut rest = bytes;
    for level in levels {
        let end = u64::from(number_at(rest, 0)) + u64::from(number_at(rest, 4));
        if u64::from(level.count) < end {
            return false;
        }
        rest = &rest[8..];
    }
    true
}

impl Directory {
    /// Whether bytes may stand in a slot of the directory.
    fn stands(&self, bytes: &[u8]) -> bool
        requires narrow { plain_cell self.now.kind ≤ 64 }
        requires width { length bytes.now ≡ self.now.cell + 8 * length self.now.levels.items }
        ensures stands { result ≡ entry_stands self.now bytes.now }
    {
        let cell = self.cell as usize;
        is_spelled(self.kind, &bytes[..cell]) && are_within(&self.levels, &bytes[cell..])
    }

    /// Copies an entry, counted from 0, into `out`, which has the directory's width.
    ///
    /// An entry whose cell spells no value, or one of whose lists ends past its level file, is damaged. It reads at most one
    /// page, and none where the page stands in the buffer of the lease.
    pub fn entry<F: Flash>(
        &self,
        flash: &mut F,
        pool: &mut PagePool,
        lease: &Lease,
        entry: u32,
        out: &mut [u8],
    ) -> Result<(), PageFault>
        requires readable { IsReadable (F.state flash.old) self.now }
        requires within { entry < self.now.run.count }
        requires width { length out.old ≡ self.now.run.width }
        requires ready { CanRead F.told (F.state flash.old) pool.old lease.now }
        ensures gives { F.told ≡ true → GivesEntry (F.state flash.old).page self.now entry out.new result }
        ensures found { (since : ℕ) → since ≤ (F.state flash.old).calls → WasGiven since (F.state flash.old) pool.old lease.now → WasEntry since (F.state flash.new) self.now entry out.new result }
        ensures always { GivesStanding (F.state flash.new) self.now entry out.new result }
        ensures read { Reads F.told (F.state flash.old) (F.state flash.new) pool.old pool.new lease.now (must_read pool.old lease.now (entry_page self.now entry)) (entry_page self.now entry) result }
    {
        match fixed_get(flash, pool, lease, &self.run, entry, out) {
            Err(failed) => Err(failed),
            Ok(()) => {
                if self.stands(out) {
                    Ok(())
                } else {
                    Err(damage(&self.run, entry, out))
                }
            }
        }
    }

    /// The list of an entry at a level, each counted from 0.
    ///
    /// It reads at most one page, and none where the page stands in the buffer of the lease.
    pub fn list<F: Flash>(
        &self,
        flash: &mut F,
        pool: &mut PagePool,
        lease: &Lease,
        entry: u32,
        level: usize,
    ) -> Result<ListRef, PageFault>
        requires readable { IsReadable (F.state flash.old) self.now }
        requires within { entry < self.now.run.count }
        requires level { level < length self.now.levels.items }
        requires ready { CanRead F.told (F.state flash.old) pool.old lease.now }
        ensures gives { F.told ≡ true → GivesList (F.state flash.old).page self.now entry level result }
        ensures blames { (since : ℕ) → since ≤ (F.state flash.old).calls → WasGiven since (F.state flash.old) pool.old lease.now → IfErr result (λ fault. BlamesRecord since (F.state flash.new) (run_of self.now.run) (entry_stands self.now) entry fault) }
        ensures always { GivesWithin (IsReadable (F.state flash.new) self.now) self.now entry level result }
        ensures read { Reads F.told (F.state flash.old) (F.state flash.new) pool.old pool.new lease.now (must_read pool.old lease.now (entry_page self.now entry)) (entry_page self.now entry) result }
    {
        let mut bytes = [0; MAX_ENTRY];
        let bytes = &mut bytes[..self.run.width as usize];
        match self.entry(flash, pool, lease, entry, bytes) {
            Err(fault) => Err(fault),
            Ok(()) => Ok(self.list_in(bytes, level)),
        }
    }

    /// The list that an entry with these bytes has at a level, counted from 0.
    pub fn list_in(&self, bytes: &[u8], level: usize) -> ListRef
        requires width { length bytes.now ≡ self.now.cell + 8 * length self.now.levels.items }
        requires stands { entry_stands self.now bytes.now ≡ true }
        requires level { level < length self.now.levels.items }
        ensures run { option_map file_of (slice_get self.now.levels.items level) ≡ Some (run_of result.run) }
        ensures list { GivesPlace self.now bytes.now level result }
        ensures within { result.first + result.count ≤ result.run.count }
    {
        let place = &bytes[self.cell as usize + 8 * level..];
        ListRef {
            run: self.levels[level].run(),
            first: number_at(place, 0),
            count: number_at(place, 4),
        }
    }
}
