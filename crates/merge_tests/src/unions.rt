//! One union of the lists of several sources and of ranges.

ghost use Rattle.std.specs.Prelude.{◌≡◌, ◌+◌, ◌≤◌, ℕ, true, length, IfOk, None};
ghost use Rattle.ghost_base.specs.Runs.{run_of};
ghost use Rattle.edge_traits.specs.Devices.{Device};
ghost use Rattle.page_pool.specs.Pools.{Pool, IsOut, free_count, page_at};
ghost use Rattle.flash_pages.specs.Runs.{HasRun};
ghost use Rattle.id_merge.specs.Cursors.{leases_of};
ghost use Rattle.spill_pass.specs.Merging.{IsArea};
ghost use Rattle.spill_pass.specs.Places.{CanGive, source_of};
ghost use Rattle.spill_pass.specs.Sources.{UsesOutside};
ghost use Rattle.candidate_lists.specs.Held.{IsHeld, SameRows};
ghost use Rattle.candidate_lists.specs.Opens.{CanOpenAll};
ghost use Rattle.candidate_lists.specs.Unites.{IsUniting};
ghost use Rattle.merge_tests.specs.Laying.{AreSources, IsBefore};

use candidate_lists::{Candidates, Opening, Scratch, Uniting};
use edge_traits::flash::Flash;
use edge_traits::mem_flash::MemFlash;
use flash_pages::fault::PageFault;
use ghost_base::runs::Run;
use page_pool::{Lease, PagePool};
use spill_pass::PlaceReader;

/// What is taken into a union: the lists of one source, or a range.
#[derive(Clone, Copy)]
pub enum Member {
    /// Those of the lists that were not taken yet up to the one with this number, and up to how many identifiers they reach.
    Lists(u32, u32),
    /// A range, from its first identifier to its last one.
    Range(u32, u32),
}

/// Lists one behind another, of which each source has some.
#[derive(Clone, Copy)]
pub struct Sources {
    /// The identifiers.
    pub lists: Run,
    /// Where each list begins and how many identifiers it has.
    pub places: Run,
    /// How many lists were taken.
    pub at: u32,
    /// How many identifiers these have.
    pub next: u32,
}

impl Sources {
    /// The number of the list that a source ends before.
    fn end(&self, end: u32) -> u32
        ensures from { self.now.at ≤ self.now.places.count → self.now.at ≤ result }
        ensures to { result ≤ self.now.places.count }
    {
        end.max(self.at).min(self.places.count)
    }

    /// The next source: the lists up to one, which reach up to so many identifiers.
    fn source(&mut self, end: u32, ids: u32, lease: Lease) -> PlaceReader
        requires at { self.old.at ≤ end }
        requires end { end ≤ self.old.places.count }
        requires next { self.old.next ≤ self.old.lists.count }
        requires few { self.old.lists.count ≤ 2000000 }
        ensures ready { (device : Device) → (pool : Pool) → HasRun device (run_of self.old.places) → HasRun device (run_of self.old.lists) → self.old.places.width ≡ 8 → self.old.lists.width ≡ 4 → IsOut pool lease → page_at pool lease ≡ None → CanGive true device pool result }
        ensures outside { (first high : ℕ) → IsBefore first self.old.lists 4 → IsBefore first self.old.places 8 → UsesOutside first high (source_of result) }
        ensures lease { result.lease ≡ lease }
        ensures left { (source_of result).lists_left + self.old.at ≡ end }
        ensures at { self.new.at ≤ self.new.places.count }
        ensures next { self.new.next ≤ self.new.lists.count }
        ensures lists { self.new.lists ≡ self.old.lists }
        ensures places { self.new.places ≡ self.old.places }
    {
        let behind = ids.max(self.next).min(self.lists.count);
        let mut places = self.places;
        places.count = end;
        let mut lists = self.lists;
        lists.count = behind;
        let reader = PlaceReader {
            places,
            lists,
            at: self.at,
            next: self.next,
            lease,
        };
        self.at = end;
        self.next = behind;
        reader
    }
}

/// Opens all lists of a source in a union that is begun. After a fault all leases are given back.
fn opened(
    uniting: Uniting,
    lists: PlaceReader,
    flash: &mut MemFlash,
    pool: &mut PagePool,
) -> Result<Uniting, PageFault>
    requires held { IsUniting true (⟦<MemFlash as Flash>⟧.state flash.old) pool.old uniting }
    requires ready { CanGive true (⟦<MemFlash as Flash>⟧.state flash.old) pool.old lists }
    requires can { CanOpenAll pool.old (source_of lists) uniting.candidates }
    ensures held { IfOk result (λ more. IsUniting true (⟦<MemFlash as Flash>⟧.state flash.new) pool.new more) }
    ensures buffers { IfOk result (λ more. free_count pool.new + length (leases_of more.candidates.merge.cursors.items) ≡ free_count pool.old + length (leases_of uniting.candidates.merge.cursors.items) + 1) }
    ensures pages { (⟦<MemFlash as Flash>⟧.state flash.new).page_count ≡ (⟦<MemFlash as Flash>⟧.state flash.old).page_count }
    ensures unions { IfOk result (λ more. length more.candidates.merge.unions.items ≡ length uniting.candidates.merge.unions.items) }
    ensures same { IfOk result (λ more. SameRows uniting.candidates more.candidates) }
{
    let mut opening = Opening::within(uniting, lists);
    'lists: loop {
        let mut made = 0;
        match opening.step(flash, pool, &mut made) {
            Err(fault) => {
                opening.give_up(pool);
                return Err(fault);
            }
            Ok(true) => return Ok(opening.pause(pool)),
            Ok(false) => {}
        }
    }
}

/// Takes a range into a union that is begun, where there is room for two cursors.
fn take_range(uniting: Uniting, low: u32, high: u32) -> Uniting
    requires opened { uniting.opened ≤ length uniting.candidates.merge.cursors.items }
    ensures held { (device : Device) → (pool : Pool) → IsUniting true device pool uniting → IsUniting true device pool result }
    ensures leases { leases_of result.candidates.merge.cursors.items ≡ leases_of uniting.candidates.merge.cursors.items }
    ensures unions { length result.candidates.merge.unions.items ≡ length uniting.candidates.merge.unions.items }
    ensures same { SameRows uniting.candidates result.candidates }
{
    let mut uniting = uniting;
    if uniting.candidates.has_room(2) {
        let high = high.min(uniting.candidates.rows);
        uniting.take_ranges(low, high, 1, 0);
    }
    uniting
}

/// Takes the lists of the next source into a union that is begun, where they find room beside 62 leases.
fn take_lists(
    uniting: Uniting,
    sources: &mut Sources,
    end: u32,
    ids: u32,
    flash: &mut MemFlash,
    pool: &mut PagePool,
) -> Result<Uniting, PageFault>
    requires held { IsUniting true (⟦<MemFlash as Flash>⟧.state flash.old) pool.old uniting }
    requires buffers { 64 ≤ free_count pool.old + length (leases_of uniting.candidates.merge.cursors.items) }
    requires sources { AreSources (⟦<MemFlash as Flash>⟧.state flash.old) uniting.candidates.scratch.other_lists sources.old }
    ensures held { IfOk result (λ more. IsUniting true (⟦<MemFlash as Flash>⟧.state flash.new) pool.new more) }
    ensures buffers { IfOk result (λ more. 64 ≤ free_count pool.new + length (leases_of more.candidates.merge.cursors.items)) }
    ensures unions { IfOk result (λ more. length more.candidates.merge.unions.items ≡ length uniting.candidates.merge.unions.items) }
    ensures same { IfOk result (λ more. SameRows uniting.candidates more.candidates) }
    ensures sources { AreSources (⟦<MemFlash as Flash>⟧.state flash.new) uniting.candidates.scratch.other_lists sources.new }
{
    let end = sources.end(end);
    if !uniting.candidates.fits(end - sources.at, 62) {
        return Ok(uniting);
    }
    let Some(lease) = pool.lease() else {
        unreachable!()
    };
    let lists = sources.source(end, ids, lease);
    opened(uniting, lists, flash, pool)
}

/// Takes a member into a union that is begun, where it finds room.
fn take(
    uniting: Uniting,
    member: Member,
    sources: &mut Sources,
    flash: &mut MemFlash,
    pool: &mut PagePool,
) -> Result<Uniting, PageFault>
    requires held { IsUniting true (⟦<MemFlash as Flash>⟧.state flash.old) pool.old uniting }
    requires buffers { 64 ≤ free_count pool.old + length (leases_of uniting.candidates.merge.cursors.items) }
    requires sources { AreSources (⟦<MemFlash as Flash>⟧.state flash.old) uniting.candidates.scratch.other_lists sources.old }
    ensures held { IfOk result (λ more. IsUniting true (⟦<MemFlash as Flash>⟧.state flash.new) pool.new more) }
    ensures buffers { IfOk result (λ more. 64 ≤ free_count pool.new + length (leases_of more.candidates.merge.cursors.items)) }
    ensures unions { IfOk result (λ more. length more.candidates.merge.unions.items ≡ length uniting.candidates.merge.unions.items) }
    ensures same { IfOk result (λ more. SameRows uniting.candidates more.candidates) }
    ensures sources { AreSources (⟦<MemFlash as Flash>⟧.state flash.new) uniting.candidates.scratch.other_lists sources.new }
{
    match member {
        Member::Range(low, high) => Ok(take_range(uniting, low, high)),
        Member::Lists(end, ids) => take_lists(uniting, sources, end, ids, flash, pool),
    }
}

/// One union of members beside all rows, as far as they find room.
pub fn united(
    members: &[Member],
    sources: Sources,
    rows: u32,
    scratch: Scratch,
    flash: &mut MemFlash,
    pool: &mut PagePool,
) -> Result<Candidates, PageFault>
    requires area { IsArea (⟦<MemFlash as Flash>⟧.state flash.old) scratch.other_lists rows }
    requires buffers { 64 ≤ free_count pool.old }
    requires sources { AreSources (⟦<MemFlash as Flash>⟧.state flash.old) scratch.other_lists sources }
    ensures held { IfOk result (λ candidates. IsHeld true (⟦<MemFlash as Flash>⟧.state flash.new) pool.new candidates 0) }
{
    let mut sources = sources;
    let mut uniting = Uniting::begin(Candidates::all(rows, scratch));
    'members: for member in members {
        uniting = take(uniting, *member, &mut sources, flash, pool)?;
    }
    Ok(uniting.end())
}
