//! Lists that are reduced to one, in areas one behind another.

ghost use Rattle.std.specs.Prelude.{◌≡◌, ◌+◌, ◌*◌, ◌^◌, ◌<◌, ◌≤◌, ◌∷◌, [], true, None};
ghost use Rattle.edge_traits.specs.Devices.{Device};
ghost use Rattle.page_pool.specs.Pools.{AreOut, free_count, page_at};
ghost use Rattle.spill_pass.specs.Merging.{area_pages};
ghost use Rattle.merge_tests.specs.Laying.{LiesFrom, IsBefore, HasRoomFor};

use edge_traits::flash::Flash;
use edge_traits::mem_flash::MemFlash;
use flash_pages::fault::PageFault;
use ghost_base::runs::Run;
use page_pool::{Lease, PagePool};
use spill_pass::{Areas, PlaceReader, Reduce};

/// The pages of an area for so many identifiers: whole blocks.
fn area_of(count: u32) -> u32
    requires few { count ≤ 2000000 }
    ensures pages { result ≡ area_pages count }
    ensures few { result ≤ 4000 }
{
    64 * (((count + 511) / 512 + 63) / 64)
}

/// The pages of all areas, for so many identifiers and the places of so many lists.
pub fn areas_of(rows: u32, size: u32) -> u32
    requires few { rows < 2000000 }
    requires few_lists { size < 2000000 }
    ensures few { result ≤ 20000 }
    ensures pages { result ≡ 3 * area_pages (rows + 1) + 2 * area_pages (size + 1) }
{
    3 * area_of(rows + 1) + 2 * area_of(size + 1)
}

/// Areas one behind another, from a page on.
fn areas_from(first: u32, rows: u32, size: u32) -> Areas
    requires few { rows < 2000000 }
    requires few_lists { size < 2000000 }
    requires small { first ≤ 10000000 }
    ensures from { LiesFrom first rows size result }
{
    let lists = area_of(rows + 1);
    let places = area_of(size + 1);
    let behind = first + 3 * lists;
    Areas {
        to: first,
        lists: first + lists,
        other_lists: first + 2 * lists,
        places: behind,
        other_places: behind + places,
    }
}

/// Three leases.
#[derive(Drop)]
struct Three {
    source: Lease,
    places: Lease,
    lists: Lease,
}

/// Takes three leases.
fn lease_three(pool: &mut PagePool) -> Three
    requires enough { 3 ≤ free_count pool.old }
    ensures out { AreOut pool.new (result.source ∷ result.places ∷ result.lists ∷ []) }
    ensures free { free_count pool.new + 3 ≡ free_count pool.old }
    ensures none { page_at pool.new result.source ≡ None }
{
    let Some(lists) = pool.lease() else {
        unreachable!()
    };
    let Some(places) = pool.lease() else {
        unreachable!()
    };
    let Some(source) = pool.lease() else {
        unreachable!()
    };
    Three {
        source,
        places,
        lists,
    }
}

/// Reduces the lists of a run to one, which lies from page `first` on, and gives all leases back. The calls that are counted are
/// added to `spent`.
pub fn reduced(
    flash: &mut MemFlash,
    pool: &mut PagePool,
    lists: Run,
    places: Run,
    first: u32,
    rows: u32,
    room: u32,
    spent: &mut u64,
) -> Result<Option<Run>, PageFault>
    requires least { 6 ≤ room }
    requires most { room ≤ 62 }
    requires buffers { room ≤ free_count pool.old }
    requires lists { IsBefore first lists 4 }
    requires places { IsBefore first places 8 }
    requires rows { lists.count ≤ rows }
    requires few { rows < 2000000 }
    requires few_lists { places.count < 2000000 }
    requires small { first ≤ 10000000 }
    requires there { HasRoomFor (⟦<MemFlash as Flash>⟧.state flash.old) first rows places.count }
{
    let areas = areas_from(first, rows, places.count);
    let three = lease_three(pool);
    let reader = PlaceReader::begin(places, lists, three.source);
    let mut reduce = Reduce::begin(reader, areas, rows, room, three.lists, three.places);
    'steps: loop {
        let mut made = 0;
        let stands = reduce.step(flash, pool, &mut made);
        *spent = spent.saturating_add(made);
        match stands {
            Err(fault) => {
                reduce.end(pool);
                return Err(fault);
            }
            Ok(true) => {
                let run = reduce.run;
                reduce.end(pool);
                return Ok(run);
            }
            Ok(false) => {}
        }
    }
}
