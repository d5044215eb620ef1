//! The catalog on the public pages.

ghost use Rattle.std.specs.Prelude.{◌≡◌, ◌<◌, ◌≤◌, ◌+◌, ◌*◌, ◌++◌, true, min, take, drop, IfOk, IfSome, IfNone, OnOk};
ghost use Rattle.ghost_model.specs.core.Causes.{HasCause, last_count};
ghost use Rattle.edge_traits.specs.Devices.{KeepsPages};
ghost use Rattle.key_migrate.specs.PublicPages.{HasCatalog, HasNoCatalog, front_bytes};

use edge_traits::Failed;
use edge_traits::flash::{BLOCK_PAGES, Flash, PAGE_BYTES};
use tree_schema::{Catalog, read_catalog};

/// The pages from the first one on that can hold bytes of a catalog.
const FRONT_PAGES: u32 = 9;

/// The bytes of these pages.
const FRONT_BYTES: usize = 18_432;

/// Puts the bytes of a page into their place.
fn put_page(bytes: &mut [u8; 18_432], place: u32, page: &[u8; 2048])
    requires place { place < 9 }
    ensures put { bytes.new ≡ take (place * 2048) bytes.old ++ (page.now ++ drop (place * 2048 + 2048) bytes.old) }
{
    let at = place as usize * PAGE_BYTES;
    bytes[at..at + PAGE_BYTES].copy_from_slice(page);
}

/// Reads the pages that can hold bytes of a catalog.
fn read_front<F: Flash>(flash: &mut F, bytes: &mut [u8; 18_432]) -> Result<(), Failed>
    requires there { 64 ≤ (F.state flash.old).page_count }
    ensures bytes { OnOk result (F.told ≡ true → bytes.new ≡ front_bytes (F.state flash.new).page) }
    ensures kept { KeepsPages (F.state flash.old) (F.state flash.new) }
    ensures cause { HasCause (F.state flash.old).faults (F.state flash.new).faults result }
    ensures deep_reads { (F.state flash.new).deep_reads ≡ (F.state flash.old).deep_reads }
    ensures calls_stay { min (F.state flash.old).calls last_count ≤ (F.state flash.new).calls }
    ensures at_most { (F.state flash.new).calls ≤ (F.state flash.old).calls + 9 }
{
    let mut page = [0; PAGE_BYTES];
    for place in 0..FRONT_PAGES {
        flash.read_page(place, &mut page)?;
        put_page(bytes, place, &page);
    }
    Ok(())
}

/// Reads the catalog with which the public pages of a flash begin, of whichever version it is, and answers `None` where they begin
/// with none, or where the flash has no page. At most nine pages are read.
pub fn read_public_pages<F: Flash>(flash: &mut F) -> Result<Option<Catalog>, Failed>
    ensures catalog { IfOk result (λ found. IfSome found (λ cat. F.told ≡ true → HasCatalog (F.state flash.new) cat)) }
    ensures none { IfOk result (λ found. IfNone found (F.told ≡ true → HasNoCatalog (F.state flash.new))) }
    ensures kept { KeepsPages (F.state flash.old) (F.state flash.new) }
    ensures cause { HasCause (F.state flash.old).faults (F.state flash.new).faults result }
    ensures deep_reads { (F.state flash.new).deep_reads ≡ (F.state flash.old).deep_reads }
    ensures calls_stay { min (F.state flash.old).calls last_count ≤ (F.state flash.new).calls }
    ensures at_most { (F.state flash.new).calls ≤ (F.state flash.old).calls + 9 }
{
    ghost_model::catalogs::no_catalog_is_long();
    if flash.pages() < BLOCK_PAGES {
        return Ok(None);
    }
    let mut bytes = [0; FRONT_BYTES];
    read_front(flash, &mut bytes)?;
    Ok(read_catalog(&bytes))
}
