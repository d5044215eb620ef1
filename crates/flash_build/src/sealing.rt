//! The catalog on the public pages.

ghost use Rattle.std.specs.Prelude.{◌≡◌, ◌<◌, ◌≤◌, ◌+◌, ◌-◌, true, false, OnOk, OnErr};
ghost use Rattle.ghost_model.specs.core.Causes.{HasCause};
ghost use Rattle.ghost_model.specs.forms.Catalog.{current_version};
ghost use Rattle.ghost_model.specs.forms.Flash.{HoldsCatalog, HoldsFiles, HoldsFresh, catalog_page};
ghost use Rattle.ghost_model.specs.laws.ShortWords as short;
ghost use Rattle.ghost_model.specs.forms.Layout as layout;
ghost use Rattle.ghost_model.specs.core.Split.{Hidden};
ghost use Rattle.ghost_model.specs.forms.Work as work;
ghost use Rattle.edge_traits.specs.Devices.{Counts, ChangesOnly, IsErased, next, since_call};
ghost use Rattle.flash_build.specs.Sealing.{HoldsButPage0, HoldsFrom, LeavesOthers, SpellsNoCatalog, is_sealed};

use crate::gates::write_gate;
use edge_traits::Failed;
use edge_traits::flash::{Flash, PAGE_BYTES};
use flash_layout::limits::a_catalog_has_a_layout;
use flash_layout::pages;
use tree_schema::{Catalog, catalog_len, catalog_part};

/// The number of pages that hold a byte of the catalog.
fn catalog_pages(cat: &Catalog) -> u32
    ensures value { result ≡ short.catalog_pages cat.now }
    ensures some { 0 < result }
    ensures most { result ≤ 9 }
{
    pages(u32::from(catalog_len(cat)), 1)
}

/// Writes a public page of the catalog.
fn write_catalog_page<F: Flash>(cat: &Catalog, place: u32, flash: &mut F) -> Result<(), Failed>
    requires public { place < layout.catalog_pages }
    requires in_range { place < (F.state flash.old).page_count }
    requires blank { (F.state flash.old).blank place ≡ true }
    ensures holds { OnOk result (F.told ≡ true → (F.state flash.new).page place ≡ catalog_page cat.now place) }
    ensures not_blank { (F.state flash.new).blank place ≡ false }
    ensures others { ChangesOnly place (place + 1) (F.state flash.old) (F.state flash.new) }
    ensures calls { (F.state flash.new).calls ≡ next (F.state flash.old).calls }
    ensures deep_reads { (F.state flash.new).deep_reads ≡ (F.state flash.old).deep_reads }
    ensures cause { HasCause (F.state flash.old).faults (F.state flash.new).faults result }
    ensures since_fault { (F.state flash.new).since_fault ≡ since_call (F.state flash.old).since_fault result }
{
    let mut bytes = [0xFF; PAGE_BYTES];
    catalog_part(cat, place as usize * PAGE_BYTES, &mut bytes);
    flash.write_page(place, &bytes)
}

/// Writes the pages of the catalog but page 0, from the last one on.
fn write_later_pages<F: Flash>(cat: &Catalog, flash: &mut F) -> Result<(), Failed>
    requires there { layout.catalog_pages ≤ (F.state flash.old).page_count }
    requires erased { IsErased F.told 0 layout.catalog_pages (F.state flash.old) }
    ensures some { 0 < short.catalog_pages cat.now }
    ensures few { short.catalog_pages cat.now ≤ 9 }
    ensures holds { OnOk result (F.told ≡ true → HoldsFrom 1 (F.state flash.new).page cat.now) }
    ensures others { ChangesOnly 1 (short.catalog_pages cat.now) (F.state flash.old) (F.state flash.new) }
    ensures exact { OnOk result (Counts (short.catalog_pages cat.now - 1) (F.state flash.old).calls (F.state flash.new).calls) }
    ensures at_most { (F.state flash.new).calls + 1 ≤ (F.state flash.old).calls + short.catalog_pages cat.now }
    ensures deep_reads { (F.state flash.new).deep_reads ≡ (F.state flash.old).deep_reads }
    ensures cause { HasCause (F.state flash.old).faults (F.state flash.new).faults result }
    ensures last { OnErr result ((F.state flash.new).since_fault ≡ 0) }
{
    let mut left = catalog_pages(cat);
    while left > 1 {
        left -= 1;
        write_catalog_page(cat, left, flash)?;
    }
    Ok(())
}

/// Seals a flash on erased public pages. At version 2 it writes the gate and then the header that the gate names, which are those of
/// a fresh device; and then the pages that hold a byte of the catalog, from the last one to page 0. Each is written once, and none
/// after a failed call.
///
/// As long as page 0 is blank the pages spell no catalog, and it is written only where all others stand.
pub fn seal<F: Flash>(cat: &Catalog, flash: &mut F) -> Result<(), Failed>
    requires there { layout.public_pages cat.now ≤ (F.state flash.old).page_count }
    requires erased { IsErased F.told 0 (layout.public_pages cat.now) (F.state flash.old) }
    ensures holds { OnOk result (F.told ≡ true → HoldsCatalog (F.state flash.new).page cat.now) }
    ensures fresh { OnOk result (F.told ≡ true → cat.now.version ≡ current_version → HoldsFresh (F.state flash.new).page cat.now) }
    ensures unsealed { F.told ≡ true → (F.state flash.new).blank 0 ≡ true → SpellsNoCatalog (F.state flash.new).page }
    ensures page_0_last { F.told ≡ true → (F.state flash.new).blank 0 ≡ false → HoldsButPage0 (F.state flash.new).page cat.now }
    ensures files { (hidden : Hidden) → HoldsFiles (F.state flash.old).page cat.now hidden → HoldsFiles (F.state flash.new).page cat.now hidden }
    ensures others { ChangesOnly 0 (layout.public_pages cat.now) (F.state flash.old) (F.state flash.new) }
    ensures blank { LeavesOthers (is_sealed cat.now) (F.state flash.old).blank (F.state flash.new).blank }
    ensures exact { OnOk result (Counts (work.public_written cat.now) (F.state flash.old).calls (F.state flash.new).calls) }
    ensures at_most { (F.state flash.new).calls ≤ (F.state flash.old).calls + work.public_written cat.now }
    ensures deep_reads { (F.state flash.new).deep_reads ≡ (F.state flash.old).deep_reads }
    ensures cause { HasCause (F.state flash.old).faults (F.state flash.new).faults result }
    ensures last { OnErr result ((F.state flash.new).since_fault ≡ 0) }
{
    a_catalog_has_a_layout(cat);
    ghost_model::flash::holdings_are_kept();
    write_gate(cat, flash)?;
    write_later_pages(cat, flash)?;
    write_catalog_page(cat, 0, flash)
}
