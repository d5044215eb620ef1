//! The gate and the header that it names.

ghost use Rattle.std.specs.Prelude.{◌≡◌, ◌<◌, ◌≤◌, ◌+◌, ◌-◌, ◌++◌, true, length, replicate, OnOk, OnErr};
ghost use Rattle.ghost_model.specs.core.Causes.{HasCause};
ghost use Rattle.ghost_model.specs.forms.Catalog.{current_version};
ghost use Rattle.ghost_model.specs.forms.Flash.{HoldsFresh, gate_bytes, header_bytes};
ghost use Rattle.ghost_model.specs.forms.Layout as layout;
ghost use Rattle.ghost_model.specs.forms.Work as work;
ghost use Rattle.edge_traits.specs.Devices.{Counts, ChangesOnly, IsErased, next, since_call};
ghost use Rattle.flash_build.specs.Sealing.{LeavesOthers, is_of_gate};

use edge_traits::Failed;
use edge_traits::flash::{BLOCK_PAGES, Flash, PAGE_BYTES};
use tree_schema::{Catalog, Version};

/// The page of the gate.
const GATE_PAGE: u32 = 64;

/// The page of the first of the two headers.
const FIRST_HEADER: u32 = 128;

/// Writes a page that begins with some bytes, and has 0xFF behind them.
fn write_front<F: Flash>(page: u32, front: &[u8], flash: &mut F) -> Result<(), Failed>
    requires fits { length front.now ≤ 2048 }
    requires in_range { page < (F.state flash.old).page_count }
    requires blank { (F.state flash.old).blank page ≡ true }
    ensures written { OnOk result (F.told ≡ true → (F.state flash.new).page page ≡ front.now ++ replicate (2048 - length front.now) 0xff) }
    ensures others { ChangesOnly page (page + 1) (F.state flash.old) (F.state flash.new) }
    ensures calls { (F.state flash.new).calls ≡ next (F.state flash.old).calls }
    ensures deep_reads { (F.state flash.new).deep_reads ≡ (F.state flash.old).deep_reads }
    ensures cause { HasCause (F.state flash.old).faults (F.state flash.new).faults result }
    ensures since_fault { (F.state flash.new).since_fault ≡ since_call (F.state flash.old).since_fault result }
{
    let mut bytes = [0xFF; PAGE_BYTES];
    bytes[..front.len()].copy_from_slice(front);
    flash.write_page(page, &bytes)
}

/// The half that counts on a fresh device.
fn fresh_half(cat: &Catalog) -> u32
    ensures half { result ≡ layout.fresh_half cat.now }
    ensures few { result < 2 }
{
    cat.generation() % 2
}

/// Writes the page of the gate: it names the half that counts on a fresh device.
fn write_gate_page<F: Flash>(cat: &Catalog, flash: &mut F) -> Result<(), Failed>
    requires in_range { layout.gate_page < (F.state flash.old).page_count }
    requires blank { (F.state flash.old).blank layout.gate_page ≡ true }
    ensures written { OnOk result (F.told ≡ true → (F.state flash.new).page layout.gate_page ≡ gate_bytes (layout.fresh_half cat.now)) }
    ensures others { ChangesOnly layout.gate_page (layout.gate_page + 1) (F.state flash.old) (F.state flash.new) }
    ensures calls { (F.state flash.new).calls ≡ next (F.state flash.old).calls }
    ensures deep_reads { (F.state flash.new).deep_reads ≡ (F.state flash.old).deep_reads }
    ensures cause { HasCause (F.state flash.old).faults (F.state flash.new).faults result }
    ensures since_fault { (F.state flash.new).since_fault ≡ since_call (F.state flash.old).since_fault result }
{
    write_front(GATE_PAGE, &[fresh_half(cat) as u8], flash)
}

/// Writes the page of the header that counts on a fresh device: the generation, and that no row is appended.
fn write_header_page<F: Flash>(cat: &Catalog, flash: &mut F) -> Result<(), Failed>
    requires in_range { layout.header_page (layout.fresh_half cat.now) < (F.state flash.old).page_count }
    requires blank { (F.state flash.old).blank (layout.header_page (layout.fresh_half cat.now)) ≡ true }
    ensures written { OnOk result (F.told ≡ true → (F.state flash.new).page (layout.header_page (layout.fresh_half cat.now)) ≡ header_bytes cat.now.generation 0) }
    ensures others { ChangesOnly (layout.header_page (layout.fresh_half cat.now)) (layout.header_page (layout.fresh_half cat.now) + 1) (F.state flash.old) (F.state flash.new) }
    ensures calls { (F.state flash.new).calls ≡ next (F.state flash.old).calls }
    ensures deep_reads { (F.state flash.new).deep_reads ≡ (F.state flash.old).deep_reads }
    ensures cause { HasCause (F.state flash.old).faults (F.state flash.new).faults result }
    ensures since_fault { (F.state flash.new).since_fault ≡ since_call (F.state flash.old).since_fault result }
{
    let mut front = [0; 8];
    front[..4].copy_from_slice(&cat.generation().to_be_bytes());
    write_front(FIRST_HEADER + BLOCK_PAGES * fresh_half(cat), &front, flash)
}

/// Writes the gate and then the header that it names, on erased public pages, as a fresh device has them; at version 1 there are
/// none. Neither is written after a failed call.
pub(crate) fn write_gate<F: Flash>(cat: &Catalog, flash: &mut F) -> Result<(), Failed>
    requires there { layout.public_pages cat.now ≤ (F.state flash.old).page_count }
    requires erased { IsErased F.told 0 (layout.public_pages cat.now) (F.state flash.old) }
    ensures fresh { OnOk result (F.told ≡ true → cat.now.version ≡ current_version → HoldsFresh (F.state flash.new).page cat.now) }
    ensures others { ChangesOnly layout.catalog_pages (layout.public_pages cat.now) (F.state flash.old) (F.state flash.new) }
    ensures blank { LeavesOthers (is_of_gate cat.now) (F.state flash.old).blank (F.state flash.new).blank }
    ensures exact { OnOk result (Counts (work.gate_pages cat.now) (F.state flash.old).calls (F.state flash.new).calls) }
    ensures at_most { (F.state flash.new).calls ≤ (F.state flash.old).calls + work.gate_pages cat.now }
    ensures deep_reads { (F.state flash.new).deep_reads ≡ (F.state flash.old).deep_reads }
    ensures cause { HasCause (F.state flash.old).faults (F.state flash.new).faults result }
    ensures last { OnErr result ((F.state flash.new).since_fault ≡ 0) }
{
    match cat.version() {
        Version::One => Ok(()),
        Version::Two => {
            write_gate_page(cat, flash)?;
            write_header_page(cat, flash)
        }
    }
}
