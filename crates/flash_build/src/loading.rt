//! The whole of a new flash.

ghost use Rattle.std.specs.Prelude.{◌≡◌, ◌<◌, ◌≤◌, ◌+◌, ◌*◌, ℕ, List, bytes_eq, true, false, Some, Err, OnOk};
ghost use Rattle.ghost_model.specs.forms.Flash.{HoldsFiles, Holds, IsHidden};
ghost use Rattle.ghost_model.specs.forms.Layout as layout;
ghost use Rattle.ghost_model.specs.forms.Work as work;
ghost use Rattle.edge_traits.specs.Devices.{Counts, IsErased, pages_under};
ghost use Rattle.flash_build.specs.Building.{load_calls};
ghost use Rattle.flash_build.specs.Faults.{BuildCause, EndsAtFault, IsLargeEnough};
ghost use Rattle.flash_build.specs.Sealing.{SpellsNoCatalog, StandsButPage0};
ghost use Rattle.flash_build.specs.declared.faults.BuildFault.TheVariants as fault;

use crate::building::build;
use crate::faults::BuildFault;
use crate::sealing::seal;
use csv_split::Hidden;
use edge_traits::flash::{AttachFault, BLOCK_PAGES, Flash};
use flash_layout::limits::a_catalog_has_a_layout;
use flash_layout::need;
use std::alloc::Global;
use tree_schema::Catalog;

/// Makes a device of `blocks` blocks in place of an older one of that name, and writes the hidden part of a catalog's
/// database to it. The catalog is not written yet: the public pages are erased.
///
/// So many blocks may be too small for the catalog, and then no call is made. After any other error the device has no
/// page, or its pages spell no catalog; it is open under that name, or not at all. The devices of other names stay as they are.
pub fn make_and_build<F: Flash>(
    alloc: Global,
    cat: &Catalog,
    hidden: &Hidden,
    flash: &mut F,
    name: &str,
    blocks: u32,
) -> Result<(), BuildFault>
    requires part { IsHidden cat.now hidden.now }
    requires blocks { blocks ≤ 60000000 }
    ensures holds { OnOk result (F.told ≡ true → HoldsFiles (F.state flash.new).page cat.now hidden.now) }
    ensures named { OnOk result ((F.state flash.new).name ≡ Some name.now) }
    ensures never_other { layout.need cat.now ≤ 64 * blocks → (other : List ℕ) → (F.state flash.new).name ≡ Some other → other ≡ name.now }
    ensures others { F.told ≡ true → (other : List ℕ) → bytes_eq name.now other ≡ false → pages_under (F.state flash.new) other ≡ pages_under (F.state flash.old) other }
    ensures pages { OnOk result ((F.state flash.new).page_count ≡ 64 * blocks) }
    ensures erased { OnOk result (IsErased F.told 0 (layout.public_pages cat.now) (F.state flash.new)) }
    ensures too_small { 64 * blocks < layout.need cat.now → result ≡ Err (fault.TooSmall (layout.need cat.now) (64 * blocks)) }
    ensures untouched { 64 * blocks < layout.need cat.now → F.state flash.new ≡ F.state flash.old }
    ensures large_enough { layout.need cat.now ≤ 64 * blocks → IsLargeEnough result }
    ensures unsealed { layout.need cat.now ≤ 64 * blocks → 0 < (F.state flash.new).page_count → F.told ≡ true → SpellsNoCatalog (F.state flash.new).page }
    ensures page_0 { layout.need cat.now ≤ 64 * blocks → 0 < (F.state flash.new).page_count → (F.state flash.new).blank 0 ≡ true }
    ensures exact { OnOk result (Counts (1 + work.file_pages cat.now hidden.now) (F.state flash.old).calls (F.state flash.new).calls) }
    ensures at_most { (F.state flash.new).calls ≤ (F.state flash.old).calls + (1 + work.file_pages cat.now hidden.now) }
    ensures deep_reads { (F.state flash.new).deep_reads ≡ (F.state flash.old).deep_reads }
    ensures cause { BuildCause (F.state flash.old).faults (F.state flash.new).faults result }
    ensures last { EndsAtFault (F.state flash.new).since_fault result }
{
    a_catalog_has_a_layout(cat);
    let need = need(cat);
    let have = BLOCK_PAGES * blocks;
    if have < need {
        return Err(BuildFault::TooSmall { need, have });
    }
    match flash.make(alloc, name, blocks) {
        Ok(()) => build(alloc, cat, hidden, flash),
        Err(AttachFault::NoMemory) => Err(BuildFault::NoMemory),
        Err(AttachFault::Failed) => Err(BuildFault::Flash),
    }
}

/// Makes a device, writes the hidden part of a catalog's database to it, and seals it by the catalog: one call to make it,
/// and one for each page that holds a byte of the catalog, of the gate and its header, or of a file.
///
/// As long as page 0 is blank, the pages spell no catalog, and it is written only where all else stands.
pub fn load_flash<F: Flash>(
    alloc: Global,
    cat: &Catalog,
    hidden: &Hidden,
    flash: &mut F,
    name: &str,
    blocks: u32,
) -> Result<(), BuildFault>
    requires part { IsHidden cat.now hidden.now }
    requires blocks { blocks ≤ 60000000 }
    ensures holds { OnOk result (F.told ≡ true → Holds (F.state flash.new).page cat.now hidden.now) }
    ensures named { OnOk result ((F.state flash.new).name ≡ Some name.now) }
    ensures never_other { layout.need cat.now ≤ 64 * blocks → (other : List ℕ) → (F.state flash.new).name ≡ Some other → other ≡ name.now }
    ensures others { F.told ≡ true → (other : List ℕ) → bytes_eq name.now other ≡ false → pages_under (F.state flash.new) other ≡ pages_under (F.state flash.old) other }
    ensures pages { OnOk result ((F.state flash.new).page_count ≡ 64 * blocks) }
    ensures too_small { 64 * blocks < layout.need cat.now → result ≡ Err (fault.TooSmall (layout.need cat.now) (64 * blocks)) }
    ensures untouched { 64 * blocks < layout.need cat.now → F.state flash.new ≡ F.state flash.old }
    ensures large_enough { layout.need cat.now ≤ 64 * blocks → IsLargeEnough result }
    ensures unsealed { layout.need cat.now ≤ 64 * blocks → 0 < (F.state flash.new).page_count → F.told ≡ true → (F.state flash.new).blank 0 ≡ true → SpellsNoCatalog (F.state flash.new).page }
    ensures unsealed_memory { layout.need cat.now ≤ 64 * blocks → 0 < (F.state flash.new).page_count → result ≡ Err fault.NoMemory → (F.state flash.new).blank 0 ≡ true }
    ensures page_0_last { layout.need cat.now ≤ 64 * blocks → 0 < (F.state flash.new).page_count → F.told ≡ true → (F.state flash.new).blank 0 ≡ false → StandsButPage0 (F.state flash.new).page cat.now hidden.now }
    ensures exact { OnOk result (Counts (load_calls cat.now hidden.now) (F.state flash.old).calls (F.state flash.new).calls) }
    ensures at_most { (F.state flash.new).calls ≤ (F.state flash.old).calls + load_calls cat.now hidden.now }
    ensures deep_reads { (F.state flash.new).deep_reads ≡ (F.state flash.old).deep_reads }
    ensures cause { BuildCause (F.state flash.old).faults (F.state flash.new).faults result }
    ensures last { EndsAtFault (F.state flash.new).since_fault result }
{
    a_catalog_has_a_layout(cat);
    match make_and_build(alloc, cat, hidden, flash, name, blocks) {
        Err(fault) => Err(fault),
        Ok(()) => match seal(cat, flash) {
            Ok(()) => Ok(()),
            Err(_) => Err(BuildFault::Flash),
        },
    }
}
