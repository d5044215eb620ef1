//! The writing of both ends' files.

ghost use Rattle.std.specs.Prelude.{◌≡◌, ◌<◌, ◌≤◌, ◌*◌, true, false, Some, Err, OnOk, ℕ, List, bytes_eq};
ghost use Rattle.ghost_model.specs.forms.Catalog.{current_version};
ghost use Rattle.ghost_model.specs.forms.Flash.{HoldsCatalog, HoldsFiles, HoldsFresh, IsHidden};
ghost use Rattle.ghost_model.specs.forms.Layout as layout;
ghost use Rattle.ghost_model.specs.core.Split.{Hidden};
ghost use Rattle.edge_traits.specs.Devices.{ChangesOnly, IsErased, pages_under};
ghost use Rattle.edge_traits.specs.Files.{SameBut, with_file};
ghost use Rattle.flash_build.specs.Sealing.{SpellsNoCatalog};
ghost use Rattle.key_words.specs.Blocks.{most_blocks};
ghost use Rattle.key_inputs.specs.Outside.{IsTold};
ghost use Rattle.key_load.specs.Preparing.{IsMade, IsMadeInOrder};
ghost use Rattle.key_load.specs.Results.{HasBlankPage0, IsOfMaking, IsOfWriting, IsUnsealed, leaves_file, leaves_page_0, told_by};
ghost use Rattle.key_load.specs.declared.failures.LoadFailure.TheVariants as failure;

use crate::failures::LoadFailure;
use crate::preparing::Prepared;
use edge_traits::depot::Depot;
use edge_traits::flash::Flash;
use flash_build::{BuildFault, make_and_build, seal};
use flash_layout::limits::a_catalog_has_a_layout;
use std::alloc::Global;

/// Makes the flash under its name, of as many blocks as were prepared, and writes the hidden part to it, then writes the host's file,
/// then the gate, its header and the catalog's pages from the last to page 0.
///
/// The catalog may be of either version. Until the flash is made, it and the host's file are as before; the devices of other names and
/// all other files stay as they are. As long as page 0 is blank, the pages of the new flash spell no catalog. The errors are `NoMemory`,
/// `Depot` and `Flash` alone: by `NoMemory` and by a `Depot` page 0 is blank, and by a `Depot` the files of the hidden part stand.
pub fn make_both<D: Depot, F: Flash>(
    alloc: Global,
    prepared: &Prepared,
    flash_name: &str,
    visible: &str,
    depot: &mut D,
    flash: &mut F,
) -> Result<(), LoadFailure>
    requires part { IsHidden prepared.now.cat prepared.now.hidden }
    requires enough { layout.need prepared.now.cat ≤ 64 * prepared.now.blocks }
    requires most { prepared.now.blocks ≤ most_blocks }
    ensures made { OnOk result (IsMade F.told prepared.now flash_name.now visible.now (D.contents depot.old) (D.contents depot.new) (F.state flash.new)) }
    ensures kinds { IsOfMaking result }
    ensures in_order { IsMadeInOrder F.told prepared.now flash_name.now visible.now result (D.contents depot.old) (D.contents depot.new) (F.state flash.new) }
    ensures never_other { (other : List ℕ) → (F.state flash.new).name ≡ Some other → other ≡ flash_name.now }
    ensures other_flashes { F.told ≡ true → (other : List ℕ) → bytes_eq flash_name.now other ≡ false → pages_under (F.state flash.new) other ≡ pages_under (F.state flash.old) other }
    ensures page_0 { leaves_page_0 result ≡ true → HasBlankPage0 (F.state flash.new) }
    ensures unsealed { IsUnsealed F.told (F.state flash.new) }
    ensures file_left { leaves_file result ≡ true → D.contents depot.new ≡ D.contents depot.old }
    ensures made_first { (F.state flash.new).page_count ≡ 0 → D.contents depot.new ≡ D.contents depot.old }
    ensures others { SameBut visible.now (D.contents depot.old) (D.contents depot.new) }
    ensures depot { IsTold (told_by result).depot (D.faults depot.old) (D.faults depot.new) }
    ensures appends { D.append_faults depot.new ≡ D.append_faults depot.old }
    ensures flash { IsTold (told_by result).flash (F.state flash.old).faults (F.state flash.new).faults }
{
    a_catalog_has_a_layout(&prepared.cat);
    match make_and_build(
        alloc,
        &prepared.cat,
        &prepared.hidden,
        flash,
        flash_name,
        prepared.blocks,
    ) {
        Ok(()) => write_both(prepared, visible, depot, flash),
        Err(BuildFault::NoMemory) => Err(LoadFailure::NoMemory),
        Err(BuildFault::Flash) => Err(LoadFailure::Flash),
        Err(BuildFault::TooSmall { need, have }) => Err(LoadFailure::TooSmall { need, have }),
    }
}

/// Writes the host's file, and then the gate, its header and the catalog's pages, which seal the flash.
fn write_both<D: Depot, F: Flash>(
    prepared: &Prepared,
    visible: &str,
    depot: &mut D,
    flash: &mut F,
) -> Result<(), LoadFailure>
    requires there { layout.public_pages prepared.now.cat ≤ (F.state flash.old).page_count }
    requires erased { IsErased F.told 0 (layout.public_pages prepared.now.cat) (F.state flash.old) }
    requires unsealed { 0 < (F.state flash.old).page_count → F.told ≡ true → SpellsNoCatalog (F.state flash.old).page }
    ensures catalog { OnOk result (F.told ≡ true → HoldsCatalog (F.state flash.new).page prepared.now.cat) }
    ensures fresh { OnOk result (F.told ≡ true → prepared.now.cat.version ≡ current_version → HoldsFresh (F.state flash.new).page prepared.now.cat) }
    ensures files { (hidden : Hidden) → HoldsFiles (F.state flash.old).page prepared.now.cat hidden → HoldsFiles (F.state flash.new).page prepared.now.cat hidden }
    ensures device { ChangesOnly 0 (layout.public_pages prepared.now.cat) (F.state flash.old) (F.state flash.new) }
    ensures file { OnOk result (D.contents depot.new ≡ with_file (D.contents depot.old) visible.now prepared.now.image.items) }
    ensures flash_file { result ≡ Err failure.Flash → D.contents depot.new ≡ with_file (D.contents depot.old) visible.now prepared.now.image.items }
    ensures kinds { IsOfWriting result }
    ensures unsealed { F.told ≡ true → (F.state flash.new).blank 0 ≡ true → SpellsNoCatalog (F.state flash.new).page }
    ensures page_0 { leaves_page_0 result ≡ true → (F.state flash.new).blank 0 ≡ true }
    ensures sealed_last { (F.state flash.new).blank 0 ≡ false → D.contents depot.new ≡ with_file (D.contents depot.old) visible.now prepared.now.image.items }
    ensures others { SameBut visible.now (D.contents depot.old) (D.contents depot.new) }
    ensures depot { IsTold (told_by result).depot (D.faults depot.old) (D.faults depot.new) }
    ensures flash { IsTold (told_by result).flash (F.state flash.old).faults (F.state flash.new).faults }
    ensures appends { D.append_faults depot.new ≡ D.append_faults depot.old }
{
    let cat = &prepared.cat;
    a_catalog_has_a_layout(cat);
    match depot.replace(visible, &prepared.image) {
        Ok(()) => match seal(cat, flash) {
            Ok(()) => Ok(()),
            Err(_) => Err(LoadFailure::Flash),
        },
        Err(_) => Err(LoadFailure::Depot),
    }
}
