//! The hidden part on the flash.

ghost use Rattle.std.specs.Prelude.{◌≡◌, ◌<◌, ◌≤◌, ◌+◌, true, Err, OnOk};
ghost use Rattle.ghost_model.specs.forms.Flash.{HoldsFiles, IsHidden};
ghost use Rattle.ghost_model.specs.forms.Layout as layout;
ghost use Rattle.ghost_model.specs.forms.Work as work;
ghost use Rattle.edge_traits.specs.Devices.{Counts, ChangesOnly};
ghost use Rattle.flash_build.specs.Building.{IsBlank};
ghost use Rattle.flash_build.specs.Faults.{BuildCause, EndsAtFault, IsLargeEnough};
ghost use Rattle.flash_build.specs.declared.faults.BuildFault.TheVariants as fault;

use crate::faults::BuildFault;
use crate::tables::write_tables;
use csv_split::Hidden;
use edge_traits::flash::Flash;
use flash_layout::Layout;
use flash_layout::limits::a_catalog_has_a_layout;
use std::alloc::Global;
use tree_schema::Catalog;

/// Writes the hidden part of a catalog's database to its places on the flash, whose pages are blank: for each table the files
/// of its hidden columns, its subtree key table, and its indexes, in the order of their pages. Each page is written once, and
/// none after a failed call.
///
/// A flash with fewer pages than the catalog needs is too small, and no call is made. All public pages of the catalog's version stay
/// as they are.
pub fn build<F: Flash>(
    alloc: Global,
    cat: &Catalog,
    hidden: &Hidden,
    flash: &mut F,
) -> Result<(), BuildFault>
    requires part { IsHidden cat.now hidden.now }
    requires blank { IsBlank (layout.public_pages cat.now) (layout.files_end cat.now) (F.state flash.old) }
    ensures holds { OnOk result (F.told ≡ true → HoldsFiles (F.state flash.new).page cat.now hidden.now) }
    ensures too_small { (F.state flash.old).page_count < layout.need cat.now → result ≡ Err (fault.TooSmall (layout.need cat.now) (F.state flash.old).page_count) }
    ensures untouched { (F.state flash.old).page_count < layout.need cat.now → F.state flash.new ≡ F.state flash.old }
    ensures large_enough { layout.need cat.now ≤ (F.state flash.old).page_count → IsLargeEnough result }
    ensures others { ChangesOnly (layout.public_pages cat.now) (layout.files_end cat.now) (F.state flash.old) (F.state flash.new) }
    ensures exact { OnOk result (Counts (work.file_pages cat.now hidden.now) (F.state flash.old).calls (F.state flash.new).calls) }
    ensures at_most { (F.state flash.new).calls ≤ (F.state flash.old).calls + work.file_pages cat.now hidden.now }
    ensures deep_reads { (F.state flash.new).deep_reads ≡ (F.state flash.old).deep_reads }
    ensures cause { BuildCause (F.state flash.old).faults (F.state flash.new).faults result }
    ensures last { EndsAtFault (F.state flash.new).since_fault result }
{
    a_catalog_has_a_layout(cat);
    let laid = Layout::of(cat);
    let need = laid.need();
    let have = flash.pages();
    if have < need {
        return Err(BuildFault::TooSmall { need, have });
    }
    write_tables(alloc, &laid, hidden, flash)
}
