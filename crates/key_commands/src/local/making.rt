//! The making of the flash and of the journal's file.

ghost use Rattle.std.specs.Prelude.{◌≡◌, ◌≤◌, ◌<◌, ◌+◌, ◌^◌, [], true, Some, Err, OnOk, option_map, ℕ, List};
ghost use Rattle.ghost_model.specs.core.Causes.{HasCause, Rose};
ghost use Rattle.ghost_model.specs.forms.Flash.{Holds, IsHidden};
ghost use Rattle.ghost_model.specs.forms.Layout as layout;
ghost use Rattle.flash_build.specs.Building.{load_calls};
ghost use Rattle.edge_traits.specs.Devices.{Counts};
ghost use Rattle.key_migrate.specs.Devices.{KeepsOthers};
ghost use Rattle.key_commands.specs.local.Making.{IsOfMaking};
ghost use Rattle.key_commands.specs.local.Sessions.{HasLines, SameBesides};
ghost use Rattle.key_commands.specs.declared.local.ends.LocalFailure.TheVariants as failure;

use crate::local::ends::LocalFailure;
use csv_split::Hidden;
use edge_traits::Failed;
use edge_traits::depot::Depot;
use edge_traits::flash::{BLOCK_PAGES, Flash};
use flash_build::{BuildFault, load_flash};
use flash_layout::need;
use std::alloc::Global;
use tree_schema::Catalog;

/// Makes a flash of just the pages that a catalog needs, and writes the hidden part and then the catalog to it.
pub(crate) fn make_flash<F: Flash>(
    alloc: Global,
    cat: &Catalog,
    hidden: Hidden,
    flash: &mut F,
    name: &str,
) -> Result<(), LocalFailure>
    requires part { IsHidden cat.now hidden }
    ensures holds { OnOk result (F.told ≡ true → Holds (F.state flash.new).page cat.now hidden) }
    ensures pages { OnOk result ((F.state flash.new).page_count ≡ layout.need cat.now) }
    ensures named { OnOk result ((F.state flash.new).name ≡ Some name.now) }
    ensures never_other { (other : List ℕ) → (F.state flash.new).name ≡ Some other → other ≡ name.now }
    ensures others { KeepsOthers F.told name.now (F.state flash.old) (F.state flash.new) }
    ensures exact { OnOk result (Counts (load_calls cat.now hidden) (F.state flash.old).calls (F.state flash.new).calls) }
    ensures small { layout.need cat.now < 2 ^ 32 }
    ensures few_calls { (F.state flash.new).calls ≤ (F.state flash.old).calls + load_calls cat.now hidden }
    ensures kinds { IsOfMaking result }
    ensures flash { result ≡ Err failure.Flash → Rose (F.state flash.old).faults (F.state flash.new).faults }
    ensures no_flash { (result ≡ Err failure.Flash → ⊥) → (F.state flash.new).faults ≡ (F.state flash.old).faults }
{
    let blocks = need(cat) / BLOCK_PAGES;
    match load_flash(alloc, cat, &hidden, flash, name, blocks) {
        Ok(()) => Ok(()),
        Err(BuildFault::NoMemory) => Err(LocalFailure::NoMemory),
        Err(BuildFault::Flash) => Err(LocalFailure::Flash),
        Err(BuildFault::TooSmall { .. }) => unreachable!(),
    }
}

/// Begins the journal's file as an empty one, where one is named.
pub(crate) fn begin_journal<D: Depot>(name: Option<&str>, depot: &mut D) -> Result<(), Failed>
    ensures cause { HasCause (D.faults depot.old) (D.faults depot.new) result }
    ensures appends { D.append_faults depot.new ≡ D.append_faults depot.old }
    ensures begun { OnOk result (HasLines (D.contents depot.new) (option_map (λ one. one.now) name.entry) []) }
    ensures others { SameBesides (option_map (λ one. one.now) name.entry) (D.contents depot.old) (D.contents depot.new) }
{
    match name {
        None => Ok(()),
        Some(name) => depot.replace(name, &[]),
    }
}
