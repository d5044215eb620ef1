//! The old flash and its catalog.

ghost use Rattle.std.specs.Prelude.{◌≡◌, ◌≤◌, ◌+◌, ℕ, List, min, IfOk, IfErr};
ghost use Rattle.ghost_model.specs.core.Causes.{last_count};
ghost use Rattle.ghost_model.specs.forms.Layout as layout;
ghost use Rattle.edge_traits.specs.Devices.{Device, KeepsPages};
ghost use Rattle.key_inputs.specs.Outside.{IsTold};
ghost use Rattle.key_migrate.specs.Devices.{IsNoOther, KeepsNamed};
ghost use Rattle.key_migrate.specs.Reading.{TellsKey};
ghost use Rattle.key_migrate.specs.Results.{told_by};
ghost use Rattle.key_migrate.specs.Stages.{IsWholeKey, Opens};

use crate::failures::MigrateFailure;
use crate::public_pages::read_public_pages;
use edge_traits::flash::{AttachFault, Flash};
use flash_layout::Layout;
use std::alloc::Global;
use tree_schema::Catalog;
use tree_schema::catalog_bytes::a_catalog_is_short;

/// The page where the files of a hidden part end, a multiple of 64.
fn static_end(cat: &Catalog) -> u32
    ensures page { result ≡ layout.static_end cat.now }
{
    Layout::of(cat).static_end()
}

/// The catalog of a flash that has the pages of all files of its hidden part.
fn read_key<F: Flash>(flash: &mut F) -> Result<Catalog, MigrateFailure>
    ensures key { (name : List ℕ) (before : Device) → Opens F.told name before (F.state flash.old) → IfOk result (λ cat. IsWholeKey F.told name before (F.state flash.new) cat) }
    ensures told { (name : List ℕ) (before : Device) → Opens F.told name before (F.state flash.old) → IfErr result (λ fault. TellsKey F.told name before (F.state flash.new) fault) }
    ensures kept { KeepsPages (F.state flash.old) (F.state flash.new) }
    ensures flash { IsTold (told_by result).flash (F.state flash.old).faults (F.state flash.new).faults }
    ensures calls_stay { min (F.state flash.old).calls last_count ≤ (F.state flash.new).calls }
    ensures at_most { (F.state flash.new).calls ≤ (F.state flash.old).calls + 9 }
{
    match read_public_pages(flash) {
        Ok(Some(cat)) => {
            a_catalog_is_short(&cat);
            let need = static_end(&cat);
            let have = flash.pages();
            if have < need {
                return Err(MigrateFailure::OldTooSmall { need, have });
            }
            Ok(cat)
        }
        Ok(None) => Err(MigrateFailure::NotAKey),
        Err(_) => Err(MigrateFailure::Flash),
    }
}

/// Attaches the flash of a name, and reads its catalog.
pub(crate) fn open_key<F: Flash>(
    alloc: Global,
    name: &str,
    flash: &mut F,
) -> Result<Catalog, MigrateFailure>
    ensures key { IfOk result (λ cat. IsWholeKey F.told name.now (F.state flash.old) (F.state flash.new) cat) }
    ensures told { IfErr result (λ fault. TellsKey F.told name.now (F.state flash.old) (F.state flash.new) fault) }
    ensures name { IsNoOther name.now (F.state flash.new) }
    ensures kept { KeepsNamed F.told (F.state flash.old) (F.state flash.new) }
    ensures flash { IsTold (told_by result).flash (F.state flash.old).faults (F.state flash.new).faults }
    ensures calls_stay { min (F.state flash.old).calls last_count ≤ (F.state flash.new).calls }
    ensures at_most { (F.state flash.new).calls ≤ (F.state flash.old).calls + 10 }
{
    match flash.attach(alloc, name) {
        Ok(_pages) => read_key(flash),
        Err(AttachFault::NoMemory) => Err(MigrateFailure::NoMemory),
        Err(AttachFault::Failed) => Err(MigrateFailure::Flash),
    }
}
