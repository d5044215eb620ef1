//! The opening of a session.

ghost use Rattle.std.specs.Prelude.{◌≡◌, ◌≤◌, ℕ, List, true, min, Some, Err, IfOk, IfErr};
ghost use Rattle.ghost_model.specs.core.Causes.{Rose, last_count};
ghost use Rattle.ghost_model.specs.core.Channel as channel;
ghost use Rattle.ghost_model.specs.forms.Catalog.{current_version};
ghost use Rattle.edge_traits.specs.Devices.{KeepsPages};
ghost use Rattle.edge_traits.specs.Files.{Files, AreSure};
ghost use Rattle.key_words.specs.Views.{query_view};
ghost use Rattle.key_inputs.specs.Openings.{Spelled, Missing};
ghost use Rattle.key_inputs.specs.Outside.{IsTold};
ghost use Rattle.key_inputs.specs.Scripts.{script_opening};
ghost use Rattle.flash_layout.specs.Ranges.{Suffices};
ghost use Rattle.key_commands.specs.query.Openings.{IsOpened};
ghost use Rattle.key_commands.specs.query.PublicPages.{HasCatalog};
ghost use Rattle.key_commands.specs.query.Results.{KeepsDeep, TellsScript, TellsFlash, IsOfFlash, is_faultless, is_of_opened_flash, is_of_script, told_by_opening};
ghost use Rattle.key_commands.specs.declared.query.failures.QueryFailure.TheVariants as failure;

use crate::query::failures::{QueryFailure, failure_of};
use crate::query::public_pages::read_current_catalog;
use edge_traits::depot::Depot;
use edge_traits::flash::{AttachFault, Flash};
use flash_layout::need;
use key_inputs::open_script;
use key_words::QueryWords;
use page_pool::PagePool;
use std::alloc::Global;
use tree_schema::Catalog;
use tree_schema::catalog_bytes::a_catalog_is_short;

/// What a session is opened over.
#[derive(Drop)]
pub(crate) struct Opened {
    /// The script.
    pub(crate) script: Vec<u8>,
    /// The catalog of the flash.
    pub(crate) cat: Catalog,
    /// The page buffers, of which none is out.
    pub(crate) pool: PagePool,
}

/// The catalog of a flash that has as many pages as it needs, where it is of the version that is made.
fn catalog_of<F: Flash>(flash: &mut F) -> Result<Catalog, QueryFailure>
    ensures catalog { IfOk result (λ cat. F.told ≡ true → HasCatalog (F.state flash.new) cat) }
    ensures current { IfOk result (λ cat. cat.version ≡ current_version) }
    ensures suffices { IfOk result (λ cat. Suffices cat (F.state flash.new)) }
    ensures device { (name : List ℕ) → (F.state flash.old).name ≡ Some name → IfErr result (λ fault. TellsFlash F.told name (F.state flash.new) fault) }
    ensures kinds { IfErr result (λ fault. IsOfFlash fault) }
    ensures kept { KeepsPages (F.state flash.old) (F.state flash.new) }
    ensures deep_reads { (F.state flash.new).deep_reads ≡ (F.state flash.old).deep_reads }
    ensures never_falls { (F.state flash.old).faults ≤ (F.state flash.new).faults }
    ensures flash { IsTold (told_by_opening result).flash (F.state flash.old).faults (F.state flash.new).faults }
    ensures calls_stay { min (F.state flash.old).calls last_count ≤ (F.state flash.new).calls }
    ensures memory { result ≡ Err failure.NoMemory → ⊥ }
{
    match read_current_catalog(flash) {
        Ok(Some(cat)) => {
            a_catalog_is_short(&cat);
            let need = need(&cat);
            let have = flash.pages();
            if have < need {
                return Err(QueryFailure::TooSmall { need, have });
            }
            Ok(cat)
        }
        Ok(None) => Err(QueryFailure::NotAKey),
        Err(_) => Err(QueryFailure::Flash),
    }
}

/// Attaches the flash of a name, and reads its catalog.
fn open_flash<F: Flash>(alloc: Global, name: &str, flash: &mut F) -> Result<Catalog, QueryFailure>
    ensures catalog { IfOk result (λ cat. F.told ≡ true → HasCatalog (F.state flash.new) cat) }
    ensures current { IfOk result (λ cat. cat.version ≡ current_version) }
    ensures suffices { IfOk result (λ cat. Suffices cat (F.state flash.new)) }
    ensures named { IfOk result (λ cat. (F.state flash.new).name ≡ Some name.now) }
    ensures device { IfErr result (λ fault. TellsFlash F.told name.now (F.state flash.new) fault) }
    ensures kinds { IfErr result (λ fault. IsOfFlash fault) }
    ensures kept { KeepsDeep F.told (F.state flash.old) (F.state flash.new) }
    ensures flash { IsTold (told_by_opening result).flash (F.state flash.old).faults (F.state flash.new).faults }
    ensures attached { Rose (F.state flash.old).calls (F.state flash.new).calls }
{
    match flash.attach(alloc, name) {
        Ok(_pages) => catalog_of(flash),
        Err(AttachFault::NoMemory) => Err(QueryFailure::NoMemory),
        Err(AttachFault::Failed) => Err(QueryFailure::Flash),
    }
}

/// Opens a session: reads the script, attaches the flash, reads its catalog, and takes the memory for the page buffers last.
pub(crate) fn open<D: Depot, F: Flash>(
    alloc: Global,
    words: &QueryWords<'_>,
    depot: &mut D,
    flash: &mut F,
) -> Result<Opened, QueryFailure>
    ensures opened { IfOk result (λ opened. IsOpened F.told (query_view words.now) (D.contents depot.old) (F.state flash.new) opened) }
    ensures script { IfErr result (λ fault. TellsScript (D.contents depot.old) words.now.script.now fault) }
    ensures device { IfErr result (λ fault. TellsFlash F.told words.now.flash.now (F.state flash.new) fault) }
    ensures complete { (files : Files) → (script : List ℕ) → (cat : channel.Catalog) → F.told ≡ true → D.contents depot.old ≡ Some files
        → (Rose (D.faults depot.old) (D.faults depot.new) → ⊥) → (Rose (F.state flash.old).faults (F.state flash.new).faults → ⊥)
        → script_opening files words.now.script.now ≡ Spelled script → HasCatalog (F.state flash.new) cat → is_faultless result ≡ true }
    ensures kept { KeepsDeep F.told (F.state flash.old) (F.state flash.new) }
    ensures flash { IsTold (told_by_opening result).flash (F.state flash.old).faults (F.state flash.new).faults }
    ensures attached { IfErr result (λ fault. is_of_opened_flash fault ≡ true → Rose (F.state flash.old).calls (F.state flash.new).calls) }
    ensures flash_left { IfErr result (λ fault. is_of_script fault ≡ true → F.state flash.new ≡ F.state flash.old) }
    ensures depot { IsTold (told_by_opening result).depot (D.faults depot.old) (D.faults depot.new) }
    ensures appends { D.append_faults depot.new ≡ D.append_faults depot.old }
    ensures same { D.contents depot.new ≡ D.contents depot.old }
    ensures missing { (files : Files) → D.contents depot.old ≡ Some files → AreSure files (D.sure depot.old) → result ≡ Err failure.Depot → script_opening files words.now.script.now ≡ Missing }
{
    let script = match open_script(alloc, words.script, depot) {
        Ok(script) => script,
        Err(fault) => return Err(failure_of(fault)),
    };
    let cat = open_flash(alloc, words.flash, flash)?;
    match PagePool::new(alloc, words.buffers) {
        Ok(pool) => Ok(Opened { script, cat, pool }),
        Err(_) => Err(QueryFailure::NoMemory),
    }
}
