//! The command.

ghost use Rattle.std.specs.Prelude.{◌≡◌, ◌≤◌, ℕ, List, true, min, Some, Err, IfOk, IfErr, OnErr};
ghost use Rattle.ghost_model.specs.core.Causes.{Rose, last_count};
ghost use Rattle.ghost_model.specs.core.Channel as channel;
ghost use Rattle.edge_traits.specs.Files.{Files, AreSure};
ghost use Rattle.key_words.specs.Views.{query_view};
ghost use Rattle.key_inputs.specs.Openings.{Spelled, Missing};
ghost use Rattle.key_inputs.specs.Outside.{HasCauses, outside};
ghost use Rattle.key_inputs.specs.Scripts.{script_opening};
ghost use Rattle.key_migrate.specs.Devices.{KeepsOthers};
ghost use Rattle.key_commands.specs.query.PublicPages.{HasCatalog};
ghost use Rattle.key_commands.specs.query.Results.{Runs, IsUnbegun, TellsScript, TellsFlash, is_faultless, is_of_opened_flash, is_of_script, told_by};
ghost use Rattle.key_commands.specs.declared.query.failures.QueryFailure.TheVariants as failure;

use crate::query::failures::QueryFailure;
use crate::query::opening::{Opened, open};
use edge_traits::depot::Depot;
use edge_traits::flash::Flash;
use edge_traits::link::Link;
use edge_traits::sink::Sink;
use key_session::{Options, Tally, run_session};
use key_words::QueryWords;
use std::alloc::Global;
use tree_schema::catalog_bytes::a_catalog_is_short;

/// Does the command `query`: reads the script, attaches the flash, reads the catalog on its public pages, which is to be of the
/// version that is made, and takes the memory for the page buffers of `--buffers`. Then it runs the session of the script with the host at the address of `--to`,
/// which writes the replies to the flash's spool, and prints the lines of each text.
///
/// After an error no move was made on the link, nothing was printed, no page changed, and no deep one was read. The devices of other
/// names keep their pages. Once the session is begun no memory is taken, and no file is read.
pub fn query<D: Depot, F: Flash, L: Link, O: Sink>(
    alloc: Global,
    words: &QueryWords<'_>,
    depot: &mut D,
    flash: &mut F,
    link: &mut L,
    out: &mut O,
) -> Result<Tally, QueryFailure>
    ensures ran { IfOk result (λ tally. Runs (λ journal. L.went link.old journal link.new) (L.faults link.old) (L.faults link.new) F.told (query_view words.now)
        (outside (D.contents depot.old) (D.faults depot.old) (D.append_faults depot.old) (F.state flash.old) (O.written out.old) (O.faults out.old))
        (outside (D.contents depot.new) (D.faults depot.new) (D.append_faults depot.new) (F.state flash.new) (O.written out.new) (O.faults out.new)) tally) }
    ensures unbegun { OnErr result (IsUnbegun (λ journal. L.went link.old journal link.new) (L.faults link.old) (L.faults link.new) F.told
        (outside (D.contents depot.old) (D.faults depot.old) (D.append_faults depot.old) (F.state flash.old) (O.written out.old) (O.faults out.old))
        (outside (D.contents depot.new) (D.faults depot.new) (D.append_faults depot.new) (F.state flash.new) (O.written out.new) (O.faults out.new))) }
    ensures script { IfErr result (λ fault. TellsScript (D.contents depot.old) words.now.script.now fault) }
    ensures device { IfErr result (λ fault. TellsFlash F.told words.now.flash.now (F.state flash.new) fault) }
    ensures complete { (files : Files) → (script : List ℕ) → (cat : channel.Catalog) → F.told ≡ true → D.contents depot.old ≡ Some files
        → (Rose (D.faults depot.old) (D.faults depot.new) → ⊥) → (Rose (F.state flash.old).faults (F.state flash.new).faults → ⊥)
        → script_opening files words.now.script.now ≡ Spelled script → HasCatalog (F.state flash.new) cat → is_faultless result ≡ true }
    ensures causes { HasCauses (told_by result)
        (outside (D.contents depot.old) (D.faults depot.old) (D.append_faults depot.old) (F.state flash.old) (O.written out.old) (O.faults out.old))
        (outside (D.contents depot.new) (D.faults depot.new) (D.append_faults depot.new) (F.state flash.new) (O.written out.new) (O.faults out.new)) }
    ensures flash_faults { min (F.state flash.old).faults last_count ≤ (F.state flash.new).faults }
    ensures link_faults { L.faults link.old ≤ L.faults link.new }
    ensures other_flashes { KeepsOthers F.told words.now.flash.now (F.state flash.old) (F.state flash.new) }
    ensures attached { IfErr result (λ fault. is_of_opened_flash fault ≡ true → Rose (F.state flash.old).calls (F.state flash.new).calls) }
    ensures flash_left { IfErr result (λ fault. is_of_script fault ≡ true → F.state flash.new ≡ F.state flash.old) }
    ensures same { D.contents depot.new ≡ D.contents depot.old }
    ensures missing { (files : Files) → D.contents depot.old ≡ Some files → AreSure files (D.sure depot.old) → result ≡ Err failure.Depot → script_opening files words.now.script.now ≡ Missing }
{
    match open(alloc, words, depot, flash) {
        Ok(opened) => {
            let Opened {
                script,
                cat,
                mut pool,
            } = opened;
            a_catalog_is_short(&cat);
            let options = Options {
                at: words.to,
                plan: words.plan,
                pace: words.pace.as_slice(),
            };
            Ok(run_session(&cat, &script, &options, &mut pool, flash, link, out))
        }
        Err(failure) => Err(failure),
    }
}
