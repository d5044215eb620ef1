//! The command.

ghost use Rattle.std.specs.Prelude.{◌≡◌, ◌⊎◌, ℕ, true, Some, Err, List};
ghost use Rattle.ghost_model.specs.core.Causes.{Rose};
ghost use Rattle.edge_traits.specs.Files.{Files, AreSure};
ghost use Rattle.key_words.specs.Views.{local_view};
ghost use Rattle.key_inputs.specs.Openings.{InputFault, Spelled, Broken};
ghost use Rattle.key_inputs.specs.Outside.{HasCauses, outside};
ghost use Rattle.key_inputs.specs.Whole.{WholeInput};
ghost use Rattle.key_migrate.specs.Devices.{KeepsOthers};
ghost use Rattle.key_commands.specs.local.Openings.{local_opening};
ghost use Rattle.key_commands.specs.local.Sessions.{SameBesides};
ghost use Rattle.key_commands.specs.local.Results.{EndsLocalCall, EndsSomeLocal, is_failure, is_faultless, leaves_files, leaves_flash, ShowsNames, told_by};
ghost use Rattle.key_commands.specs.declared.local.ends.LocalFailure.TheVariants as failure;

use crate::local::ends::{LocalFailure, LocalRun, failure_of};
use crate::local::making::{begin_journal, make_flash};
use crate::local::preparing::{Prepared, prepare};
use crate::local::running::run;
use edge_traits::depot::Depot;
use edge_traits::flash::Flash;
use edge_traits::sink::Sink;
use ghost_model::flash::holdings_are_kept;
use ghost_model::layout::{catalogs_are_limited, files_lie_in_order};
use key_exec::laws::held_pages_are_known;
use key_inputs::{Opened, open_inputs};
use key_words::LocalWords;
use std::alloc::Global;

/// Does the command `local`: reads the schema, the files of its tables and then the script, splits the tables, makes the
/// flash and writes the hidden part to it, and holds the session of the script with a host in the process. Where a journal
/// is named, its file begins anew when all else is ready, and each move of the session has a line in it.
///
/// The first broken rule of the files is told before anything is made or printed: the flash is made, under its own name, where
/// all was read. The devices of other names keep their pages. After a failed write no further line is printed, and after a failed append no further line of the journal is
/// written; the session goes on to its end.
pub fn local<D: Depot, F: Flash, O: Sink>(
    alloc: Global,
    words: &LocalWords<'_>,
    depot: &mut D,
    flash: &mut F,
    out: &mut O,
) -> Result<LocalRun, LocalFailure>
    ensures ends { (files : Files) → D.contents depot.old ≡ Some files
        → EndsLocalCall F.told (local_opening files (local_view words.now)) (local_view words.now) result
        (outside (D.contents depot.old) (D.faults depot.old) (D.append_faults depot.old) (F.state flash.old) (O.written out.old) (O.faults out.old))
        (outside (D.contents depot.new) (D.faults depot.new) (D.append_faults depot.new) (F.state flash.new) (O.written out.new) (O.faults out.new)) }
    ensures names { (files : Files) → D.contents depot.old ≡ Some files → ShowsNames files words.now.schema.now words.now.tables.now result }
    ensures ran { EndsSomeLocal F.told (local_view words.now) result
        (outside (D.contents depot.old) (D.faults depot.old) (D.append_faults depot.old) (F.state flash.old) (O.written out.old) (O.faults out.old))
        (outside (D.contents depot.new) (D.faults depot.new) (D.append_faults depot.new) (F.state flash.new) (O.written out.new) (O.faults out.new)) }
    ensures complete { (files : Files) → (input : WholeInput) → D.contents depot.old ≡ Some files
        → (Rose (D.faults depot.old) (D.faults depot.new) → ⊥) → (Rose (F.state flash.old).faults (F.state flash.new).faults → ⊥) → (Rose (O.faults out.old) (O.faults out.new) → ⊥)
        → local_opening files (local_view words.now) ≡ Spelled input → is_faultless F.told result ≡ true }
    ensures nothing_written { is_failure result ≡ true → O.written out.new ≡ O.written out.old }
    ensures flash_left { leaves_flash result ≡ true → F.state flash.new ≡ F.state flash.old }
    ensures never_other { (F.state flash.new ≡ F.state flash.old) ⊎ ((other : List ℕ) → (F.state flash.new).name ≡ Some other → other ≡ words.now.flash.now) }
    ensures files_left { leaves_files result ≡ true → D.contents depot.new ≡ D.contents depot.old }
    ensures other_flashes { KeepsOthers F.told words.now.flash.now (F.state flash.old) (F.state flash.new) }
    ensures others { SameBesides (local_view words.now).journal (D.contents depot.old) (D.contents depot.new) }
    ensures causes { HasCauses (told_by result)
        (outside (D.contents depot.old) (D.faults depot.old) (D.append_faults depot.old) (F.state flash.old) (O.written out.old) (O.faults out.old))
        (outside (D.contents depot.new) (D.faults depot.new) (D.append_faults depot.new) (F.state flash.new) (O.written out.new) (O.faults out.new)) }
    ensures judged { (files : Files) → D.contents depot.old ≡ Some files → AreSure files (D.sure depot.old) → result ≡ Err failure.Depot
        → (rule : InputFault) → local_opening files (local_view words.now) ≡ Broken rule → ⊥ }
{
    files_lie_in_order();
    holdings_are_kept();
    catalogs_are_limited();
    held_pages_are_known();
    let Opened { tables, script } = match open_inputs(
        alloc,
        words.schema,
        words.tables,
        words.script,
        depot,
    ) {
        Ok(opened) => opened,
        Err(fault) => return Err(failure_of(fault)),
    };
    let prepared = match prepare(alloc, tables, words.buffers) {
        Ok(prepared) => prepared,
        Err(_) => return Err(LocalFailure::NoMemory),
    };
    let Prepared {
        cat,
        hidden,
        mut link,
        mut pool,
    } = prepared;
    make_flash(alloc, &cat, hidden, flash, words.flash)?;
    match begin_journal(words.journal, depot) {
        Err(_) => Err(LocalFailure::Depot),
        Ok(()) => Ok(run(
            &cat, &script, words, &mut link, &mut pool, depot, flash, out,
        )),
    }
}
