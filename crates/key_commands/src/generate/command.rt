//! The command.

ghost use Rattle.std.specs.Prelude.{◌≡◌, ◌⊎◌, ℕ, true, Some, List, Option};
ghost use Rattle.ghost_model.specs.core.Causes.{Rose};
ghost use Rattle.edge_traits.specs.Files.{Files};
ghost use Rattle.key_words.specs.Views.{gen_view};
ghost use Rattle.key_inputs.specs.Outside.{HasCauses, outside};
ghost use Rattle.key_migrate.specs.Devices.{KeepsOthers};
ghost use Rattle.key_commands.specs.generate.Results.{EndsGen, is_failure, is_faultless, told_by};

use crate::generate::ends::{GenFailure, GenRun, end_of, failure_of};
use crate::generate::preparing::{Ready, make_ready};
use crate::generate::printing::print_counts;
use crate::generate::running::hold;
use crate::local::making::make_flash;
use crate::local::preparing::Prepared;
use edge_traits::flash::Flash;
use edge_traits::sink::Sink;
use generated_clinic::laws::texts_are_good;
use ghost_model::flash::holdings_are_kept;
use ghost_model::layout::{catalogs_are_limited, files_lie_in_order};
use key_exec::laws::held_pages_are_known;
use key_words::GenWords;
use std::alloc::Global;

/// Does the command `gen`: draws a clinic from the seed and a script over it, counts the rows of each text's plain answer, makes the flash
/// and writes the hidden part to it, and holds the session of the script with a host in the process, its lines printed nowhere. Then it
/// prints for each text its number, the rows that the session gave and those of its plain answer, and then how many moves the session
/// made, and the bytes that it sent and took.
///
/// No input is refused, the devices of other names keep their pages, and all memory is taken before the first move. A text that the flash ended has its line too, with the rows given
/// before. After a failed write no other is made.
pub fn generate<F: Flash, O: Sink>(
    alloc: Global,
    words: &GenWords<'_>,
    flash: &mut F,
    out: &mut O,
) -> Result<GenRun, GenFailure>
    ensures ends { (files : Option Files) → (faults appends : ℕ) → EndsGen F.told (gen_view words.now) result
        (outside files faults appends (F.state flash.old) (O.written out.old) (O.faults out.old))
        (outside files faults appends (F.state flash.new) (O.written out.new) (O.faults out.new)) }
    ensures complete { (Rose (F.state flash.old).faults (F.state flash.new).faults → ⊥) → (Rose (O.faults out.old) (O.faults out.new) → ⊥)
        → is_faultless F.told result ≡ true }
    ensures nothing_written { is_failure result ≡ true → O.written out.new ≡ O.written out.old }
    ensures never_other { (F.state flash.new ≡ F.state flash.old) ⊎ ((other : List ℕ) → (F.state flash.new).name ≡ Some other → other ≡ words.now.flash.now) }
    ensures other_flashes { KeepsOthers F.told words.now.flash.now (F.state flash.old) (F.state flash.new) }
    ensures causes { (files : Option Files) → (faults appends : ℕ) → HasCauses (told_by result)
        (outside files faults appends (F.state flash.old) (O.written out.old) (O.faults out.old))
        (outside files faults appends (F.state flash.new) (O.written out.new) (O.faults out.new)) }
{
    files_lie_in_order();
    holdings_are_kept();
    catalogs_are_limited();
    held_pages_are_known();
    texts_are_good();
    let Ok(ready) = make_ready(alloc, words) else {
        return Err(GenFailure::NoMemory);
    };
    let Ready {
        prepared,
        script,
        meant,
    } = ready;
    let Prepared {
        cat,
        hidden,
        mut link,
        mut pool,
    } = prepared;
    if let Err(fault) = make_flash(alloc, &cat, hidden, flash, words.flash) {
        return Err(failure_of(fault));
    }
    let held = hold(&cat, &script, words, &mut link, &mut pool, flash);
    let failed = print_counts(
        out,
        held.session.told.as_slice(),
        &meant,
        held.moves,
        held.sent,
        held.taken,
    );
    Ok(GenRun {
        end: end_of(held.session.end, failed),
        told: held.session.told,
    })
}
