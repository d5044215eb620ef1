//! The command.

ghost use Rattle.std.specs.Prelude.{◌≡◌, ◌⊎◌, [], true, Some, Ok, Err};
ghost use Rattle.ghost_model.specs.core.Causes.{Rose};
ghost use Rattle.edge_traits.specs.Devices.{Device};
ghost use Rattle.edge_traits.specs.Files.{Files, AreSure};
ghost use Rattle.key_words.specs.Views.{plain_view};
ghost use Rattle.key_inputs.specs.Openings.{Spelled, Missing};
ghost use Rattle.key_inputs.specs.Outside.{HasCauses, outside};
ghost use Rattle.key_inputs.specs.Whole.{WholeInput};
ghost use Rattle.key_plain.specs.Openings.{plain_opening};
ghost use Rattle.key_lines.specs.Told.{told_in};
ghost use Rattle.key_plain.specs.Views.{EndsPlainCall, PrintsSomeRead, ShowsNames, told_by, writes_nothing};

use crate::faults::{PlainFault, fault_of};
use crate::printing::print_script;
use edge_traits::depot::Depot;
use edge_traits::sink::Sink;
use key_inputs::open_inputs;
use key_lines::ToldTexts;
use key_words::PlainWords;
use std::alloc::Global;

/// Does the command `plain`: reads the schema, the files of its tables and then the script, and prints for each text of
/// the script, in their order, the rows of its answer and their number, or the word of its refusal.
///
/// The first broken rule of the files is told before anything is printed, with the names and the value of its field. After a failed
/// write no further write is made. Whatever flash lies beside is left alone.
///
/// `told` gets what is told of each text: its rule and its rows; after a failed write of some texts from the front, by their rules.
pub fn plain<D: Depot, O: Sink>(
    alloc: Global,
    words: &PlainWords<'_>,
    depot: &mut D,
    out: &mut O,
    told: &mut ToldTexts,
) -> Result<(), PlainFault>
    ensures ends { (files : Files) → D.contents depot.old ≡ Some files
        → EndsPlainCall (plain_opening files (plain_view words.now)) result (O.written out.old) (O.written out.new) (told_in told.new) }
    ensures names { (files : Files) → D.contents depot.old ≡ Some files → ShowsNames files words.now.schema.now words.now.tables.now result }
    ensures complete { (files : Files) → (input : WholeInput) → D.contents depot.old ≡ Some files
        → (Rose (D.faults depot.old) (D.faults depot.new) → ⊥) → (Rose (O.faults out.old) (O.faults out.new) → ⊥)
        → plain_opening files (plain_view words.now) ≡ Spelled input → (result ≡ Ok tt) ⊎ (result ≡ Err PlainFault.NoMemory) }
    ensures prints { PrintsSomeRead result (O.written out.old) (O.written out.new) (told_in told.new) }
    ensures nothing_written { writes_nothing result ≡ true → O.written out.new ≡ O.written out.old }
    ensures causes { (device : Device) → HasCauses (told_by result)
        (outside (D.contents depot.old) (D.faults depot.old) (D.append_faults depot.old) device (O.written out.old) (O.faults out.old))
        (outside (D.contents depot.new) (D.faults depot.new) (D.append_faults depot.new) device (O.written out.new) (O.faults out.new)) }
    ensures same { D.contents depot.new ≡ D.contents depot.old }
    ensures missing { (files : Files) → D.contents depot.old ≡ Some files → AreSure files (D.sure depot.old) → result ≡ Err PlainFault.Depot
        → plain_opening files (plain_view words.now) ≡ Missing }
{
    *told = ToldTexts::none();
    match open_inputs(alloc, words.schema, words.tables, words.script, depot) {
        Ok(opened) => {
            let tables = &opened.tables;
            if print_script(out, &tables.schema, &tables.tables, &opened.script, told).is_err() {
                return Err(PlainFault::Sink);
            }
            Ok(())
        }
        Err(fault) => Err(fault_of(fault)),
    }
}
