//! The command.

ghost use Rattle.std.specs.Prelude.{◌≡◌, ◌⊎◌, true, false, Some, Err, ℕ, List, bytes_eq};
ghost use Rattle.ghost_model.specs.core.Causes.{Rose};
ghost use Rattle.edge_traits.specs.Devices.{pages_under};
ghost use Rattle.edge_traits.specs.Files.{Files, AreSure, SameBut};
ghost use Rattle.key_words.specs.Views.{load_view};
ghost use Rattle.key_inputs.specs.Openings.{InputFault, Spelled, Broken, TablesInput, tables_opening};
ghost use Rattle.key_inputs.specs.Outside.{HasCauses, outside};
ghost use Rattle.key_load.specs.Results.{EndsLoadCall, EndsSomeLoad, IsUnsealed, HasBlankPage0, is_faultless, makes_nothing, leaves_file, leaves_page_0, ShowsNames, told_by, writes_nothing};
ghost use Rattle.key_load.specs.declared.failures.LoadFailure.TheVariants as failure;

use crate::failures::{LoadFailure, failure_of};
use crate::line::print_line;
use crate::making::make_both;
use crate::preparing::prepare;
use edge_traits::depot::Depot;
use edge_traits::flash::{BLOCK_PAGES, Flash};
use edge_traits::sink::Sink;
use key_inputs::open_tables;
use key_words::LoadWords;
use std::alloc::Global;

/// Does the command `load`: reads the schema and the files of its tables, makes the flash and writes the files of the
/// hidden part to it, then writes the host's file, then the gate, its header and the catalog's pages from the last to page 0, and
/// prints `= tables t rows r pages p`.
///
/// Until the flash is made, it and the host's file are as before: it is made where all files were read and it is to be large
/// enough, and under its own name; the devices of other names stay as they are. As long as page 0 is blank, its pages spell no
/// catalog. Where only the line could not be printed, both files stand.
pub fn load<D: Depot, F: Flash, O: Sink>(
    alloc: Global,
    words: &LoadWords<'_>,
    depot: &mut D,
    flash: &mut F,
    out: &mut O,
) -> Result<(), LoadFailure>
    ensures ends { (files : Files) → D.contents depot.old ≡ Some files
        → EndsLoadCall F.told (tables_opening files words.now.schema.now words.now.tables.now) (load_view words.now) result
        (outside (D.contents depot.old) (D.faults depot.old) (D.append_faults depot.old) (F.state flash.old) (O.written out.old) (O.faults out.old))
        (outside (D.contents depot.new) (D.faults depot.new) (D.append_faults depot.new) (F.state flash.new) (O.written out.new) (O.faults out.new)) }
    ensures names { (files : Files) → D.contents depot.old ≡ Some files → ShowsNames files words.now.schema.now words.now.tables.now result }
    ensures loads { EndsSomeLoad F.told (load_view words.now) result
        (outside (D.contents depot.old) (D.faults depot.old) (D.append_faults depot.old) (F.state flash.old) (O.written out.old) (O.faults out.old))
        (outside (D.contents depot.new) (D.faults depot.new) (D.append_faults depot.new) (F.state flash.new) (O.written out.new) (O.faults out.new)) }
    ensures complete { (files : Files) → (input : TablesInput) → D.contents depot.old ≡ Some files
        → (Rose (D.faults depot.old) (D.faults depot.new) → ⊥) → (Rose (F.state flash.old).faults (F.state flash.new).faults → ⊥) → (Rose (O.faults out.old) (O.faults out.new) → ⊥)
        → tables_opening files words.now.schema.now words.now.tables.now ≡ Spelled input → is_faultless result ≡ true }
    ensures nothing_written { writes_nothing result ≡ true → O.written out.new ≡ O.written out.old }
    ensures nothing_made { makes_nothing result ≡ true → F.state flash.new ≡ F.state flash.old }
    ensures file_left { leaves_file result ≡ true → D.contents depot.new ≡ D.contents depot.old }
    ensures made_first { (F.state flash.new).page_count ≡ 0 → D.contents depot.new ≡ D.contents depot.old }
    ensures never_other { (F.state flash.new ≡ F.state flash.old) ⊎ ((other : List ℕ) → (F.state flash.new).name ≡ Some other → other ≡ words.now.flash.now) }
    ensures other_flashes { F.told ≡ true → (other : List ℕ) → bytes_eq words.now.flash.now other ≡ false → pages_under (F.state flash.new) other ≡ pages_under (F.state flash.old) other }
    ensures page_0 { leaves_page_0 result ≡ true → (F.state flash.new ≡ F.state flash.old) ⊎ HasBlankPage0 (F.state flash.new) }
    ensures unsealed { (F.state flash.new ≡ F.state flash.old) ⊎ IsUnsealed F.told (F.state flash.new) }
    ensures others { SameBut words.now.visible.now (D.contents depot.old) (D.contents depot.new) }
    ensures causes { HasCauses (told_by result)
        (outside (D.contents depot.old) (D.faults depot.old) (D.append_faults depot.old) (F.state flash.old) (O.written out.old) (O.faults out.old))
        (outside (D.contents depot.new) (D.faults depot.new) (D.append_faults depot.new) (F.state flash.new) (O.written out.new) (O.faults out.new)) }
    ensures judged { (files : Files) → D.contents depot.old ≡ Some files → AreSure files (D.sure depot.old) → result ≡ Err failure.Depot
        → (rule : InputFault) → tables_opening files words.now.schema.now words.now.tables.now ≡ Broken rule → ⊥ }
{
    let input = match open_tables(alloc, words.schema, words.tables, depot) {
        Ok(input) => input,
        Err(fault) => return Err(failure_of(fault)),
    };
    let prepared = prepare(alloc, input, words.blocks)?;
    make_both(alloc, &prepared, words.flash, words.visible, depot, flash)?;
    match print_line(&prepared.cat, BLOCK_PAGES * prepared.blocks, out) {
        Ok(()) => Ok(()),
        Err(_) => Err(LoadFailure::Sink),
    }
}
