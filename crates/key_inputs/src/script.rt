//! The reading of a script.

ghost use Rattle.std.specs.Prelude.{◌≡◌, ◌≤◌, ◌<◌, ℕ, List, Some, Err, IfOk, IfErr, OnOk, length};
ghost use Rattle.ghost_model.specs.core.Causes.{Rose};
ghost use Rattle.ghost_model.specs.core.Texts.{most_script_bytes, most_texts, texts_of};
ghost use Rattle.edge_traits.specs.Files.{Files, AreSure};
ghost use Rattle.key_inputs.specs.Naming.{OfTable};
ghost use Rattle.key_inputs.specs.Openings.{Spelled, Missing};
ghost use Rattle.key_inputs.specs.Scripts.{script_opening};
ghost use Rattle.key_inputs.specs.Views.{Tells};
ghost use Rattle.key_inputs.specs.declared.faults.InputFault.TheVariants as fault;
ghost use Rattle.key_inputs.specs.declared.faults.OpenFault.TheVariants as open_fault;

use crate::faults::{InputFault, OpenFault, unread};
use crate::opening::MAX_TEXT;
use edge_traits::depot::Depot;
use edge_traits::reading::read_file;
use spj_parse::text_count;
use std::alloc::Global;

/// The most texts of a script.
pub const MAX_TEXTS: usize = 64;

/// Reads a script.
pub fn open_script<D: Depot>(alloc: Global, name: &str, depot: &mut D) -> Result<Vec<u8>, OpenFault>
    ensures spelled { (files : Files) → D.contents depot.old ≡ Some files → IfOk result (λ script. script_opening files name.now ≡ Spelled script.items) }
    ensures told { (files : Files) → D.contents depot.old ≡ Some files → IfErr result (λ fault. Tells (script_opening files name.now) fault) }
    ensures no_table { IfErr result (OfTable (λ _. ⊥)) }
    ensures short { IfOk result (λ script. length script.items ≤ most_script_bytes) }
    ensures few { IfOk result (λ script. length (texts_of script.items) ≤ most_texts) }
    ensures never_falls { D.faults depot.old ≤ D.faults depot.new }
    ensures failed { result ≡ Err OpenFault.Depot → Rose (D.faults depot.old) (D.faults depot.new) }
    ensures other { (result ≡ Err OpenFault.Depot → ⊥) → D.faults depot.new ≡ D.faults depot.old }
    ensures appends { D.append_faults depot.new ≡ D.append_faults depot.old }
    ensures same { D.contents depot.new ≡ D.contents depot.old }
    ensures stays_sure { (other : List ℕ) → D.sure depot.old other → D.sure depot.new other }
    ensures missing { (files : Files) → D.contents depot.old ≡ Some files → AreSure files (D.sure depot.old) → result ≡ Err OpenFault.Depot → script_opening files name.now ≡ Missing }
{
    let script = match read_file(alloc, depot, name, MAX_TEXT) {
        Ok(script) => script,
        Err(fault) => return Err(unread(fault, InputFault::ScriptBytes)),
    };
    match judge_texts(&script) {
        Ok(()) => Ok(script),
        Err(fault) => Err(fault),
    }
}

/// Judges the number of a script's texts.
fn judge_texts(script: &[u8]) -> Result<(), OpenFault>
    ensures few { OnOk result (length (texts_of script.now) ≤ most_texts) }
    ensures many { IfErr result (λ told. (told ≡ open_fault.Input fault.ScriptTexts) × (most_texts < length (texts_of script.now))) }
{
    if text_count(script) > MAX_TEXTS {
        return Err(OpenFault::Input(InputFault::ScriptTexts));
    }
    Ok(())
}
