//! The reading of tables and a script.

ghost use Rattle.std.specs.Prelude.{◌≡◌, ◌≤◌, ℕ, List, Some, Err, IfOk, IfErr, length};
ghost use Rattle.ghost_model.specs.core.Causes.{Rose};
ghost use Rattle.ghost_model.specs.core.Database as database;
ghost use Rattle.ghost_model.specs.core.Texts.{most_script_bytes, most_texts, texts_of};
ghost use Rattle.edge_traits.specs.Files.{Files, AreSure};
ghost use Rattle.key_inputs.specs.Naming.{IsNamedIn};
ghost use Rattle.key_inputs.specs.Openings.{Missing};
ghost use Rattle.key_inputs.specs.Views.{Tells};
ghost use Rattle.key_inputs.specs.Whole.{IsSpelled, whole_opening};

use crate::faults::OpenFault;
use crate::opening::{Input, open_tables};
use crate::script::open_script;
use edge_traits::depot::Depot;
use std::alloc::Global;

/// A schema, its tables and a script.
#[derive(Drop)]
pub struct Opened {
    /// The schema and its tables.
    pub tables: Input,

    /// The script's bytes.
    pub script: Vec<u8>,
}

/// Reads a schema and the files of its tables, which lie in a folder, and then a script.
pub fn open_inputs<D: Depot>(
    alloc: Global,
    schema: &str,
    folder: &str,
    script: &str,
    depot: &mut D,
) -> Result<Opened, OpenFault>
    ensures spelled { (files : Files) → D.contents depot.old ≡ Some files → IfOk result (λ opened. IsSpelled (whole_opening files schema.now folder.now script.now) opened) }
    ensures told { (files : Files) → D.contents depot.old ≡ Some files → IfErr result (λ fault. Tells (whole_opening files schema.now folder.now script.now) fault) }
    ensures names { (files : Files) → D.contents depot.old ≡ Some files → IfErr result (IsNamedIn files schema.now folder.now) }
    ensures database { IfOk result (λ opened. database.IsDatabase opened.tables.schema opened.tables.tables) }
    ensures short { IfOk result (λ opened. length opened.script.items ≤ most_script_bytes) }
    ensures few { IfOk result (λ opened. length (texts_of opened.script.items) ≤ most_texts) }
    ensures never_falls { D.faults depot.old ≤ D.faults depot.new }
    ensures failed { result ≡ Err OpenFault.Depot → Rose (D.faults depot.old) (D.faults depot.new) }
    ensures other { (result ≡ Err OpenFault.Depot → ⊥) → D.faults depot.new ≡ D.faults depot.old }
    ensures appends { D.append_faults depot.new ≡ D.append_faults depot.old }
    ensures same { D.contents depot.new ≡ D.contents depot.old }
    ensures stays_sure { (other : List ℕ) → D.sure depot.old other → D.sure depot.new other }
    ensures missing { (files : Files) → D.contents depot.old ≡ Some files → AreSure files (D.sure depot.old) → result ≡ Err OpenFault.Depot → whole_opening files schema.now folder.now script.now ≡ Missing }
{
    let tables = open_tables(alloc, schema, folder, depot)?;
    let script = open_script(alloc, script, depot)?;
    Ok(Opened { tables, script })
}
