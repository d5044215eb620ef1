//! The reading of inputs.

ghost use Rattle.std.specs.Prelude.{◌≡◌, ◌≤◌, ◌<◌, ◌^◌, ℕ, List, [], Some, Err, IfOk, IfErr, MatchResult, length, string_bytes, is_some, true};
ghost use Rattle.ghost_model.specs.core.Causes.{Rose};
ghost use Rattle.ghost_model.specs.core.Database as database;
ghost use Rattle.edge_traits.specs.Files.{Files, AreSure};
ghost use Rattle.key_inputs.specs.Openings.{tables_opening, tables_from};
ghost use Rattle.key_inputs.specs.Naming.{HasNoLine, IsNamedBy, IsNamedIn, IsShownBy, IsSpelledIn, OfKey, OfTable, ShowsKey};
ghost use Rattle.key_inputs.specs.Views.{OpensTables, OpensSchema, ReadsFiles, ReadsTable, Tells, TellsRule, rule_in, rule_of, name_at, opening_at};
ghost use Rattle.ghost_model.specs.refusals.LoadFaults as load;
ghost use Rattle.tree_schema.specs.Faults.{fault_of};
ghost use Rattle.ghost_model.specs.core.Schema as schemas;
ghost use Rattle.key_inputs.specs.Openings as openings;
ghost use Rattle.key_inputs.specs.Openings.{Opening, Missing, TablesInput};
ghost use Rattle.key_inputs.specs.declared.faults.OpenFault.TheVariants as open_fault;

use crate::broken_table::{BrokenTable, RecordNamed};
use crate::faults::{InputFault, OpenFault, unread};
use crate::names::table_file;
use crate::naming::{fault_of_file, fault_of_keys, table_name};
use crate::schema_names::broken_in;
use csv_split::{Place, Table, Tables, check_references, read_table};
use edge_traits::depot::Depot;
use edge_traits::reading::read_file;
use ghost_base::limits::MAX_CSV;
use ghost_model::meaning::files_spell_a_database;
use std::alloc::{AllocError, Global};
use tree_schema::schema::schemas_are_trees;
use tree_schema::{Schema, SchemaFault, read_schema};

/// The most bytes of a schema's or a script's file.
pub const MAX_TEXT: usize = 65_536;

/// A schema and its tables.
#[derive(Drop)]
pub struct Input {
    /// The schema.
    pub schema: Schema,

    /// The tables.
    pub tables: Tables,
}

/// Reads a schema and the files of its tables, which lie in a folder.
pub fn open_tables<D: Depot>(
    alloc: Global,
    schema: &str,
    folder: &str,
    depot: &mut D,
) -> Result<Input, OpenFault>
    ensures opened { (files : Files) → D.contents depot.old ≡ Some files → OpensTables (tables_opening files schema.now folder.now) result }
    ensures database { IfOk result (λ input. database.IsDatabase input.schema input.tables) }
    ensures names { (files : Files) → D.contents depot.old ≡ Some files → IfErr result (λ fault. IsNamedIn files schema.now folder.now fault) }
    ensures never_falls { D.faults depot.old ≤ D.faults depot.new }
    ensures failed { result ≡ Err OpenFault.Depot → Rose (D.faults depot.old) (D.faults depot.new) }
    ensures other { (result ≡ Err OpenFault.Depot → ⊥) → D.faults depot.new ≡ D.faults depot.old }
    ensures appends { D.append_faults depot.new ≡ D.append_faults depot.old }
    ensures same { D.contents depot.new ≡ D.contents depot.old }
    ensures stays_sure { (other : List ℕ) → D.sure depot.old other → D.sure depot.new other }
    ensures missing { (files : Files) → D.contents depot.old ≡ Some files → AreSure files (D.sure depot.old) → result ≡ Err OpenFault.Depot → tables_opening files schema.now folder.now ≡ Missing }
{
    let schema = open_schema(alloc, schema, depot)?;
    let tables = open_files(alloc, &schema, folder, depot)?;
    check_keys(&schema, &tables)?;
    let _tables = schema.tables();
    schemas_are_trees();
    files_spell_a_database();
    Ok(Input { schema, tables })
}

/// Reads a schema.
fn open_schema<D: Depot>(alloc: Global, name: &str, depot: &mut D) -> Result<Schema, OpenFault>
    ensures opened { (files : Files) → D.contents depot.old ≡ Some files → (folder : List ℕ) → OpensSchema files name.now folder result }
    ensures spelled { (files : Files) → D.contents depot.old ≡ Some files → IfOk result (λ schema. IsSpelledIn files name.now schema) }
    ensures no_table { IfErr result (OfTable (λ _. ⊥)) }
    ensures never_falls { D.faults depot.old ≤ D.faults depot.new }
    ensures failed { result ≡ Err OpenFault.Depot → Rose (D.faults depot.old) (D.faults depot.new) }
    ensures other { (result ≡ Err OpenFault.Depot → ⊥) → D.faults depot.new ≡ D.faults depot.old }
    ensures appends { D.append_faults depot.new ≡ D.append_faults depot.old }
    ensures same { D.contents depot.new ≡ D.contents depot.old }
    ensures stays_sure { (other : List ℕ) → D.sure depot.old other → D.sure depot.new other }
    ensures missing { (files : Files) → D.contents depot.old ≡ Some files → AreSure files (D.sure depot.old) → result ≡ Err OpenFault.Depot → (folder : List ℕ) → tables_opening files name.now folder ≡ Missing }
{
    let text = match read_file(alloc, depot, name, MAX_TEXT) {
        Ok(text) => text,
        Err(fault) => return Err(unread(fault, InputFault::SchemaBytes)),
    };
    match read_schema(&text) {
        Ok(schema) => Ok(schema),
        Err(fault) => Err(fault_of_schema(&text, fault)),
    }
}

/// That a schema's text breaks a rule.
fn fault_of_schema(text: &[u8], fault: SchemaFault) -> OpenFault
    ensures rule { rule_in result ≡ Some (openings.SchemaRule (fault_of fault)) }
    ensures not_depot { result ≡ OpenFault.Depot → ⊥ }
    ensures no_table { OfTable (λ _. ⊥) result }
{
    OpenFault::Input(InputFault::Schema(broken_in(text, fault)))
}

/// Reads the files of a schema's tables.
fn open_files<D: Depot>(
    alloc: Global,
    schema: &Schema,
    folder: &str,
    depot: &mut D,
) -> Result<Tables, OpenFault>
    ensures read { IfOk result (λ tables. ReadsFiles (D.contents depot.old) folder.now schema.now tables) }
    ensures told { IfErr result (λ fault. (files : Files) → D.contents depot.old ≡ Some files → Tells (tables_from files folder.now schema.now 0 schema.now []) fault) }
    ensures names { (files : Files) → D.contents depot.old ≡ Some files → IfErr result (OfTable (IsShownBy files folder.now schema.now)) }
    ensures never_falls { D.faults depot.old ≤ D.faults depot.new }
    ensures failed { result ≡ Err OpenFault.Depot → Rose (D.faults depot.old) (D.faults depot.new) }
    ensures other { (result ≡ Err OpenFault.Depot → ⊥) → D.faults depot.new ≡ D.faults depot.old }
    ensures appends { D.append_faults depot.new ≡ D.append_faults depot.old }
    ensures same { D.contents depot.new ≡ D.contents depot.old }
    ensures stays_sure { (other : List ℕ) → D.sure depot.old other → D.sure depot.new other }
    ensures missing { (files : Files) → D.contents depot.old ≡ Some files → AreSure files (D.sure depot.old) → result ≡ Err OpenFault.Depot → tables_from files folder.now schema.now 0 schema.now [] ≡ Missing }
{
    let mut tables = Tables::new(alloc);
    for table in 0..schema.tables() {
        let read = open_table(alloc, schema, table, folder, depot)?;
        let Ok(()) = tables.push(read) else {
            return Err(OpenFault::NoMemory);
        };
    }
    Ok(tables)
}

/// Reads the file of one table.
fn open_table<D: Depot>(
    alloc: Global,
    schema: &Schema,
    table: usize,
    folder: &str,
    depot: &mut D,
) -> Result<Table, OpenFault>
    requires within { table < length schema.now }
    ensures read { IfOk result (λ rows. ReadsTable (D.contents depot.old) (openings.table_file folder.now (name_at schema.now table)) (schemas.columns_of schema.now table) table rows) }
    ensures told { IfErr result (λ fault. (files : Files) → D.contents depot.old ≡ Some files → (next : List ℕ → Opening TablesInput) → Tells (opening_at files folder.now schema.now table next) fault) }
    ensures names { (files : Files) → D.contents depot.old ≡ Some files → IfErr result (OfTable (IsShownBy files folder.now schema.now)) }
    ensures never_falls { D.faults depot.old ≤ D.faults depot.new }
    ensures failed { result ≡ Err OpenFault.Depot → Rose (D.faults depot.old) (D.faults depot.new) }
    ensures other { (result ≡ Err OpenFault.Depot → ⊥) → D.faults depot.new ≡ D.faults depot.old }
    ensures appends { D.append_faults depot.new ≡ D.append_faults depot.old }
    ensures same { D.contents depot.new ≡ D.contents depot.old }
    ensures stays_sure { (other : List ℕ) → D.sure depot.old other → D.sure depot.new other }
    ensures missing { (files : Files) → D.contents depot.old ≡ Some files → AreSure files (D.sure depot.old) → result ≡ Err OpenFault.Depot → (next : List ℕ → Opening TablesInput) → opening_at files folder.now schema.now table next ≡ Missing }
{
    let _tables = schema.tables();
    let Ok(name) = file_of(alloc, schema, table, folder) else {
        return Err(OpenFault::NoMemory);
    };
    let file = match read_file(alloc, depot, name.as_str(), MAX_CSV) {
        Ok(file) => file,
        Err(fault) => return Err(unread(fault, too_long(schema, table))),
    };
    match read_table(alloc, schema, table, &file) {
        Ok(read) => Ok(read),
        Err(fault) => Err(fault_of_file(alloc, schema, &file, fault)),
    }
}

/// That the file of a table is too long.
fn too_long(schema: &Schema, table: usize) -> InputFault
    requires within { table < 2 ^ 8 }
    ensures rule { rule_of result ≡ openings.TableRule (load.FileLimit (load.place table 0 0)) }
    ensures names { OfTable (IsNamedBy schema.now) (open_fault.Input result) }
{
    let at = Place {
        table: table as u8,
        rec: 0,
        column: 0,
    };
    let table = table_name(schema, table);
    InputFault::Table(BrokenTable::FileLimit(RecordNamed {
        at,
        table,
        line: None,
    }))
}

/// The name of the file of a table's rows.
fn file_of(alloc: Global, schema: &Schema, table: usize, folder: &str) -> Result<String, AllocError>
    requires within { table < length schema.now }
    ensures name { IfOk result (λ name. string_bytes name ≡ openings.table_file folder.now (name_at schema.now table)) }
{
    let _tables = schema.tables();
    schemas_are_trees();
    match schema.table(table) {
        Some(found) => table_file(alloc, folder, &found.name),
        None => unreachable!(),
    }
}

/// Judges the foreign keys.
fn check_keys(schema: &Schema, tables: &Tables) -> Result<(), OpenFault>
    ensures judged { MatchResult result (λ _. load.reference_faults schema.now tables.now ≡ []) (λ fault. TellsRule (rule_in fault) (load.reference_faults schema.now tables.now)) }
    ensures tells { IfErr result (λ fault. is_some (rule_in fault) ≡ true) }
    ensures not_depot { result ≡ Err OpenFault.Depot → ⊥ }
    ensures names { IfErr result (OfTable (IsNamedBy schema.now)) }
    ensures keys { IfErr result (OfTable (OfKey (ShowsKey tables.now))) }
    ensures line { IfErr result (OfTable HasNoLine) }
{
    match check_references(schema, tables) {
        Ok(()) => Ok(()),
        Err(fault) => Err(fault_of_keys(schema, tables, fault)),
    }
}
