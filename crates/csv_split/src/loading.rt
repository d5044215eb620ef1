//! The tables of a schema, from their files.

ghost use Rattle.std.specs.Prelude.{◌≡◌, ◌<◌, ◌++◌, ◌∷◌, List, [], length, map, Err, IfErr, IfOk, OnOk, MatchResult, Some, None};
ghost use Rattle.ghost_model.specs.laws.LoadLaws as load_laws;
ghost use Rattle.ghost_model.specs.core.Database as database;
ghost use Rattle.ghost_model.specs.refusals.LoadFaults as faults;
ghost use Rattle.ghost_model.specs.core.Schema as schemas;
ghost use Rattle.csv_split.specs.Faults.{told};

use crate::faults::LoadFault;
use crate::reading::read_rows;
use crate::references::check_references;
use crate::schema_columns::declared_columns;
use crate::table::Table;
use crate::tables::Tables;
use ghost_model::meaning::files_spell_a_database;
use std::alloc::Global;
use tree_schema::Schema;
use tree_schema::schema::schemas_are_trees;

/// The table that a file spells, unless the file breaks a rule: the first fault of the file is told, apart from foreign
/// keys. `NoMemory` may come at any time.
pub fn read_table(
    alloc: Global,
    schema: &Schema,
    table: usize,
    file: &[u8],
) -> Result<Table, LoadFault>
    requires { table < length schema.now }
    ensures judged { load_laws.Judges told result (faults.file_faults table (schemas.columns_of schema.now table) file.now) }
    ensures rows { IfOk result (λ read. read ≡ database.rows_spelled (schemas.columns_of schema.now table) file.now) }
{
    let declared = declared_columns(schema, table);
    read_rows(alloc, table as u8, declared, file)
}

/// The tables that files spell, one for each table of the schema in order, unless a rule is broken: the first fault is
/// told, those of foreign keys after all others. `NoMemory` may come at any time.
pub fn read_tables(alloc: Global, schema: &Schema, files: &[Vec<u8>]) -> Result<Tables, LoadFault>
    requires { length files.now ≡ length schema.now }
    ensures clean { IfOk result (λ _. faults.load_fault schema.now (map (λ file. file.items) files.now) ≡ None) }
    ensures first { IfErr result (λ error. (fault : faults.LoadFault) → told error ≡ Some fault → faults.load_fault schema.now (map (λ file. file.items) files.now) ≡ Some fault) }
    ensures tables { IfOk result (λ tables. tables ≡ database.database_of schema.now (map (λ file. file.items) files.now)) }
    ensures database { IfOk result (λ tables. database.IsDatabase schema.now tables) }
{
    let tables = read_files(alloc, schema, files)?;
    check_references(schema, &tables)?;
    let _tables = schema.tables();
    schemas_are_trees();
    files_spell_a_database();
    Ok(tables)
}

/// Puts the table of the next file at the end, where the file was read; its fault is the answer where it was not.
fn put_table(tables: &mut Tables, read: Result<Table, LoadFault>) -> Result<(), LoadFault>
    ensures same { (fault : LoadFault) → read ≡ Err fault → result ≡ Err fault }
    ensures memory { IfErr result (λ fault. IfOk read (λ _. fault ≡ LoadFault.NoMemory)) }
    ensures first { (found : List faults.LoadFault) → load_laws.Judges told read found → IfErr result (λ fault. load_laws.TellsFirst (told fault) found) }
    ensures tables { OnOk result (MatchResult read (λ table. tables.new ≡ tables.old ++ table ∷ []) (λ _. ⊥)) }
{
    let table = read?;
    match tables.push(table) {
        Ok(()) => Ok(()),
        Err(_) => Err(LoadFault::NoMemory),
    }
}

/// The tables that files spell, their foreign keys not being looked at.
fn read_files(alloc: Global, schema: &Schema, files: &[Vec<u8>]) -> Result<Tables, LoadFault>
    requires { length files.now ≡ length schema.now }
    ensures judged { load_laws.Judges told result (faults.files_faults 0 schema.now (map (λ file. file.items) files.now)) }
    ensures tables { IfOk result (λ tables. tables ≡ database.database_of schema.now (map (λ file. file.items) files.now)) }
{
    let mut tables = Tables::new(alloc);
    for (i, file) in files.iter().enumerate() {
        let table = read_table(alloc, schema, i, file);
        put_table(&mut tables, table)?;
    }
    Ok(tables)
}
