//! The tables of a drawn clinic, and the script over it.

ghost use Rattle.std.specs.Prelude.{◌≡◌, ◌<◌, ◌≤◌, ◌++◌, ◌∷◌, [], IfOk, OnOk, length};
ghost use Rattle.ghost_model.specs.core.Database as database;
ghost use Rattle.ghost_model.specs.core.Generated as generation;
ghost use Rattle.ghost_model.specs.core.Schema as schemas;
ghost use Rattle.ghost_model.specs.examples.Clinic.{clinic_schema};
ghost use Rattle.ghost_model.specs.refusals.LoadFaults.{file_faults, most_rows};

use csv_split::{LoadFault, Tables, read_table};
use generated_clinic::laws::files_are_good;
use generated_clinic::{Generated, generated, schema_text};
use ghost_model::generated::generated_files;
use ghost_model::meaning::files_spell_a_database;
use key_inputs::Input;
use std::alloc::{AllocError, Global};
use tree_schema::schema::schemas_are_trees;
use tree_schema::{Schema, read_schema};

/// A clinic in memory, and the script over it.
#[derive(Drop)]
pub(crate) struct Drawn {
    pub(crate) clinic: Input,
    pub(crate) script: Vec<u8>,
}

/// The schema of a clinic.
fn clinic() -> Schema
    ensures schema { result ≡ clinic_schema }
{
    generated_files();
    match read_schema(schema_text()) {
        Ok(schema) => schema,
        Err(_) => unreachable!(),
    }
}

/// Reads the file of a table, which keeps every rule, and puts the table behind those before it. The file's bytes are let go.
fn add_table(
    alloc: Global,
    schema: &Schema,
    table: usize,
    file: Vec<u8>,
    tables: &mut Tables,
) -> Result<(), AllocError>
    requires within { table < length schema.now }
    requires good { file_faults table (schemas.columns_of schema.now table) file.items ≡ [] }
    ensures tables { OnOk result (tables.new ≡ tables.old ++ database.rows_spelled (schemas.columns_of schema.now table) file.items ∷ []) }
{
    match read_table(alloc, schema, table, &file) {
        Ok(read) => tables.push(read),
        Err(LoadFault::NoMemory) => Err(AllocError),
        Err(_) => unreachable!(),
    }
}

/// The clinic of so many visits that is drawn from a seed, and the script of so many texts. An error is want of memory.
pub(crate) fn draw(alloc: Global, seed: u32, visits: u32, texts: u32) -> Result<Drawn, AllocError>
    requires few { visits ≤ most_rows }
    ensures schema { IfOk result (λ drawn. drawn.clinic.schema ≡ clinic_schema) }
    ensures tables { IfOk result (λ drawn. drawn.clinic.tables ≡ database.database_of clinic_schema (generation.files seed visits)) }
    ensures database { IfOk result (λ drawn. database.IsDatabase drawn.clinic.schema drawn.clinic.tables) }
    ensures script { IfOk result (λ drawn. drawn.script.items ≡ generation.script texts) }
{
    generated_files();
    files_are_good();
    files_spell_a_database();
    schemas_are_trees();
    let schema = clinic();
    let Generated {
        doctors,
        patients,
        visits,
        script,
    } = generated(alloc, seed, visits, texts)?;
    let mut tables = Tables::new(alloc);
    add_table(alloc, &schema, 0, doctors, &mut tables)?;
    add_table(alloc, &schema, 1, patients, &mut tables)?;
    add_table(alloc, &schema, 2, visits, &mut tables)?;
    let clinic = Input { schema, tables };
    Ok(Drawn { clinic, script })
}
