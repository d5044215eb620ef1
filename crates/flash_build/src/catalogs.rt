//! The catalog of a database.

ghost use Rattle.std.specs.Prelude.{◌≡◌, length, IsTrue};
ghost use Rattle.ghost_model.specs.core.Database.{IsDatabase, row_counts};
ghost use Rattle.ghost_model.specs.forms.Catalog.{current_version};
ghost use Rattle.tree_schema.specs.Catalogs.{are_counts};

use arrayvec::ArrayVec;
use csv_split::Tables;
use ghost_base::limits::MAX_TABLES;
use tree_schema::{Catalog, Schema};

/// The generation of a flash that is loaded anew.
pub const FIRST_GENERATION: u32 = 1;

/// The number of rows of each table, as a catalog of any version has them.
pub fn counts_of(schema: &Schema, tables: &Tables) -> ArrayVec<u32, MAX_TABLES>
    requires one_each { length tables.now ≡ length schema.now }
    ensures counts { result.items ≡ row_counts tables.now }
    ensures within { IsTrue (are_counts result.items) }
{
    let mut counts = ArrayVec::new();
    for table in 0..schema.tables() {
        counts.push(tables.rows(table));
    }
    counts
}

/// The catalog of a database whose tables are in memory, of the first generation and of the version that is made.
pub fn catalog_of(schema: Schema, tables: &Tables) -> Catalog
    requires database { IsDatabase schema tables.now }
    ensures schema { result.schema ≡ schema }
    ensures counts { row_counts tables.now ≡ result.counts }
    ensures generation { result.generation ≡ 1 }
    ensures version { result.version ≡ current_version }
{
    let counts = counts_of(&schema, tables);
    Catalog::of(schema, counts, FIRST_GENERATION)
}
