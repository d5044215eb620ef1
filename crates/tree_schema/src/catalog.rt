//! Catalogs: what both sides of the channel know beforehand.

ghost use Rattle.std.specs.Prelude.{◌≡◌, ◌<◌, ◌==◌, length, option_map, slice_get, IsTrue};
ghost use Rattle.ghost_model.specs.forms.Catalog.{current_version};
ghost use Rattle.tree_schema.specs.Catalogs.{IsCatalog, are_counts, catalog_of, catalog_of_version};
ghost use Rattle.tree_schema.specs.Nulls.{allowing};
ghost use Rattle.tree_schema.specs.Views.{version_of};

use crate::{Schema, Version};
use arrayvec::ArrayVec;
use ghost_base::limits::MAX_TABLES;
use std::marker::Model;

/// A schema, the number of rows of each table, a generation, and the version of the format.
#[derive(Drop)]
pub struct Catalog {
    schema: Schema,
    counts: ArrayVec<u32, MAX_TABLES>,
    generation: u32,
    version: Version,
}

impl Model for Catalog {
    ghost use Rattle.ghost_model.specs.core.Channel as channel;

    ghost Value = { channel.Catalog };

    ghost use Rattle.tree_schema.specs.Catalogs.{IsCatalog, catalog_of_version};
    ghost use Rattle.tree_schema.specs.Views.{version_of};

    ghost view = { λ cat. catalog_of_version (version_of cat.version) cat.schema cat.counts.items cat.generation };

    ghost invariant = { λ cat. IsCatalog (catalog_of_version (version_of cat.version) cat.schema cat.counts.items cat.generation) };
}

impl Catalog {
    /// A catalog of the current version of a schema whose tables have so many rows, at most 1,000,000 each.
    pub fn of(schema: Schema, counts: ArrayVec<u32, MAX_TABLES>, generation: u32) -> Catalog
        requires counts { length counts.items ≡ length schema }
        requires rows { IsTrue (are_counts counts.items) }
        requires generation { 0 < generation }
        ensures { result ≡ catalog_of schema counts.items generation }
    {
        Catalog::of_version(Version::Two, schema, counts, generation)
    }

    /// A catalog of a version.
    pub fn of_version(
        version: Version,
        schema: Schema,
        counts: ArrayVec<u32, MAX_TABLES>,
        generation: u32,
    ) -> Catalog
        requires counts { length counts.items ≡ length schema }
        requires rows { IsTrue (are_counts counts.items) }
        requires generation { 0 < generation }
        ensures { result ≡ catalog_of_version (version_of version) schema counts.items generation }
    {
        let _ = schema.tables();
        let _number = version.number();
        Catalog {
            schema,
            counts,
            generation,
            version,
        }
    }

    /// Its schema.
    pub fn schema(&self) -> &Schema
        ensures value { result.now ≡ self.now.schema }
        ensures catalog { IsCatalog self.now }
    {
        &self.schema
    }

    /// The number of rows of a table.
    pub fn rows(&self, table: usize) -> Option<u32>
        ensures { result ≡ slice_get self.now.counts table }
    {
        self.counts.get(table).copied()
    }

    /// Its generation, which is not 0.
    pub fn generation(&self) -> u32
        ensures value { result ≡ self.now.generation }
        ensures used { 0 < result }
    {
        self.generation
    }

    /// Its version.
    pub fn version(&self) -> Version
        ensures { version_of result ≡ self.now.version }
    {
        self.version
    }

    /// The catalog in which a column may be NULL too. There is none where there is no such column, and where it is the identifier, a
    /// foreign key, or NULL already.
    pub fn with_null(self, table: usize, column: usize) -> Option<Catalog>
        ensures { result ≡ option_map (λ schema. catalog_of_version self.version schema self.counts self.generation) (allowing self.schema table column) }
    {
        let Catalog {
            schema,
            counts,
            generation,
            version,
        } = self;
        let _number = version.number();
        if !schema.may_be_null(table, column) {
            return None;
        }
        let schema = schema.with_null(table, column);
        let _ = schema.tables();
        Some(Catalog {
            schema,
            counts,
            generation,
            version,
        })
    }

    /// The same catalog, of the version that is made.
    pub fn renewed(self) -> Catalog
        ensures { result ≡ catalog_of self.schema self.counts self.generation }
    {
        let Catalog {
            schema,
            counts,
            generation,
            version,
        } = self;
        let _number = version.number();
        Catalog::of(schema, counts, generation)
    }

    /// Whether it is of the version that is made.
    pub fn is_current(&self) -> bool
        ensures { result ≡ (self.now.version == current_version) }
    {
        self.version.is_current()
    }
}
