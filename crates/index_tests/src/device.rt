//! A device that was loaded with the files of a schema's tables.

ghost use Rattle.std.specs.Prelude.{IfSome};
ghost use Rattle.ghost_model.specs.core.Database.{IsDatabase};
ghost use Rattle.ghost_model.specs.forms.Flash.{IsHidden};

use csv_split::{Hidden, Tables, read_tables, split};
use edge_traits::mem_flash::MemFlash;
use flash_build::{catalog_of, load_flash};
use flash_layout::need;
use std::alloc::{AllocError, Global};
use tree_schema::{Catalog, Schema, read_schema};

/// A catalog and the hidden part of its database.
#[derive(Drop)]
struct Parts {
    cat: Catalog,
    hidden: Hidden,
}

/// A catalog, and a device that has its database.
#[derive(Drop)]
pub(crate) struct Loaded {
    /// The catalog.
    pub cat: Catalog,
    /// The device.
    pub flash: MemFlash,
}

/// Files in memory.
fn in_memory(alloc: Global, texts: &[&str]) -> Result<Vec<Vec<u8>>, AllocError> {
    let mut files = Vec::new(alloc);
    for text in texts {
        let file = Vec::from_slice(alloc, text.as_bytes())?;
        let Ok(()) = files.push(file) else {
            return Err(AllocError);
        };
    }
    Ok(files)
}

/// The catalog and the hidden part of the tables of a schema.
fn parts_of(alloc: Global, schema: Schema, tables: Tables) -> Option<Parts>
    requires database { IsDatabase schema tables }
    ensures part { IfSome result (λ parts. IsHidden parts.cat parts.hidden) }
{
    let cat = catalog_of(schema, &tables);
    let (_public, hidden) = split(alloc, cat.schema(), tables).ok()?;
    Some(Parts { cat, hidden })
}

/// Those of the files of a schema's tables.
fn read_parts(alloc: Global, schema: &str, texts: &[&str]) -> Option<Parts>
    ensures part { IfSome result (λ parts. IsHidden parts.cat parts.hidden) }
{
    let schema = read_schema(schema.as_bytes()).ok()?;
    let files = in_memory(alloc, texts).ok()?;
    if files.len() != schema.tables() {
        return None;
    }
    let tables = read_tables(alloc, &schema, &files).ok()?;
    parts_of(alloc, schema, tables)
}

/// The files of a schema's tables on a device that was loaded with them.
pub(crate) fn load(alloc: Global, schema: &str, texts: &[&str]) -> Option<Loaded> {
    let parts = read_parts(alloc, schema, texts)?;
    let blocks = need(&parts.cat).div_ceil(64);
    if blocks > 60000000 {
        return None;
    }
    let mut flash = MemFlash::new(alloc, blocks, &[]).ok()?;
    load_flash(alloc, &parts.cat, &parts.hidden, &mut flash, "key", blocks).ok()?;
    Some(Loaded {
        cat: parts.cat,
        flash,
    })
}
