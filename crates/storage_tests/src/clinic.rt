//! The clinic's flash: what stands on which page, and what the files of its hidden columns read.

ghost use Rattle.std.specs.Prelude.{◌≡◌, ◌<◌, IfSome};
ghost use Rattle.ghost_model.specs.core.Database.{IsDatabase, row_counts};
ghost use Rattle.ghost_model.specs.forms.Flash.{IsHidden};
ghost use Rattle.hidden_columns.specs.Files.{IsReadable};

use crate::places::{CLINIC, HEAD, OLDER_HEAD, catalog_bytes};
use csv_split::{Hidden, Tables, read_tables, split};
use edge_traits::flash::Flash;
use edge_traits::mem_flash::MemFlash;
use flash_build::catalogs::counts_of;
use flash_build::{ReadFault, load_flash, read_hidden};
use flash_layout::{Layout, is_hidden, need};
use flash_pages::fault::PageFault;
use ghost_base::Value;
use hidden_columns::ColumnFile;
use page_pool::PagePool;
use std::alloc::{AllocError, Global};
use tree_schema::{Catalog, Schema, Version, read_catalog, read_schema};

/// The clinic's files.
const FILES: [&[u8]; 3] = [
    b"id,specialty,country\n1,cardio,FR\n2,neuro,ES\n3,cardio,ES\n",
    b"id,age,name\n1,30,Ann\n2,41,Bob\n",
    b"id,day,purpose,doc,pat\n1,5,flu,1,1\n2,5,check,3,2\n3,9,flu,3,1\n4,2,flu,2,2\n",
];

/// A catalog and the hidden part of its database.
#[derive(Drop)]
struct Parts {
    cat: Catalog,
    hidden: Hidden,
}

/// Files in memory.
fn in_memory(alloc: Global, texts: &[&[u8]]) -> Result<Vec<Vec<u8>>, AllocError> {
    let mut files = Vec::new(alloc);
    for text in texts {
        let file = Vec::from_slice(alloc, text)?;
        let Ok(()) = files.push(file) else {
            return Err(AllocError);
        };
    }
    Ok(files)
}

/// What of a catalog does not follow from its tables.
#[derive(Clone, Copy)]
struct Made {
    version: Version,
    generation: u32,
}

/// The catalog of the tables of a schema.
fn catalog_at(schema: Schema, tables: &Tables, version: Version, generation: u32) -> Catalog
    requires database { IsDatabase schema tables.now }
    requires generation { 0 < generation }
    ensures schema { result.schema ≡ schema }
    ensures counts { row_counts tables.now ≡ result.counts }
{
    let counts = counts_of(&schema, tables);
    Catalog::of_version(version, schema, counts, generation)
}

/// The catalog and the hidden part of the tables of a schema.
fn parts_of(alloc: Global, schema: Schema, tables: Tables, made: Made) -> Option<Parts>
    requires database { IsDatabase schema tables }
    ensures part { IfSome result (λ parts. IsHidden parts.cat parts.hidden) }
{
    if made.generation == 0 {
        return None;
    }
    let cat = catalog_at(schema, &tables, made.version, made.generation);
    let (_public, hidden) = split(alloc, cat.schema(), tables).ok()?;
    Some(Parts { cat, hidden })
}

/// Those of the files of a schema's tables.
fn read_parts(alloc: Global, schema: &str, texts: &[&[u8]], made: Made) -> Option<Parts>
    ensures part { IfSome result (λ parts. IsHidden parts.cat parts.hidden) }
{
    let schema = read_schema(schema.as_bytes()).ok()?;
    let files = in_memory(alloc, texts).ok()?;
    if files.len() != schema.tables() {
        return None;
    }
    let tables = read_tables(alloc, &schema, &files).ok()?;
    parts_of(alloc, schema, tables, made)
}

/// A catalog, a device, and page buffers.
#[derive(Drop)]
pub(crate) struct Loaded {
    /// The catalog.
    pub cat: Catalog,
    /// The device.
    pub flash: MemFlash,
    /// Page buffers.
    pub pool: PagePool,
}

/// The clinic on a device that was built and sealed by a catalog of this version and generation.
fn load(alloc: Global, version: Version, generation: u32) -> Option<Loaded> {
    let made = Made {
        version,
        generation,
    };
    let parts = read_parts(alloc, CLINIC, &FILES, made)?;
    let mut flash = MemFlash::new(alloc, 21, &[]).ok()?;
    load_flash(alloc, &parts.cat, &parts.hidden, &mut flash, "key", 21).ok()?;
    Some(Loaded {
        cat: parts.cat,
        flash,
        pool: PagePool::new(alloc, 8).ok()?,
    })
}

/// Whether a page has these bytes, and 0xFF after them.
fn has(flash: &MemFlash, page: u32, front: &[u8]) -> bool {
    match flash.page(page) {
        None => false,
        Some(bytes) => bytes.starts_with(front)
            && bytes.iter().skip(front.len()).all(|byte| *byte == 0xFF),
    }
}

/// What stands on pages of the clinic's files, counted from the first one.
const FILES_HAVE: [(u32, &[u8]); 12] = [
    (0, b"FRESES"),
    (1, b"\0\0\0\x02"),
    (
        2,
        b"ES\0\0\0\0\0\0\0\x02\0\0\0\0\0\0\0\x03FR\0\0\0\x02\0\0\0\x01\0\0\0\x03\0\0\0\x01",
    ),
    (3, b"\x02\x01\x01"),
    (4, b"\x02\x01\x01\x01"),
    (6, b"\x01\x04\x02\x01"),
    (7, b"Ann\0\0\0\0\0Bob\0\0\0\0\0"),
    (14, b"flu\0\0\0\0\0check\0\0\0flu\0\0\0\0\0flu\0\0\0\0\0"),
    (
        15,
        b"\x80\0\0\0\0\0\0\x01\x80\0\0\0\0\0\0\x03\x80\0\0\0\0\0\0\x03\x80\0\0\0\0\0\0\x02",
    ),
    (
        16,
        b"\x80\0\0\0\0\0\0\x01\x80\0\0\0\0\0\0\x02\x80\0\0\0\0\0\0\x01\x80\0\0\0\0\0\0\x02",
    ),
    (
        17,
        b"\0\0\0\x01\0\0\0\x01\0\0\0\x03\0\0\0\x02\0\0\0\x03\0\0\0\x01\0\0\0\x02\0\0\0\x02",
    ),
    (
        19,
        b"check\0\0\0\0\0\0\0\0\0\0\x01flu\0\0\0\0\0\0\0\0\x01\0\0\0\x03",
    ),
];

/// How many pages up to the last of the clinic's files are blank.
fn blank_pages(flash: &MemFlash, first: u32) -> usize {
    (0..first.saturating_add(27))
        .filter(|page| has(flash, *page, b""))
        .count()
}

/// At version 2 the gate and a header stand beside the catalog and the 27 pages of files, at version 1 none.
#[test]
fn the_clinic_stands_on_its_pages(rt: HostRuntime) {
    for (version, head, first, blank, calls) in [
        (Version::Two, HEAD, 256u32, 253usize, 31u64),
        (Version::One, OLDER_HEAD, 64, 63, 29),
    ] {
        let Some(loaded) = load(rt.alloc(), version, 1) else {
            assert!(rt; false);
            return;
        };
        assert!(rt; has(&loaded.flash, 0, &catalog_bytes(head, CLINIC, &[3, 2, 4])));
        for (page, front) in FILES_HAVE {
            assert!(rt;
                has(&loaded.flash, first.saturating_add(page), front),
                "page {page} from {first} on"
            );
        }
        assert!(rt; blank_pages(&loaded.flash, first) == blank);
        assert!(rt; loaded.flash.script.calls == calls);
    }
}

/// The gate names one of two headers, by whether the generation is odd, and that one has the generation and no row.
#[test]
fn a_fresh_device_has_its_gate_and_one_header(rt: HostRuntime) {
    for (generation, head, gate, header, other) in [
        (1u32, HEAD, b"\x01".as_slice(), 192u32, 128u32),
        (6, b"GHOSTDB\x02\0\0\0\x06", b"\0", 128, 192),
    ] {
        let Some(loaded) = load(rt.alloc(), Version::Two, generation) else {
            assert!(rt; false);
            return;
        };
        let flash = &loaded.flash;
        let front = [0, 0, 0, generation as u8, 0, 0, 0, 0];
        assert!(rt; has(flash, 0, &catalog_bytes(head, CLINIC, &[3, 2, 4])));
        assert!(rt; has(flash, 64, gate) && has(flash, header, &front) && has(flash, other, b""));
    }
}

/// The public pages of a device of version 1 spell a catalog, and it is not of the version that is made.
#[test]
fn a_device_of_version_1_is_told_by_its_catalog(rt: HostRuntime) {
    for (version, current) in [(Version::Two, true), (Version::One, false)] {
        let loaded = load(rt.alloc(), version, 1).expect(&rt, "the clinic");
        let page = loaded.flash.page(0).expect(&rt, "page 0");
        let cat = read_catalog(page).expect(&rt, "its catalog");
        assert!(rt; cat.is_current() == current && loaded.cat.is_current() == current);
    }
}

/// The file of a column, where it is hidden and the device has the catalog's pages.
fn file_on(flash: &MemFlash, cat: &Catalog, table: usize, column: usize) -> Option<ColumnFile>
    ensures readable { IfSome result (IsReadable (⟦<MemFlash as Flash>⟧.state flash.now)) }
{
    if !is_hidden(cat, table, column) || need(cat) > flash.pages() {
        return None;
    }
    Some(ColumnFile::of(cat, table, column))
}

/// The value of a column in a row, where there is such a row and column.
pub(crate) fn value(
    loaded: &mut Loaded,
    table: usize,
    column: usize,
    identifier: u32,
) -> Option<Result<Value, PageFault>> {
    let file = file_on(&loaded.flash, &loaded.cat, table, column)?;
    if identifier == 0 || identifier > file.run.count {
        return None;
    }
    let lease = loaded.pool.lease()?;
    let value = file.get(&mut loaded.flash, &mut loaded.pool, &lease, identifier);
    loaded.pool.give(lease);
    Some(value)
}

/// Whether a value is spelled so.
fn is_spelled(value: &Value, word: &str) -> bool {
    match value {
        Value::Null => word == "NULL",
        Value::Int(number) => word.parse::<i64>().is_ok_and(|read| read == *number),
        Value::Chars(text) => text.as_bytes() == word.as_bytes(),
    }
}

/// Whether the rows of a table have the values of these words in a column, one after another.
fn has_values(loaded: &mut Loaded, table: usize, column: usize, words: &str) -> bool {
    let mut identifier = 0u32;
    for word in words.split(' ') {
        identifier = identifier.saturating_add(1);
        match value(loaded, table, column, identifier) {
            Some(Ok(found)) if is_spelled(&found, word) => {}
            _ => return false,
        }
    }
    true
}

#[test]
fn each_slot_has_the_value_of_its_row(rt: HostRuntime) {
    for version in [Version::Two, Version::One] {
        let Some(mut loaded) = load(rt.alloc(), version, 1) else {
            assert!(rt; false);
            return;
        };
        for (table, column, words) in [
            (0usize, 2usize, "FR ES ES"),
            (1, 2, "Ann Bob"),
            (2, 2, "flu check flu flu"),
            (2, 3, "1 3 3 2"),
            (2, 4, "1 2 1 2"),
        ] {
            assert!(rt; has_values(&mut loaded, table, column, words), "{words}");
        }
    }
}

/// The hidden part that is read back from a device, where it has the catalog's static part.
fn read_back(alloc: Global, loaded: &mut Loaded) -> Option<Result<Hidden, ReadFault>> {
    if Layout::of(&loaded.cat).static_end() > loaded.flash.pages() {
        return None;
    }
    let lease = loaded.pool.lease()?;
    let read = read_hidden(
        alloc,
        &loaded.cat,
        &mut loaded.flash,
        &mut loaded.pool,
        &lease,
    );
    loaded.pool.give(lease);
    Some(read)
}

/// Whether the rows of a table have the values of these words in a hidden column, one after another, and no more.
fn are_hidden(hidden: &Hidden, table: usize, column: usize, words: &str) -> bool {
    let mut identifier = 0u32;
    for word in words.split(' ') {
        identifier = identifier.saturating_add(1);
        match hidden.value(table, identifier, column) {
            Some(found) if is_spelled(&found, word) => {}
            _ => return false,
        }
    }
    hidden.rows(table) == identifier
}

/// Five column files have a page each, and no other page is read.
#[test]
fn the_hidden_part_is_read_back(rt: HostRuntime) {
    for version in [Version::Two, Version::One] {
        let mut loaded = load(rt.alloc(), version, 1).expect(&rt, "the clinic");
        let calls = loaded.flash.script.calls;
        let Some(Ok(hidden)) = read_back(rt.alloc(), &mut loaded) else {
            assert!(rt; false);
            return;
        };
        assert!(rt; loaded.flash.script.calls == calls.saturating_add(5));
        for (table, column, words) in [
            (0usize, 0usize, "FR ES ES"),
            (1, 0, "Ann Bob"),
            (2, 0, "flu check flu flu"),
            (2, 1, "1 3 3 2"),
            (2, 2, "1 2 1 2"),
        ] {
            assert!(rt; are_hidden(&hidden, table, column, words), "{words}");
        }
    }
}

/// The first slot of the first file is told where all files are blank.
#[test]
fn what_is_not_read_back_is_told(rt: HostRuntime) {
    let mut loaded = load(rt.alloc(), Version::Two, 1).expect(&rt, "the clinic");
    if loaded.flash.pages() > 256 {
        assert!(rt; loaded.flash.erase_block(4).is_ok());
    }
    assert!(rt;
        matches!(
            read_back(rt.alloc(), &mut loaded),
            Some(Err(ReadFault::Damaged {
                page: 256,
                slot: 0,
                found: 0xFFFF_0000_0000_0000
            }))
        )
    );
}
