//! Where the files and areas of worked catalogs lie.

ghost use Rattle.std.specs.Prelude.{◌≡◌, ◌<◌, length, true};
ghost use Rattle.ghost_model.specs.forms.Layout as layout;

use arrayvec::ArrayVec;
use flash_layout::{Layout, column_file, is_hidden, need, pages, public_pages, scratch_count};
use ghost_base::Kind;
use ghost_base::runs::Run;
use std::alloc::{AllocError, Global};
use tree_schema::{Catalog, read_catalog};

/// The canonical text of visits of patients to doctors.
pub(crate) const CLINIC: &str =
    "CREATE TABLE doctor (id INTEGER PRIMARY KEY, specialty CHAR(8), country CHAR(2) HIDDEN);\nCREATE TABLE patient (id INTEGER PRIMARY KEY, age INTEGER, name CHAR(8) HIDDEN);\nCREATE TABLE visit (id INTEGER PRIMARY KEY, day INTEGER, purpose CHAR(8) HIDDEN, doc INTEGER REFERENCES doctor(id) HIDDEN, pat INTEGER REFERENCES patient(id) HIDDEN);\n";

/// That of a leaf below a top table.
const LEAF: &str =
    "CREATE TABLE leaf (id INTEGER PRIMARY KEY, tag INTEGER, mark INTEGER HIDDEN);\nCREATE TABLE top (id INTEGER PRIMARY KEY, num INTEGER, val INTEGER HIDDEN, lf INTEGER REFERENCES leaf(id) HIDDEN);\n";

/// That of one table.
const NOTE: &str =
    "CREATE TABLE note (id INTEGER PRIMARY KEY, topic CHAR(4), body CHAR(8) HIDDEN);\n";

/// That of a table without a visible column.
const SECRET: &str = "CREATE TABLE secret (id INTEGER PRIMARY KEY, value INTEGER HIDDEN);\n";

/// What stands in front of the text's length in a catalog of generation 1: of version 2, and of version 1.
pub(crate) const HEAD: &[u8] = b"GHOSTDB\x02\0\0\0\x01";

pub(crate) const OLDER_HEAD: &[u8] = b"GHOSTDB\x01\0\0\0\x01";

/// How many records the files of the clinic have, and of how many bytes, page after page behind the public ones. A level file has
/// the bytes of its room.
const CLINIC_FILES: &str =
    "3x2 1x4 3x18 2048x1 2048x1 3x8 2048x1 2x8 1x4 2x24 2048x1 2048x1 2x8 2048x1 4x8 4x8 4x8 4x8 1x4 4x16 2048x1 1x4 4x16 2048x1 1x4 4x16 2048x1";

/// How many records the areas of the clinic have, and of how many bytes, block after block: those of the spool, of scratch, and of
/// appended rows. At version 1 there is room for the rows at hand alone.
const CLINIC_AREAS: &str =
    "3x12 2x12 4100x12 3x12 2x12 4100x12 4100x4 4100x4 4100x4 4100x4 4100x4 4100x4 4100x4 4100x4 4096x32 4096x32";

const OLDER_AREAS: &str = "3x12 2x12 4x12 3x12 2x12 4x12 4x4 4x4 4x4 4x4 4x4 4x4";

/// Some files: the first page of each, how many records it has, and of how many bytes.
type Files = ArrayVec<(u32, u32, u32), 40>;

/// Puts a file behind others.
fn put(found: &mut Files, run: Run) {
    let _ = found.try_push((run.first, run.count, run.width));
}

/// The bytes of the catalog of a canonical text and so many rows for each table, behind these.
pub(crate) fn catalog_bytes(head: &[u8], text: &str, counts: &[u32]) -> ArrayVec<u8, 600> {
    let mut bytes: ArrayVec<u8, 600> = ArrayVec::new();
    let _ = bytes.try_extend_from_slice(head);
    let _ = bytes.try_extend_from_slice(&u32::try_from(text.len()).unwrap_or(0).to_be_bytes());
    let _ = bytes.try_extend_from_slice(text.as_bytes());
    for count in counts {
        let _ = bytes.try_extend_from_slice(&count.to_be_bytes());
    }
    bytes
}

/// The column files of a table.
fn put_columns(lain: &Layout<'_>, table: usize, found: &mut Files) {
    let cat = lain.catalog();
    for column in 0..cat.schema().columns(table) {
        if is_hidden(cat, table, column) {
            put(found, lain.column_file(table, column));
        }
    }
}

/// The files of an index.
fn put_index(lain: &Layout<'_>, table: usize, column: usize, found: &mut Files)
    requires there { table < length lain.now.schema }
    requires hidden { layout.is_hidden lain.now.schema table column ≡ true }
{
    put(found, lain.index_header(table, column));
    put(found, lain.index_directory(table, column));
    for level in 0..lain.levels(table).len() {
        put(found, lain.index_level(table, column, level));
    }
}

/// The files of the indexes of a table.
fn put_indexes(lain: &Layout<'_>, table: usize, found: &mut Files)
    requires there { table < length lain.now.schema }
{
    let cat = lain.catalog();
    for column in 0..cat.schema().columns(table) {
        if is_hidden(cat, table, column) {
            put_index(lain, table, column, found);
        }
    }
}

/// The files of the id index of a table.
fn put_id_index(lain: &Layout<'_>, table: usize, found: &mut Files)
    requires there { table < length lain.now.schema }
{
    let above = lain.above(table).len();
    if above > 0 {
        put(found, lain.id_directory(table));
    }
    for level in 0..above {
        put(found, lain.id_level(table, level));
    }
}

/// All files, in order.
fn files_of(lain: &Layout<'_>) -> Files {
    let mut found = ArrayVec::new();
    for table in 0..lain.catalog().schema().tables() {
        put_columns(lain, table, &mut found);
        if !lain.below(table).is_empty() {
            put(&mut found, lain.subtree_table(table));
        }
        put_indexes(lain, table, &mut found);
        put_id_index(lain, table, &mut found);
    }
    found
}

/// The areas of both halves of the spool, of scratch, and of appended rows where there are some.
fn areas_of(lain: &Layout<'_>) -> Files {
    let mut found = ArrayVec::new();
    for half in 0..2 {
        for table in 0..lain.catalog().schema().tables() {
            put(&mut found, lain.spool_area(half, table));
        }
    }
    for area in 0..scratch_count(lain.catalog()) {
        put(&mut found, lain.scratch_area(area));
    }
    if lain.appended_pages() > 0 {
        for which in 0..2 {
            put(&mut found, lain.appended_area(which));
        }
    }
    found
}

/// Whether files begin so many pages one behind another, each with so many records of so many bytes.
fn lie_so(
    alloc: Global,
    files: &Files,
    first: u32,
    step: u32,
    wanted: &str,
) -> Result<bool, AllocError> {
    let mut page = first;
    for (file, word) in files.iter().zip(wanted.split(' ')) {
        let told = format!(in alloc; "{}x{}", file.1, file.2)?;
        if file.0 != page || told.as_str() != word {
            return Ok(false);
        }
        page = page.saturating_add(step);
    }
    Ok(files.len() == wanted.split(' ').count())
}

#[test]
fn the_files_and_areas_of_the_clinic_lie_where_they_should(
    rt: HostRuntime,
) -> Result<(), AllocError> {
    for (head, first, behind, areas) in [
        (HEAD, 256u32, 320u32, CLINIC_AREAS),
        (OLDER_HEAD, 64, 128, OLDER_AREAS),
    ] {
        let Some(cat) = read_catalog(&catalog_bytes(head, CLINIC, &[3, 2, 4])) else {
            assert!(rt; false);
            return Ok(());
        };
        let lain = Layout::of(&cat);
        assert!(rt; public_pages(&cat) == first);
        assert!(rt; lie_so(rt.alloc(), &files_of(&lain), first, 1, CLINIC_FILES)?);
        assert!(rt; lie_so(rt.alloc(), &areas_of(&lain), behind, 64, areas)?);
    }
    Ok(())
}

#[test]
fn a_layout_tells_what_readers_ask(rt: HostRuntime) {
    let Some(cat) = read_catalog(&catalog_bytes(HEAD, CLINIC, &[3, 2, 4])) else {
        assert!(rt; false);
        return;
    };
    let lain = Layout::of(&cat);
    for (table, rows, levels, above, below) in [
        (
            0,
            3u32,
            [0usize, 2].as_slice(),
            [2usize].as_slice(),
            [].as_slice(),
        ),
        (1, 2, &[1, 2], &[2], &[]),
        (2, 4, &[2], &[], &[0, 1]),
    ] {
        assert!(rt; lain.rows(table) == rows, "rows of {table}");
        if table < cat.schema().tables() {
            let more = if table == 2 { 4096 } else { 0 };
            assert!(rt;
                lain.room(table) == rows.saturating_add(more),
                "room of {table}"
            );
            assert!(rt; lain.levels(table) == levels, "levels of {table}");
            assert!(rt; lain.above(table) == above, "above {table}");
            assert!(rt; lain.below(table) == below, "below {table}");
        }
    }
    assert!(rt; lain.width(0, 2) == 2 && matches!(lain.kind(0, 2), Some(Kind::Chars(2))));
    assert!(rt; lain.width(2, 3) == 8 && matches!(lain.kind(2, 3), Some(Kind::Integer)));
    assert!(rt; lain.width(2, 9) == 0 && lain.kind(2, 9).is_none());
    if is_hidden(&cat, 2, 2) {
        let own = column_file(&cat, 2, 2);
        assert!(rt; own.first == lain.column_file(2, 2).first && own.width == 8);
    }
}

#[test]
fn the_schema_tells_its_foreign_keys(rt: HostRuntime) {
    let Some(cat) = read_catalog(&catalog_bytes(HEAD, CLINIC, &[3, 2, 4])) else {
        assert!(rt; false);
        return;
    };
    let schema = cat.schema();
    assert!(rt; schema.reference(2, 0) == Some(3) && schema.reference(2, 1) == Some(4));
    assert!(rt; schema.reference(0, 2).is_none() && schema.reference(7, 0).is_none());
    assert!(rt; schema.child(2, 3) == Some(0) && schema.child(2, 4) == Some(1));
    assert!(rt; schema.child(2, 2).is_none() && schema.child(0, 9).is_none());
}

#[test]
fn a_device_has_whole_blocks(rt: HostRuntime) {
    for (head, text, counts, end, most) in [
        (HEAD, CLINIC, [3u32, 2, 4].as_slice(), 320u32, 1344u32),
        (HEAD, LEAF, &[50, 12_000], 704, 1728),
        (HEAD, LEAF, &[41_000, 100], 1216, 3008),
        (HEAD, NOTE, &[4], 320, 1088),
        (HEAD, SECRET, &[1], 320, 960),
        (HEAD, SECRET, &[0], 320, 960),
        (HEAD, SECRET, &[1_000_000], 13_952, 29_952),
        (OLDER_HEAD, CLINIC, &[3, 2, 4], 128, 896),
        (OLDER_HEAD, LEAF, &[50, 12_000], 512, 1280),
        (OLDER_HEAD, LEAF, &[41_000, 100], 1024, 2432),
        (OLDER_HEAD, SECRET, &[1], 128, 512),
        (OLDER_HEAD, SECRET, &[1_000_000], 13_760, 25_664),
    ] {
        match read_catalog(&catalog_bytes(head, text, counts)) {
            None => assert!(rt; false),
            Some(cat) => {
                let lain = Layout::of(&cat);
                assert!(rt; lain.static_end() == end && lain.need() == most, "{end}");
                assert!(rt; need(&cat) == most, "{end}");
            }
        }
    }
}

#[test]
fn pages_take_whole_records(rt: HostRuntime) {
    let counts = [0u32, 512, 513, 3, 2, 1, 1_000_000, 1_004_096];
    let widths = [4u32, 4, 4, 1564, 1024, 2048, 4, 4];
    let wanted = [0u32, 1, 2, 3, 1, 1, 1954, 1962];
    for at in 0..8 {
        let (count, width) = (counts[at], widths[at]);
        let fits = 0 < width && width <= 2048 && count <= 1_004_096;
        assert!(rt; fits && pages(count, width) == wanted[at], "row {at}");
    }
}
