//! The bytes of catalogs.

use crate::clinic::{SCHEMA, catalog_bytes};
use std::alloc::{AllocError, Global};
use std::test::Fail;
use tree_schema::{Catalog, catalog_len, catalog_part, is_catalog_part, read_catalog};

/// What stands in front of the text's length in a catalog of generation 1.
const FIRST: &[u8; 12] = b"GHOSTDB\x02\0\0\0\x01";

/// The same at version 1.
const OLDER: &[u8; 12] = b"GHOSTDB\x01\0\0\0\x01";

#[test]
fn the_clinic_has_its_bytes(rt: HostRuntime) -> Result<(), Fail> {
    let bytes = catalog_bytes(rt.alloc(), FIRST, SCHEMA, &[3, 2, 4])?;
    let cat = read_catalog(&bytes).ok_or("no catalog")?;
    assert!(rt; bytes.len() == 365 && catalog_len(&cat) == 365 && cat.generation() == 1);
    assert!(rt; cat.schema().tables() == 3 && cat.rows(2) == Some(4) && cat.rows(3) == None);
    let mut page = [0xEE; 400];
    let count = catalog_part(&cat, 0, &mut page);
    assert!(rt; page.get(..count) == Some(bytes.as_slice()));
    let count = catalog_part(&cat, 360, &mut page);
    assert!(rt; count == 5 && page.get(..5) == bytes.get(360..));
    for (at, part, held) in [
        (0, bytes.as_slice(), true),
        (16, SCHEMA.as_bytes(), true),
        (0, SCHEMA.as_bytes(), false),
        (364, &[4], true),
        (364, &[5], false),
        (364, &[4, 0], false),
        (365, &[], true),
    ] {
        assert!(rt;
            is_catalog_part(&cat, at, part) == held,
            "{part:?} from {at} on"
        );
    }
    Ok(())
}

#[test]
fn a_catalog_has_the_version_that_its_bytes_tell(rt: HostRuntime) -> Result<(), Fail> {
    for (head, number, current) in [(FIRST, 2u8, true), (OLDER, 1, false)] {
        let bytes = catalog_bytes(rt.alloc(), head, SCHEMA, &[3, 2, 4])?;
        let cat = read_catalog(&bytes).ok_or("no catalog")?;
        assert!(rt; cat.version().number() == number && cat.is_current() == current);
        let mut page = [0xEE; 400];
        let count = catalog_part(&cat, 0, &mut page);
        assert!(rt; page.get(..count) == Some(bytes.as_slice()), "{number}");
    }
    Ok(())
}

/// A canonical text of one table.
const NOTE: &str =
    "CREATE TABLE note (id INTEGER PRIMARY KEY, topic CHAR(4), body CHAR(8) HIDDEN);\n";

/// Whether bytes begin with a catalog of just these bytes, whose one table has so many rows. What stands behind them is
/// left alone, and with one byte less there is none.
fn begin_with_one(alloc: Global, head: &[u8], text: &str, count: u32) -> Result<bool, AllocError> {
    let mut bytes = catalog_bytes(alloc, head, text, &[count])?;
    let whole = bytes.len();
    let cut = read_catalog(bytes.get(..whole.saturating_sub(1)).unwrap_or(&[])).is_some();
    bytes.extend_from_slice(b"more")?;
    match read_catalog(&bytes) {
        None => Ok(false),
        Some(cat) => Ok(!cut && catalog_len(&cat) as usize == whole && cat.rows(0) == Some(count)),
    }
}

#[test]
fn bytes_begin_with_a_catalog_or_with_none(rt: HostRuntime) -> Result<(), Fail> {
    for (head, text, count, begins) in [
        (FIRST, NOTE, 0, true),
        (b"GHOSTDB\x02\xFF\xFF\xFF\xFF", NOTE, 1_000_000, true),
        (OLDER, NOTE, 1, true),
        (FIRST, NOTE, 1_000_001, false),
        (b"HHOSTDB\x02\0\0\0\x01", NOTE, 1, false),
        (b"GHOSTDB\x03\0\0\0\x01", NOTE, 1, false),
        (b"GHOSTDB\0\0\0\0\x01", NOTE, 1, false),
        (b"GHOSTDB\x02\0\0\0\0", NOTE, 1, false),
        (FIRST, "CREATE TABLE t (id INTEGER PRIMARY KEY);\n", 1, true),
        (
            FIRST,
            "CREATE  TABLE t (id INTEGER PRIMARY KEY);\n",
            1,
            false,
        ),
        (
            FIRST,
            "CREATE TABLE T (id INTEGER PRIMARY KEY);\n",
            1,
            false,
        ),
        (FIRST, "CREATE TABLE t (id INT PRIMARY KEY);\n", 1, false),
        (FIRST, "CREATE TABLE t (id INTEGER PRIMARY KEY);", 1, false),
        (FIRST, "CREATE TABLE t (id INTEGER PRIMARY KEY)", 1, false),
        (FIRST, "", 1, false),
    ] {
        let found = begin_with_one(rt.alloc(), head, text, count)?;
        assert!(rt; found == begins, "{head:?} {text} {count}");
    }
    Ok(())
}
