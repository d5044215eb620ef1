//! Directories and level files byte by byte: where lists begin, and the codes of their identifiers.

use crate::device::load;
use crate::ids::ids_between;
use edge_traits::mem_flash::MemFlash;
use std::alloc::{AllocError, Global};
use std::fmt::Write;

/// A leaf below a top table.
const LEAF: &str =
    "CREATE TABLE leaf (id INTEGER PRIMARY KEY, tag INTEGER, mark INTEGER HIDDEN);\nCREATE TABLE top (id INTEGER PRIMARY KEY, num INTEGER, val INTEGER HIDDEN, lf INTEGER REFERENCES leaf(id) HIDDEN);\n";

/// The file of so many leaves, each with its own number as tag and as mark.
fn leaves(alloc: Global, count: u32) -> Result<String, AllocError> {
    let mut lines = String::from_str(alloc, "id,tag,mark\n")?;
    for row in 1..=count {
        write!(lines, "{row},{row},{row}\n")?;
    }
    Ok(lines)
}

/// The file of 12,000 tops: as val what is left of the number by 400, and the 50 leaves one after another, again and again.
fn many_tops(alloc: Global) -> Result<String, AllocError> {
    let mut lines = String::from_str(alloc, "id,num,val,lf\n")?;
    for row in 1..=12_000u32 {
        let val = row % 400;
        let leaf = (row - 1) % 50 + 1;
        write!(lines, "{row},{row},{val},{leaf}\n")?;
    }
    Ok(lines)
}

/// The file of so many tops: those up to `most` have the first leaf, another one the second, and all others the third.
fn three_lists(alloc: Global, count: u32, most: u32, second: u32) -> Result<String, AllocError> {
    let mut lines = String::from_str(alloc, "id,num,val,lf\n")?;
    for row in 1..=count {
        let leaf = if row <= most {
            1u32
        } else if row == second {
            2
        } else {
            3
        };
        write!(lines, "{row},{row},0,{leaf}\n")?;
    }
    Ok(lines)
}

/// Whether a page has these two bytes from a place on, again and again up to another place.
fn repeats(flash: &MemFlash, page: u32, places: (usize, usize), pair: (u8, u8)) -> bool {
    let Some(bytes) = flash.page(page) else {
        return false;
    };
    let Some(part) = bytes.get(places.0..places.1) else {
        return false;
    };
    let mut odd = false;
    for byte in part {
        if *byte != (if odd { pair.1 } else { pair.0 }) {
            return false;
        }
        odd = !odd;
    }
    true
}

/// Whether a page has these bytes at a place.
fn stands(flash: &MemFlash, page: u32, at: usize, wanted: &[u8]) -> bool {
    match flash.page(page) {
        Some(bytes) => bytes.get(at..).unwrap_or(&[]).starts_with(wanted),
        None => false,
    }
}

/// Values 0 to 399 have 30 rows each: the codes of value 0 are 400 again and again, two bytes each, and those of another value
/// are its number, and 400 again and again.
#[test]
fn the_index_of_the_remainders_has_its_codes(rt: HostRuntime) -> Result<(), AllocError> {
    let (leaves, tops) = (leaves(rt.alloc(), 50)?, many_tops(rt.alloc())?);
    let Some(loaded) = load(rt.alloc(), LEAF, &[leaves.as_str(), tops.as_str()]) else {
        assert!(rt; false);
        return Ok(());
    };
    let flash = &loaded.flash;
    assert!(rt; stands(flash, 427, 0, b"\0\0\x01\x90"));
    assert!(rt; stands(flash, 428, 0, b"\x80\0\0\0\0\0\0\0\0\0\0\0\0\0\0\x1E"));
    assert!(rt;
        stands(
            flash,
            428,
            112,
            b"\x80\0\0\0\0\0\0\x07\0\0\x01\x9E\0\0\0\x1E"
        )
    );
    assert!(rt; repeats(flash, 522, (0, 60), (0x83, 0x10)));
    assert!(rt; stands(flash, 522, 60, b"\x01\x83\x10"));
    assert!(rt; stands(flash, 522, 414, b"\x07") && repeats(flash, 522, (415, 473), (0x83, 0x10)));
    assert!(rt; stands(flash, 522, 473, b"\x08\x83\x10"));
    Ok(())
}

/// Three lists: how many tops there are, how many of them have the first leaf, and which one the second; the places of the lists in
/// the directory of the leaves' identifiers; what stands behind the first list's codes up to the end of the page, and on the next
/// page; and what is read of the second and third.
type Lists<'a> = (u32, u32, u32, &'a [u8], (u8, u8), &'a [u8], &'a str);

/// A code of two bytes where one is left, one of three bytes where two are left, and one of two bytes where two are left.
const LISTS: [Lists<'static>; 3] = [
    (
        2048,
        2047,
        0,
        b"\0\0\0\0\0\0\x07\xFF\0\0\x07\xFF\0\0\0\0\0\0\x08\0\0\0\0\x01\xFF",
        (0x80, 0x80),
        b"\x90\0\xFF",
        "#1/#2/ 2048",
    ),
    (
        20_000,
        2046,
        20_000,
        b"\0\0\0\0\0\0\x07\xFE\0\0\x08\0\0\0\0\x01\0\0\x08\x03\0\0\x46\x21\xFF",
        (0x80, 0x80),
        b"\x81\x9C\x20\x8F\x7F\x01",
        "#1/ 20000",
    ),
    (
        2048,
        2046,
        2047,
        b"\0\0\0\0\0\0\x07\xFE\0\0\x07\xFE\0\0\0\x01\0\0\x08\0\0\0\0\x01\xFF",
        (0x8F, 0x7F),
        b"\x90\0\xFF",
        "#1/ 2047#2/ 2048",
    ),
];

#[test]
fn a_code_for_which_a_page_is_too_short_begins_the_next(rt: HostRuntime) -> Result<(), AllocError> {
    for (count, most, second, directory, end, next, line) in LISTS {
        let leaves = leaves(rt.alloc(), 3)?;
        let tops = three_lists(rt.alloc(), count, most, second)?;
        let Some(mut loaded) = load(rt.alloc(), LEAF, &[leaves.as_str(), tops.as_str()]) else {
            assert!(rt; false);
            return Ok(());
        };
        let at = if count == 2048 { 264u32 } else { 300 };
        let flash = &loaded.flash;
        assert!(rt; stands(flash, at, 0, directory), "{most}");
        assert!(rt;
            repeats(flash, at.saturating_add(1), (0, most as usize), (1, 1)),
            "{most}"
        );
        assert!(rt;
            repeats(flash, at.saturating_add(1), (most as usize, 2048), end),
            "{most}"
        );
        assert!(rt; stands(flash, at.saturating_add(2), 0, next), "{most}");
        let high = if count == 2048 { "[3" } else { "[2" };
        let found = ids_between(rt.alloc(), &mut loaded, 0, "[2", high);
        assert_eq!(rt; found.as_str(), line);
    }
    Ok(())
}
