//! Damaged slots: the reader whose slot it is tells it, and the others give what they gave.

use crate::device::{Loaded, load};
use crate::found::found;
use crate::ids::ids_between;
use crate::lines::{Line, put, put_number};
use crate::rows::{cells_of, rows_below};
use crate::shapes::{THREE, THREE_FILES};
use edge_traits::mem_flash::MemFlash;
use std::alloc::Global;

/// A byte of a page that is written over: the page, its place there, and the byte; and the reader that meets it, by its
/// number, with the line that it gives.
type Damage<'a> = (u32, usize, u8, usize, &'a str);

/// What the readers give where nothing is damaged.
const WHOLE: [&str; 10] = [
    " A B A C",
    "#0/ 1 3/ 2 3 4/ 1 2 4 5#1/ 2/ 1/ 3#2/ 4//",
    "#0/ 2 4/ 1 4 5#1/ 1/ 3#2/ 3/ 2#3//",
    " 2 1 3 1",
    "# 2# 1# 3# 1",
    "#0/ 2 4/ 1 4 5#1/ 1/ 3#2/ 3/ 2",
    "#0/ 3#1/ 5#2/ 2#3/ 1 4",
    " 4 3 1 4 2",
    "# 1 4# 3 3# 2 1# 1 4# 1 2",
    "#0/ 3#1/ 5#2/ 2#3/ 1 4",
];

/// What a reader gives, by its number: those of the first table, of the second, and of the third.
fn told(alloc: Global, loaded: &mut Loaded, reader: usize) -> Line {
    match reader {
        0 => cells_of(alloc, loaded, (0, 2)),
        1 => found(alloc, loaded, (0, 2), "-", "-"),
        2 => ids_between(alloc, loaded, 0, "-", "-"),
        3 => cells_of(alloc, loaded, (1, 2)),
        4 => rows_below(alloc, loaded, 1),
        5 => found(alloc, loaded, (1, 2), "-", "-"),
        6 => ids_between(alloc, loaded, 1, "-", "-"),
        7 => cells_of(alloc, loaded, (2, 2)),
        8 => rows_below(alloc, loaded, 2),
        _ => found(alloc, loaded, (2, 2), "-", "-"),
    }
}

/// The first reader whose line is another one than it should be, and that line, where that of one reader should be `line`.
fn other_told(alloc: Global, loaded: &mut Loaded, hit: usize, line: &str) -> Line {
    let mut other = Line::new();
    for (reader, whole) in WHOLE.iter().enumerate() {
        let given = told(alloc, loaded, reader);
        let wanted = if reader == hit { line } else { *whole };
        if given.as_str() != wanted {
            put_number(&mut other, reader as u64);
            put(&mut other, ":");
            put(&mut other, given.as_str());
            return other;
        }
    }
    other
}

/// Writes over a byte of a page, and answers the one that stood there.
fn swap(flash: &mut MemFlash, page: u32, at: usize, byte: u8) -> u8 {
    let Some(found) = flash.page(page) else {
        return byte;
    };
    let mut bytes = *found;
    if at >= 2048 {
        return byte;
    }
    let old = bytes[at];
    bytes[at] = byte;
    flash.put_page(page, &bytes);
    old
}

/// The first line that is another one than it should be, over all damages, each of them alone.
fn other_of(alloc: Global, cases: &[Damage<'_>]) -> Line {
    let mut other = Line::new();
    let Some(mut loaded) = load(alloc, THREE, &THREE_FILES) else {
        put(&mut other, "not loaded");
        return other;
    };
    for (page, at, byte, reader, line) in cases {
        let old = swap(&mut loaded.flash, *page, *at, *byte);
        other = other_told(alloc, &mut loaded, *reader, line);
        if !other.is_empty() {
            return other;
        }
        swap(&mut loaded.flash, *page, *at, old);
    }
    other
}

#[test]
fn damaged_slots_of_rows_are_told(rt: HostRuntime) {
    let cases = [
        (256u32, 0usize, b'A', 0usize, " A B A C"),
        (256, 16, 1u8, 0, " A B!256.2=72057594037927936 C"),
        (265, 31, 5, 3, " 2 1 3!265.3=9223372036854775813"),
        (266, 3, 5, 4, "#!266.0=21474836480# 1# 3# 1"),
        (273, 7, 0, 7, "!273.0=9223372036854775808 3 1 4 2"),
        (274, 39, 0, 8, "# 1 4# 3 3# 2 1# 1 4#!274.4=4294967296"),
    ];
    let line = other_of(rt.alloc(), &cases);
    assert_eq!(rt; line.as_str(), "");
}

#[test]
fn damaged_slots_of_a_climbing_index_are_told(rt: HostRuntime) {
    let cases = [
        (257u32, 0usize, 1u8, 1usize, "!257.0=72057606922829824"),
        (267, 3, 0, 5, "!267.0=0"),
        (
            258,
            32,
            1,
            1,
            "#0/ 1 3/ 2 3 4/ 1 2 4 5#1/!258.1=72057594037927936",
        ),
        (
            258,
            88,
            1,
            1,
            "#0/ 1 3/ 2 3 4/ 1 2 4 5#1/ 2/ 1/ 3#2/!258.2=4827858800541171712",
        ),
        (259, 0, 0, 1, "#0/!259.0=565170451513343"),
        (260, 1, 9, 1, "#0/ 1 3/ 2!260.1=648802020341317631"),
        (
            261,
            4,
            6,
            1,
            "#0/ 1 3/ 2 3 4/ 1 2 4 5#1/ 2/ 1/!261.4=504403158265495551",
        ),
        (277, 1, 6, 9, "#0/ 3#1/!277.1=432909630872485887"),
    ];
    let line = other_of(rt.alloc(), &cases);
    assert_eq!(rt; line.as_str(), "");
}

#[test]
fn damaged_slots_of_an_id_index_are_told(rt: HostRuntime) {
    let cases = [
        (
            262u32,
            52usize,
            1u8,
            2usize,
            "#0/ 2 4/ 1 4 5#1/ 1/ 3#2/ 3/ 2#3/!262.3=17196646400",
        ),
        (264, 0, 9, 2, "#0/ 2 4/!264.0=649363883718344703"),
        (271, 0, 1, 6, "#0/!271.0=72057594037927937"),
        (
            272,
            4,
            128,
            6,
            "#0/ 3#1/ 5#2/ 2#3/ 1!272.4=9295429630892703743",
        ),
    ];
    let line = other_of(rt.alloc(), &cases);
    assert_eq!(rt; line.as_str(), "");
}

/// The list of the third name stands at the last byte but one of its file, where it is whole, and then at the last one, which is
/// never the end of a code.
#[test]
fn a_list_that_runs_to_the_end_of_its_file_is_damaged(rt: HostRuntime) {
    let Some(mut loaded) = load(rt.alloc(), THREE, &THREE_FILES) else {
        assert!(rt; false);
        return;
    };
    let whole = "#0/ 1 3/ 2 3 4/ 1 2 4 5#1/ 2/ 1/ 3#2/ 4//";
    let broken = "#0/ 1 3/ 2 3 4/ 1 2 4 5#1/ 2/ 1/ 3#2/!259.2047=288230376151711744";
    for (low, at, wanted) in [(0xFEu8, 2046usize, whole), (0xFF, 2047, broken)] {
        swap(&mut loaded.flash, 258, 74, 7);
        swap(&mut loaded.flash, 258, 75, low);
        swap(&mut loaded.flash, 259, at, 4);
        let line = told(rt.alloc(), &mut loaded, 1);
        assert_eq!(rt; line.as_str(), wanted);
    }
}
