//! The public part of the clinic, as the host's file has it.

use crate::clinic::{Bytes, CATALOG, CELLS, add};
use crate::host_sessions::depot_of;
use csv_split::Public;
use edge_traits::mem_depot::{self, MemDepot};
use ghost_base::Value;
use host_exec::{ReadPublicFault, read_public};
use std::alloc::{AllocError, Global};
use tree_schema::read_catalog;

/// Whether a value is a number or a text that this word writes.
fn is_spelled(value: &Value, word: &str) -> bool {
    match value {
        Value::Int(number) => word.parse::<i64>() == Ok(*number),
        Value::Chars(text) => text.as_bytes() == word.as_bytes(),
        Value::Null => false,
    }
}

/// Whether the rows of a table have the values of these words in its visible column, one after another, and no more.
fn are_visible(public: &Public, table: usize, words: &str) -> bool {
    let Some(part) = public.part(table) else {
        return false;
    };
    let mut identifier = 0u32;
    for word in words.split(' ') {
        identifier = identifier.saturating_add(1);
        match part.value(identifier, 0) {
            Some(found) if is_spelled(&found, word) => {}
            _ => return false,
        }
    }
    part.rows() == identifier
}

#[test]
fn the_public_part_is_read_back(rt: HostRuntime) {
    let mut depot = depot_of(rt.alloc(), &[]).expect(&rt, "a depot");
    let cat = read_catalog(CATALOG).expect(&rt, "the catalog");
    let Ok(public) = read_public(rt.alloc(), &cat, &mut depot, "c") else {
        assert!(rt; false);
        return;
    };
    for (table, words) in [
        (0usize, "cardio neuro cardio"),
        (1, "30 41"),
        (2, "5 5 9 2"),
    ] {
        assert!(rt; are_visible(&public, table, words), "{words}");
    }
}

/// A depot whose file `c` is the host's file without its last byte.
fn short_file(alloc: Global) -> Result<MemDepot, AllocError> {
    let room = mem_depot::Room {
        files: 1,
        name_bytes: 1,
        file_bytes: 500,
    };
    let mut image = Bytes::new();
    add(&mut image, CATALOG);
    add(&mut image, CELLS);
    let _last = image.pop();
    let mut depot = MemDepot::new(alloc, room, &[])?;
    let _put = depot.put("c", &image);
    Ok(depot)
}

#[test]
fn what_is_no_public_part_is_told(rt: HostRuntime) {
    let cat = read_catalog(CATALOG).expect(&rt, "the catalog");
    let mut short = short_file(rt.alloc()).expect(&rt, "a depot");
    assert!(rt;
        matches!(
            read_public(rt.alloc(), &cat, &mut short, "c"),
            Err(ReadPublicFault::BadVisibleFile)
        )
    );
    assert!(rt;
        matches!(
            read_public(rt.alloc(), &cat, &mut short, "d"),
            Err(ReadPublicFault::Depot)
        )
    );
}
