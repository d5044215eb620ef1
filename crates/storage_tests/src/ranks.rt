//! The ranks of a column's rows, and the lists of an index at the table itself and at the one above it.

use index_lists::{
    Numbers, list_starts, order_numbers, places_referred, rank_column, rank_numbers, ranks_above,
    rows_by_rank,
};
use std::alloc::{AllocError, Global};

/// The integers of a column of four rows.
const COLUMN: [i64; 4] = [3, -1, 3, 2];

/// The foreign keys of three rows to those four.
const KEYS: [i64; 3] = [4, 1, 1];

#[test]
fn rows_rank_by_their_integers(rt: HostRuntime) -> Result<(), AllocError> {
    let numbers = Numbers { numbers: &COLUMN };
    for ranking in [
        rank_numbers(rt.alloc(), &COLUMN)?,
        rank_column(rt.alloc(), &numbers)?,
    ] {
        assert_eq!(rt; ranking.ranks.as_slice(), [2, 0, 2, 1].as_slice());
        assert_eq!(rt; ranking.shown.len(), 3);
        assert_eq!(rt; &ranking.shown[..2], [1, 3].as_slice());
    }
    Ok(())
}

#[test]
fn lists_stand_by_rank_and_ascend(rt: HostRuntime) -> Result<(), AllocError> {
    let ranks = [2, 0, 2, 1];
    let rows = rows_by_rank(rt.alloc(), &ranks, 3)?;
    assert_eq!(rt; rows.as_slice(), [1, 3, 0, 2].as_slice());
    let keys = order_numbers(rt.alloc(), &KEYS)?;
    assert_eq!(rt; keys.as_slice(), [1, 2, 0].as_slice());
    let starts = list_starts(rt.alloc(), &ranks, 3)?;
    assert_eq!(rt; starts.as_slice(), [0, 1, 2, 4].as_slice());
    Ok(())
}

#[test]
fn rows_above_have_the_ranks_that_their_keys_name(rt: HostRuntime) -> Result<(), AllocError> {
    let above = ranks_above(rt.alloc(), &[2, 0, 2, 1], &KEYS)?;
    assert_eq!(rt; above.as_slice(), [1, 2, 2].as_slice());
    let places = places_referred(rt.alloc(), 4, &KEYS)?;
    assert_eq!(rt; places.as_slice(), [3, 0, 0].as_slice());
    Ok(())
}
