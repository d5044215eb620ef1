//! The lists that are drawn.

use merge_tests::reductions::Lists;
use merge_tests::rows::Numbers;
use std::alloc::{AllocError, Global};

/// The rows.
pub const ROWS: u32 = 1_900_000;

/// How many numbers fill 256 pages. The lists lie behind so many, so that each read is one of page 256 or a later one, which a flash
/// in memory counts.
pub const BEFORE: u32 = 256 * 512;

/// The widest step between identifiers of a list of so many, so that it spreads over the rows.
fn step_of(count: u32) -> u32 {
    ROWS / 10 * 18 / count.max(1)
}

/// Draws lists of as many identifiers each, in all so many.
pub fn drawn(alloc: Global, lists: u32, ids: u32) -> Result<Lists, AllocError> {
    let mut drawn = Lists::none(alloc, ROWS)?;
    let each = ids / lists.max(1);
    let mut numbers = Numbers::seeded(1);
    for _at in 0..lists {
        drawn.draw(&mut numbers, each, step_of(each), ROWS)?;
    }
    Ok(drawn)
}

/// Numbers, behind those that fill 256 pages.
pub fn behind(alloc: Global, numbers: &[u32]) -> Result<Vec<u32>, AllocError> {
    let mut all = Vec::new(alloc);
    for _at in 0..BEFORE {
        push(&mut all, 0)?;
    }
    for number in numbers {
        push(&mut all, *number)?;
    }
    Ok(all)
}

/// Adds a number.
fn push(all: &mut Vec<u32>, number: u32) -> Result<(), AllocError> {
    match all.push(number) {
        Ok(()) => Ok(()),
        Err(_) => Err(AllocError),
    }
}
