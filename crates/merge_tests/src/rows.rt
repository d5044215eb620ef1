//! Rows from a seeded generator.

use std::alloc::{AllocError, Global};

/// A generator of numbers.
#[derive(Clone, Copy)]
pub struct Numbers {
    state: u64,
}

impl Numbers {
    /// The numbers of a seed.
    pub fn seeded(seed: u64) -> Numbers {
        Numbers { state: seed }
    }

    /// The next number, below `end`, or 0.
    pub fn below(&mut self, end: u32) -> u32 {
        self.state = self
            .state
            .wrapping_mul(6364136223846793005)
            .wrapping_add(1442695040888963407);
        let high = (self.state / 4294967296) as u32;
        high % end.max(1)
    }
}

/// Puts identifiers that ascend from 1 to `rows` behind others: so many, or as many as there are with steps of at most `step`.
/// It answers how many.
pub fn ascending(
    ids: &mut Vec<u32>,
    numbers: &mut Numbers,
    count: u32,
    step: u32,
    rows: u32,
) -> Result<u32, AllocError> {
    let mut id = 0u32;
    for i in 0..count {
        id = id.saturating_add(1).saturating_add(numbers.below(step));
        if id > rows {
            return Ok(i);
        }
        let Ok(()) = ids.push(id) else {
            return Err(AllocError);
        };
    }
    Ok(count)
}

/// A table of rows, in none of which anything is.
pub fn none_of(alloc: Global, rows: u32) -> Result<Vec<bool>, AllocError> {
    vec![in alloc; false; rows as usize + 1]
}

/// Notes identifiers in a table of rows.
pub fn note(rows: &mut [bool], ids: &[u32]) {
    for id in ids {
        if (*id as usize) < rows.len() {
            rows[*id as usize] = true;
        }
    }
}

/// Notes the identifiers of a range.
pub fn note_range(rows: &mut [bool], low: u32, high: u32) {
    for at in 0..rows.len() {
        if low as usize <= at && at <= high as usize {
            rows[at] = true;
        }
    }
}

/// Leaves only what another table has too.
pub fn retain(rows: &mut [bool], others: &[bool]) {
    for (row, other) in rows.iter_mut().zip(others) {
        *row = *row && *other;
    }
}

/// The first row from one on in which something is.
pub fn first_from(rows: &[bool], from: usize) -> Option<usize> {
    for at in from..rows.len() {
        if rows[at] {
            return Some(at);
        }
    }
    None
}
