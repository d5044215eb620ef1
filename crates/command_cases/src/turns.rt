//! Lines that are done once for each number, where those with one outcome are told together.

use crate::cases::Cases;
use crate::rows::put_filled;
use crate::texts::put;
use std::alloc::{AllocError, Global};

/// What the lines came to for each number from one to another.
#[derive(Drop)]
struct Turn {
    first: u64,
    last: u64,
    came: Vec<u8>,
}

/// Does a line with a number in the place of each form in braces.
fn do_filled(alloc: Global, line: &str, number: u64, cases: &mut Cases) -> Result<(), AllocError> {
    let mut filled = Vec::new(alloc);
    put_filled(alloc, &mut filled, line, number)?;
    match str::from_utf8(&filled) {
        Ok(line) => cases.read(line),
        Err(_) => Ok(()),
    }
}

/// What lines come to for a number.
fn came_of(
    alloc: Global,
    lines: &[String],
    number: u64,
    cases: &mut Cases,
) -> Result<Vec<u8>, AllocError> {
    cases.forget();
    for line in lines {
        do_filled(alloc, line.as_str(), number, cases)?;
    }
    let mut came = Vec::new(alloc);
    came.extend_from_slice(cases.printed())?;
    cases.forget();
    Ok(came)
}

/// Adds a turn, to the last one where that came to the same.
fn add(turns: &mut Vec<Turn>, number: u64, came: Vec<u8>) -> Result<(), AllocError> {
    if let Some(last) = turns.last_mut() {
        if last.came == came {
            last.last = number;
            return Ok(());
        }
    }
    turns.push(Turn {
        first: number,
        last: number,
        came,
    })?;
    Ok(())
}

/// Does lines once for each number from one to another, and tells the numbers in a row that came to the same, and to what.
pub fn do_each(
    alloc: Global,
    lines: &[String],
    numbers: (u64, u64),
    cases: &mut Cases,
) -> Result<(), AllocError> {
    let mut turns = Vec::new(alloc);
    for number in numbers.0..numbers.1.saturating_add(1) {
        let came = came_of(alloc, lines, number, cases)?;
        add(&mut turns, number, came)?;
    }
    for turn in &turns {
        let (first, last) = (turn.first, turn.last);
        cases.tell_turn(&format!(in alloc; "-- {first} to {last}\n")?, &turn.came)?;
    }
    Ok(())
}
