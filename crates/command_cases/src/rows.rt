//! Many rows by one line: made from numbers, and printed in short.

use crate::texts::{number_of, put};
use std::alloc::{AllocError, Global};

/// How many rows of a longer run are printed at its front, and at its end.
const SHOWN: usize = 3;

/// What a form stands for in the row of a number: `A%M+B` for the remainder of the number and A by M, and B more, and any
/// other for the number itself.
fn value_of(form: &str, number: u64) -> u64 {
    let Some((shift, rest)) = form.split_once('%') else {
        return number;
    };
    let (by, more) = match rest.split_once('+') {
        Some(found) => found,
        None => (rest, ""),
    };
    let by = number_of(by).max(1);
    let left = number.saturating_add(number_of(shift)) % by;
    left.saturating_add(number_of(more))
}

/// Adds the text of a number: one in which each form stands in braces.
pub fn put_filled(
    alloc: Global,
    page: &mut Vec<u8>,
    text: &str,
    number: u64,
) -> Result<(), AllocError> {
    for (i, part) in text.split('{').enumerate() {
        match part.split_once('}') {
            Some((form, rest)) if i > 0 => {
                let value = value_of(form, number);
                put(page, &format!(in alloc; "{value}{rest}")?)?;
            }
            _ => put(page, part)?,
        }
    }
    Ok(())
}

/// The rows of the numbers from one to another.
pub fn rows_of(alloc: Global, numbers: (u64, u64), text: &str) -> Result<Vec<u8>, AllocError> {
    let mut page = Vec::new(alloc);
    for number in numbers.0..numbers.1.saturating_add(1) {
        put_filled(alloc, &mut page, text, number)?;
        page.push(b'\n')?;
    }
    Ok(page)
}

/// Adds a run of rows, of which a long one is cut in its middle.
fn put_run(alloc: Global, page: &mut Vec<u8>, run: &[&[u8]]) -> Result<(), AllocError> {
    let cut = run.len().saturating_sub(2 * SHOWN);
    for (i, line) in run.iter().enumerate() {
        if cut == 0 || i < SHOWN || i >= SHOWN + cut {
            page.extend_from_slice(line)?;
        } else if i == SHOWN {
            put(page, &format!(in alloc; ".. {cut} rows ..\n")?)?;
        }
    }
    Ok(())
}

/// Adds what was printed, with the middle of each long run of rows left out.
pub fn put_brief(alloc: Global, page: &mut Vec<u8>, printed: &[u8]) -> Result<(), AllocError> {
    let mut run = Vec::new(alloc);
    for line in printed.split_inclusive(|byte| *byte == b'\n') {
        if line.starts_with(b"> ") {
            run.push(line)?;
        } else {
            put_run(alloc, page, &run)?;
            run.clear();
            page.extend_from_slice(line)?;
        }
    }
    put_run(alloc, page, &run)
}
