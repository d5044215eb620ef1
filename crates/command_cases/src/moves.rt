//! The moves of a link as lines.

use crate::texts::{put, put_hex};
use edge_traits::Failed;
use edge_traits::told::{Told, ToldJournal};
use std::alloc::{AllocError, Global};

/// How many bytes of a journal belong to a move.
fn size_of(told: &Told) -> usize {
    match told {
        Told::Dial { size, .. } | Told::Listen { size, .. } | Told::Send { size, .. } => *size,
        Told::Take { answer, .. } => answer.unwrap_or(0),
        Told::Accept { .. } | Told::Close => 0,
    }
}

/// The word of an answer.
fn answer_of(answer: &Result<(), Failed>) -> &'static str {
    match answer {
        Ok(()) => "ok",
        Err(_) => "failed",
    }
}

/// Adds the answer of a take.
fn put_taken(
    page: &mut Vec<u8>,
    answer: &Result<usize, Failed>,
    bytes: &[u8],
) -> Result<(), AllocError> {
    match answer {
        Err(_) => put(page, "failed"),
        Ok(0) => put(page, "end"),
        Ok(_) => put_hex(page, bytes),
    }
}

/// Adds the line of a move with these bytes.
fn put_move(
    alloc: Global,
    page: &mut Vec<u8>,
    told: &Told,
    bytes: &[u8],
) -> Result<(), AllocError> {
    match told {
        Told::Dial { answer, .. } => {
            put(page, "dial ")?;
            put(page, answer_of(answer))?;
        }
        Told::Listen {
            answer: Ok(port),
            ..
        } => {
            put(page, &format!(in alloc; "listen port {port}")?)?;
        }
        Told::Listen { .. } => put(page, "listen failed")?,
        Told::Accept { answer } => {
            put(page, "accept ")?;
            put(page, answer_of(answer))?;
        }
        Told::Send { answer, .. } => {
            put(page, "send ")?;
            put_hex(page, bytes)?;
            put(page, " ")?;
            put(page, answer_of(answer))?;
        }
        Told::Take { most, answer } => {
            put(page, &format!(in alloc; "take {most} ")?)?;
            put_taken(page, answer, bytes)?;
        }
        Told::Close => put(page, "close")?,
    }
    put(page, "\n")
}

/// Adds the lines of all moves.
pub fn put_moves(
    alloc: Global,
    page: &mut Vec<u8>,
    journal: &ToldJournal<'_>,
) -> Result<(), AllocError> {
    if journal.moves.is_empty() {
        return put(page, "no moves\n");
    }
    let mut rest = journal.bytes;
    for told in journal.moves {
        let Some((bytes, later)) = rest.split_at_checked(size_of(told)) else {
            return put(page, "? moves\n");
        };
        put_move(alloc, page, told, bytes)?;
        rest = later;
    }
    Ok(())
}

/// The value of a hexadecimal digit, small letters alone.
fn digit_of(digit: u8) -> Option<u8> {
    match digit {
        b'0'..=b'9' => Some(digit - b'0'),
        b'a'..=b'f' => Some(digit - b'a' + 10),
        _ => None,
    }
}

/// Adds the bytes that a take's answer spells; the words `failed` and `end` spell none.
fn add_taken(bytes: &mut Vec<u8>, answer: &[u8]) -> Result<(), AllocError> {
    for pair in answer.chunks_exact(2) {
        let [high, low] = pair else { return Ok(()) };
        let (Some(high), Some(low)) = (digit_of(*high), digit_of(*low)) else {
            return Ok(());
        };
        bytes.push((high << 4) | low)?;
    }
    Ok(())
}

/// All bytes that were taken by the moves of a journal.
pub fn taken_in(alloc: Global, journal: &[u8]) -> Result<Vec<u8>, AllocError> {
    let mut taken = Vec::new(alloc);
    for line in journal.split(|byte| *byte == b'\n') {
        if let Some(rest) = line.strip_prefix(b"take ") {
            let answer = rest.rsplit(|byte| *byte == b' ').next().unwrap_or(&[]);
            add_taken(&mut taken, answer)?;
        }
    }
    Ok(taken)
}

/// Adds how many moves there are, and whether the last one closed the link.
pub fn put_count(
    alloc: Global,
    page: &mut Vec<u8>,
    journal: &ToldJournal<'_>,
) -> Result<(), AllocError> {
    let count = journal.moves.len();
    let end = match journal.moves.last() {
        Some(Told::Close) => "closed",
        _ => "open",
    };
    put(page, &format!(in alloc; "{count} moves, {end}\n")?)
}
