//! The lines of refused words.

use std::alloc::{AllocError, Global};

/// The most bytes of a line that tells of an option.
const MOST_COLUMNS: usize = 78;

/// The lines that tell of refused words, each option in lines of at most 78 bytes. Where the words ask for help, it is not
/// told that they were refused.
pub fn usage_lines(alloc: Global, words: &[String], told: &str) -> Result<String, AllocError> {
    let mut lines = String::new(alloc);
    let told = match told.split_once("usage:") {
        Some((_, usage)) if asks_help(words) => {
            lines.push_str("usage:")?;
            usage
        }
        _ => told,
    };
    let mut is_later = false;
    for line in told.split('\n') {
        if is_later {
            lines.push('\n')?;
        }
        is_later = true;
        push_broken(&mut lines, line)?;
    }
    Ok(lines)
}

/// Whether the words ask for help.
fn asks_help(words: &[String]) -> bool {
    match words.get(1) {
        Some(first) if first.as_str() == "help" => true,
        _ => words.iter().any(|word| is_help(word.as_str())),
    }
}

/// Whether a word asks for help.
fn is_help(word: &str) -> bool {
    word == "--help" || word == "-h"
}

/// Adds a line, broken where it tells of an option and is too long.
fn push_broken(lines: &mut String, line: &str) -> Result<(), AllocError> {
    let indent = indent_of(line);
    if indent == 0 {
        return lines.push_str(line);
    }
    let mut column: usize = 0;
    let mut is_first = true;
    for word in line.split(' ') {
        let next = column.saturating_add(1).saturating_add(word.len());
        if is_first {
            column = word.len();
        } else if column > indent && next > MOST_COLUMNS {
            lines.push('\n')?;
            push_blanks(lines, indent)?;
            column = indent.saturating_add(word.len());
        } else {
            lines.push(' ')?;
            column = next;
        }
        is_first = false;
        lines.push_str(word)?;
    }
    Ok(())
}

/// How far what is told of an option or a command stands from the left, and 0 of another line.
fn indent_of(line: &str) -> usize {
    if line.starts_with("    -") || line.starts_with("    [") {
        23
    } else if line.starts_with("    ") {
        12
    } else {
        0
    }
}

/// Adds so many blanks.
fn push_blanks(lines: &mut String, count: usize) -> Result<(), AllocError> {
    for _ in 0..count {
        lines.push(' ')?;
    }
    Ok(())
}
