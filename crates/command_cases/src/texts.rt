//! Texts with escapes, numbers, and bytes as text.

use std::alloc::{AllocError, Global};

/// How far an escape was read.
#[derive(Clone, Copy)]
enum Place {
    /// There is none.
    Outside,
    /// Its backslash.
    Begun,
    /// Its backslash and x.
    Hex,
    /// Its first digit too, which has this value.
    Digit(u8),
}

/// The value of a hexadecimal digit, and 0 of any other byte.
fn digit_of(byte: u8) -> u8 {
    match byte {
        b'0'..=b'9' => byte - b'0',
        b'a'..=b'f' => byte - b'a' + 10,
        b'A'..=b'F' => byte - b'A' + 10,
        _ => 0,
    }
}

/// The byte that an escape of one letter stands for.
fn escaped(letter: u8) -> u8 {
    match letter {
        b'n' => b'\n',
        b't' => b'\t',
        b'r' => b'\r',
        other => other,
    }
}

/// Reads one byte more, and answers the byte that it completes.
fn step(place: Place, byte: u8) -> (Place, Option<u8>) {
    match place {
        Place::Outside if byte == b'\\' => (Place::Begun, None),
        Place::Outside => (Place::Outside, Some(byte)),
        Place::Begun if byte == b'x' => (Place::Hex, None),
        Place::Begun => (Place::Outside, Some(escaped(byte))),
        Place::Hex => (Place::Digit(digit_of(byte)), None),
        Place::Digit(high) => (Place::Outside, Some((high << 4) | digit_of(byte))),
    }
}

/// The bytes that a text stands for.
pub fn bytes_of(alloc: Global, text: &str) -> Result<Vec<u8>, AllocError> {
    let mut bytes = Vec::new(alloc);
    let mut place = Place::Outside;
    for byte in text.as_bytes() {
        let (next, made) = step(place, *byte);
        place = next;
        if let Some(made) = made {
            bytes.push(made)?;
        }
    }
    Ok(bytes)
}

/// The number of a word, and 0 where it is none.
pub fn number_of(word: &str) -> u64 {
    match word.parse::<u64>() {
        Ok(number) => number,
        Err(_) => 0,
    }
}

/// The numbers of the words of a text.
pub fn numbers_of(alloc: Global, text: &str) -> Result<Vec<u64>, AllocError> {
    let mut numbers = Vec::new(alloc);
    for word in text.split(' ') {
        if !word.is_empty() {
            numbers.push(number_of(word))?;
        }
    }
    Ok(numbers)
}

/// Adds a text.
pub fn put(page: &mut Vec<u8>, text: &str) -> Result<(), AllocError> {
    page.extend_from_slice(text.as_bytes())
}

/// The digits of what is sent and taken, and those of escapes.
const LOWER: &[u8; 16] = b"0123456789abcdef";

const UPPER: &[u8; 16] = b"0123456789ABCDEF";

/// Adds a byte in hexadecimal.
fn put_digits(page: &mut Vec<u8>, digits: &[u8; 16], byte: u8) -> Result<(), AllocError> {
    page.push(digits[(byte >> 4) as usize])?;
    page.push(digits[(byte & 15) as usize])?;
    Ok(())
}

/// Adds bytes in hexadecimal.
pub fn put_hex(page: &mut Vec<u8>, bytes: &[u8]) -> Result<(), AllocError> {
    for byte in bytes {
        put_digits(page, LOWER, *byte)?;
    }
    Ok(())
}

/// Adds a byte with escapes.
fn put_escaped(page: &mut Vec<u8>, byte: u8) -> Result<(), AllocError> {
    match byte {
        b'\n' => put(page, "\\n")?,
        b'\\' => put(page, "\\\\")?,
        0x20..=0x7E => page.push(byte)?,
        _ => {
            put(page, "\\x")?;
            put_digits(page, UPPER, byte)?;
        }
    }
    Ok(())
}

/// Adds bytes as one text with escapes.
pub fn put_text(page: &mut Vec<u8>, bytes: &[u8]) -> Result<(), AllocError> {
    for byte in bytes {
        put_escaped(page, *byte)?;
    }
    Ok(())
}

/// Adds the lines of a file with escapes, each behind a bar. A last line with no end is marked by a backslash.
pub fn put_lines(page: &mut Vec<u8>, bytes: &[u8]) -> Result<(), AllocError> {
    for line in bytes.split_inclusive(|byte| *byte == b'\n') {
        put(page, "|")?;
        match line.strip_suffix(b"\n") {
            Some(text) => put_text(page, text)?,
            None => {
                put_text(page, line)?;
                put(page, "\\")?;
            }
        }
        put(page, "\n")?;
    }
    Ok(())
}

/// How many of the first lines of a file are those of another, and what stands behind them.
pub fn behind_common<'a>(one: &[u8], other: &'a [u8]) -> (u64, &'a [u8]) {
    let mut count: u64 = 0;
    let mut from = 0;
    for (place, (byte, expected)) in other.iter().zip(one.iter()).enumerate() {
        if byte != expected {
            break;
        }
        if *byte == b'\n' {
            count = count.saturating_add(1);
            from = place + 1;
        }
    }
    (count, other.get(from..).unwrap_or(&[]))
}

/// Adds what was printed as it is. A last line with no end is marked by a backslash.
pub fn put_raw(page: &mut Vec<u8>, bytes: &[u8]) -> Result<(), AllocError> {
    page.extend_from_slice(bytes)?;
    if !bytes.is_empty() && !bytes.ends_with(b"\n") {
        put(page, "\\\n")?;
    }
    Ok(())
}
