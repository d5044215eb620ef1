//! What is wrong with the encoding of a whole file.

/// What to do with a file that begins with a byte order mark, as a schema or a script may not.
pub fn encoding_cure(file: &[u8]) -> Option<&'static str> {
    if file.starts_with(&[0xEF, 0xBB, 0xBF]) {
        Some("the file begins with a byte order mark: save it without, as plain ASCII")
    } else if is_wide(file) {
        Some("the file is in UTF-16: save it as plain ASCII")
    } else {
        None
    }
}

/// Whether a file begins with a byte order mark of UTF-16, or with a letter and a zero byte.
pub fn is_wide(file: &[u8]) -> bool {
    match file {
        [0xFF, 0xFE, ..] | [0xFE, 0xFF, ..] => true,
        [first, second, ..] => (*first == 0) != (*second == 0),
        _ => false,
    }
}
