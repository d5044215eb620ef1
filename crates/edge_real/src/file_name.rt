//! A file's name in a value of fixed size.

use std::fmt::{Display, Error as FormatError, Formatter, Write};

/// The most bytes of a name that are kept.
const MOST_NAME: usize = 240;

/// The first bytes of a file's name, which lie in the value itself.
#[derive(Clone, Copy, Drop)]
pub struct FileName {
    /// The bytes, and zeros in the places after them.
    places: [u8; MOST_NAME],

    /// How many bytes the whole name has.
    len: usize,
}

impl FileName {
    /// The name, or its first bytes where it is longer.
    pub fn of(name: &str) -> FileName {
        let mut places = [0; MOST_NAME];
        for (place, byte) in places.iter_mut().zip(name.as_bytes().iter()) {
            *place = *byte;
        }
        FileName {
            places,
            len: name.len(),
        }
    }

    /// Whether this is the whole of a name.
    pub(crate) fn is(&self, name: &str) -> bool {
        match self.places.get(..self.len) {
            Some(bytes) => bytes == name.as_bytes(),
            None => false,
        }
    }
}

/// The characters as they are, with a question mark for each control character, up to one that is cut. The empty name is
/// told as such.
impl Display for FileName {
    fn fmt<W: Write>(&self, f: &mut Formatter<W>) -> Result<(), FormatError> {
        if self.len == 0 {
            return f.write_str("(no name)");
        }
        for letter in shown_of(&self.places, self.len).chars() {
            f.write_char(if letter.is_control() { '?' } else { letter })?;
        }
        Ok(())
    }
}

/// The characters of the bytes that are kept of a name of so many.
fn shown_of(places: &[u8], len: usize) -> &str {
    let kept = places.get(..len).unwrap_or(places);
    match std::str::from_utf8(kept) {
        Ok(text) => text,
        Err(cut) => {
            let whole = kept.get(..cut.valid_up_to()).unwrap_or(&[]);
            std::str::from_utf8(whole).unwrap_or("")
        }
    }
}
