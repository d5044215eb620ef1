//! A word of the program as a line shows it.

use arrayvec::ArrayString;
use std::fmt::{Display, Error as FormatError, Formatter, Write};

/// The most bytes of a word that are shown.
pub const MAX_SHOWN: usize = 48;

/// The first bytes of a word, which lie in the value itself, with a question mark for each control character.
#[derive(Clone, Copy, Debug, Drop)]
pub struct ShownWord {
    /// The bytes of whole characters, and zeros in the places after them.
    places: [u8; MAX_SHOWN],

    /// How many they are.
    len: usize,
}

impl ShownWord {
    /// A word as a line shows it.
    pub fn of(word: &str) -> ShownWord {
        let mut shown = ArrayString::<MAX_SHOWN>::new();
        for letter in word.chars() {
            let letter = if letter.is_control() { '?' } else { letter };
            if shown.try_push(letter).is_err() {
                break;
            }
        }
        let mut places = [0; MAX_SHOWN];
        for (place, byte) in places.iter_mut().zip(shown.as_bytes().iter()) {
            *place = *byte;
        }
        ShownWord {
            places,
            len: shown.len(),
        }
    }
}

/// The characters as they are.
impl Display for ShownWord {
    fn fmt<W: Write>(&self, f: &mut Formatter<W>) -> Result<(), FormatError> {
        let bytes = self.places.get(..self.len).unwrap_or(&[]);
        f.write_str(std::str::from_utf8(bytes).unwrap_or(""))
    }
}
