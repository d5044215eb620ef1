//! How many texts of a script were refused.

use std::fmt::{Display, Error as FormatError, Formatter, Write};

/// The number of refused texts, and of all texts.
#[derive(Clone, Copy)]
pub struct RefusedCount {
    /// How many texts were refused.
    pub refused: usize,

    /// How many texts the script has.
    pub texts: usize,
}

impl Display for RefusedCount {
    fn fmt<W: Write>(&self, f: &mut Formatter<W>) -> Result<(), FormatError> {
        let RefusedCount { refused, texts } = *self;
        let of = if texts == 1 { "text" } else { "texts" };
        let was = if refused == 1 { "was" } else { "were" };
        write!(f, "{refused} of {texts} {of} {was} refused")
    }
}
