//! A damaged slot of the flash.

use std::fmt::{Display, Error as FormatError, Formatter, Write};

/// A slot of the flash that has no value which may stand there.
#[derive(Clone, Copy, Debug)]
pub struct Damage {
    /// The page.
    pub page: u32,
    /// The slot in it, counted from 0.
    pub slot: u32,
    /// The slot's first eight bytes as a number, with bytes 0 after a shorter one.
    pub found: u64,
}

impl Display for Damage {
    fn fmt<W: Write>(&self, f: &mut Formatter<W>) -> Result<(), FormatError> {
        write!(
            f,
            "slot {} of page {} begins with {}",
            self.slot, self.page, self.found
        )
    }
}
