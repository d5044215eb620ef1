//! Names and values as a line shows them.

ghost use Rattle.std.specs.Prelude.{◌≡◌, ◌≤◌, length};
ghost use Rattle.ghost_model.specs.forms.Cells.{padded};
ghost use Rattle.key_inputs.specs.Naming.{front_of, shown};

use std::fmt::{Display, Error as FormatError, Formatter, Write};

/// The most bytes of a name or a value that are shown.
pub const MOST_SHOWN: usize = 100;

/// At most 100 bytes, which lie in the value itself.
#[derive(Clone, Copy, Debug, Drop)]
pub struct Front {
    /// The bytes, and zeros in the places after them.
    pub places: [u8; MOST_SHOWN],

    /// How many they are.
    pub len: usize,
}

impl Front {
    /// These bytes.
    fn of(bytes: &[u8]) -> Front
        requires { length bytes.now ≤ 100 }
        ensures { result ≡ front_of bytes.now }
    {
        let mut places = [0; MOST_SHOWN];
        put_padded(bytes, &mut places);
        Front {
            places,
            len: bytes.len(),
        }
    }
}

/// Writes bytes and zeros after them.
fn put_padded(bytes: &[u8], out: &mut [u8])
    requires { length bytes.now ≤ length out.old }
    ensures { out.new ≡ padded (length out.old) bytes.now }
{
    let (front, back) = out.split_at_mut(bytes.len());
    front.copy_from_slice(bytes);
    back.fill(0);
}

/// Each byte as its character, or as `\x` and its number where it is not printable; `(empty)` where there is none.
impl Display for Front {
    fn fmt<W: Write>(&self, f: &mut Formatter<W>) -> Result<(), FormatError> {
        if self.len == 0 {
            return f.write_str("(empty)");
        }
        for byte in self.places.iter().take(self.len) {
            match *byte {
                printable @ 32..=126 => f.write_char(printable as char)?,
                other => write!(f, "\\x{other:02X}")?,
            }
        }
        Ok(())
    }
}

/// A name or a value as a line shows it.
#[derive(Clone, Copy, Debug, Drop)]
pub enum Shown {
    /// All its bytes.
    Whole(Front),

    /// The first 100 bytes of more.
    Cut(Front),

    /// It was not read once more, for want of memory.
    Unread,
}

impl Shown {
    /// What is shown of these bytes.
    pub fn of(bytes: &[u8]) -> Shown
        ensures shown { result ≡ shown bytes.now }
    {
        if bytes.len() <= MOST_SHOWN {
            return Shown::Whole(Front::of(bytes));
        }
        let (front, _) = bytes.split_at(MOST_SHOWN);
        Shown::Cut(Front::of(front))
    }
}

impl Display for Shown {
    fn fmt<W: Write>(&self, f: &mut Formatter<W>) -> Result<(), FormatError> {
        match self {
            Shown::Whole(bytes) => write!(f, "{bytes}"),
            Shown::Cut(bytes) => write!(f, "{bytes}..."),
            Shown::Unread => f.write_str("(not read)"),
        }
    }
}
