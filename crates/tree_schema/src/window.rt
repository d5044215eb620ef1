//! A window on a text that is written from its beginning, so that a part of the text can be had without the whole.

ghost use Rattle.std.specs.Prelude.{◌≡◌, ◌∷◌, [], decimal};
ghost use Rattle.tree_schema.specs.Windows.{pane, with_byte, with_text};

use itoa::Buffer;

/// How far a text is written through a window upon it.
#[derive(Clone, Copy)]
pub struct Window {
    /// The bytes of the text that are still before the window.
    pub skip: usize,

    /// The bytes of the window that are written.
    pub filled: usize,
}

impl Window {
    /// The next byte of the text.
    fn put_byte(&mut self, out: &mut [u8], byte: u8)
        ensures byte { pane self.new out.new ≡ with_byte (pane self.old out.old) byte }
    {
        if self.skip > 0 {
            self.skip -= 1;
        } else if self.filled < out.len() {
            out[self.filled] = byte;
            self.filled += 1;
        }
    }

    /// The next bytes of the text.
    #[tactic(auto, using(crate::proofs::WindowLemmas::with_one_more, crate::proofs::WindowLemmas::with_no_text))]
    pub fn put(&mut self, out: &mut [u8], piece: &[u8])
        ensures text { pane self.new out.new ≡ with_text (pane self.old out.old) piece.now }
    {
        for byte in piece {
            self.put_byte(out, *byte);
        }
    }

    /// The next number of the text, in decimal digits.
    pub fn put_number(&mut self, out: &mut [u8], number: u8)
        ensures text { pane self.new out.new ≡ with_text (pane self.old out.old) (decimal number) }
    {
        let mut digits = Buffer::new();
        self.put(out, digits.format(number).as_bytes());
    }
}
