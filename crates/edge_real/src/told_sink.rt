//! A sink that tells how far the texts of a script are.

ghost use Rattle.std.specs.Prelude.{◌≡◌};

use edge_traits::Failed;
use edge_traits::sink::Sink;
use std::io::Eprint;

/// How many rows of a text are printed between two lines on the terminal.
const BETWEEN: u64 = 100_000;

/// A sink, and a terminal, where there is one, on which a line tells the number of the text and its rows so far: behind so many rows,
/// and at its end.
#[derive(Drop)]
pub struct ToldSink<O, E> {
    /// The sink.
    pub out: O,

    to: Option<E>,
    text: u64,
    rows: u64,
}

impl<O: Sink + Drop, E: Eprint + Drop> ToldSink<O, E> {
    /// This sink before its first line, told of on `to`.
    pub fn new(out: O, to: Option<E>) -> ToldSink<O, E>
        ensures out { result.out ≡ out }
    {
        ToldSink {
            out,
            to,
            text: 1,
            rows: 0,
        }
    }

    /// Tells of a line that was printed.
    fn tell(&mut self, line: &[u8])
        ensures out { self.new.out ≡ self.old.out }
    {
        if self.to.is_none() {
            return;
        }
        if line.starts_with(b">") {
            self.rows = self.rows.saturating_add(1);
            if self.rows % BETWEEN == 0 {
                tell_rows(&self.to, self.text, self.rows, "so far");
            }
        } else if is_of_a_text(line) {
            tell_rows(&self.to, self.text, self.rows, "in all");
            self.text = self.text.saturating_add(1);
            self.rows = 0;
        }
    }
}

/// Whether a line is the last one of a text: its number stands behind a sign and a blank.
fn is_of_a_text(line: &[u8]) -> bool {
    match line.get(2) {
        Some(digit) => digit.is_ascii_digit(),
        None => false,
    }
}

/// Tells the rows of a text, where there is a terminal.
fn tell_rows<E: Eprint>(to: &Option<E>, text: u64, rows: u64, how: &str) {
    if let Some(to) = to {
        let _told = eprintln!(to; "text {text}: {rows} rows {how}");
    }
}

impl<O: Sink + Drop, E: Eprint + Drop> Sink for ToldSink<O, E> {
    ghost written = { λ told. O.written told.out };

    ghost faults = { λ told. O.faults told.out };

    fn write(&mut self, bytes: &[u8]) -> Result<usize, Failed> {
        let count = self.out.write(bytes)?;
        self.tell(bytes);
        Ok(count)
    }
}
