//! Lines for a sink.

ghost use Rattle.std.specs.Prelude.{◌≡◌, ◌≤◌, ◌++◌, ◌∷◌, [], false, length, map, codes, decimal};
ghost use Rattle.arrayvec.specs.ArrayVec.{array_vec_len};
ghost use Rattle.ghost_base.specs.Views.{value_of};
ghost use Rattle.ghost_model.specs.core.Printed.{row_line, count_line, refusal_line};
ghost use Rattle.spj_parse.specs.Views.{refusal_of};
ghost use Rattle.key_lines.specs.Faults.{fault_line, fault_word};
ghost use Rattle.key_lines.specs.Handing.{PiecesJoin, Hands, handed};

use crate::line::{Line, put, put_number, put_refusal, put_row};
use edge_traits::sink::Sink;
use edge_traits::writing::write_all;
use ghost_base::Value;
use spj_parse::Refusal;

/// Why a text that was accepted has no whole answer.
#[derive(Clone, Copy)]
pub enum Fault {
    /// The link failed or ended.
    Link,

    /// The host answered out of form.
    Protocol,

    /// The host could not answer.
    Host,

    /// The flash failed.
    Flash,

    /// A page of the flash was damaged.
    Damaged,
}

impl Fault {
    /// The word that is printed for it.
    pub fn word(self) -> &'static str
        ensures word { result.now ≡ fault_word self }
        ensures short { length result.now ≤ 8 }
    {
        match self {
            Fault::Link => "link",
            Fault::Protocol => "protocol",
            Fault::Host => "host",
            Fault::Flash => "flash",
            Fault::Damaged => "damaged",
        }
    }
}

/// Prints lines, each as one piece for the sink. After a failed write it writes nothing more.
#[derive(Drop)]
pub struct Printer {
    /// Whether a write failed.
    pub failed: bool,

    line: Line,
}

/// Pieces that were handed on one after another are one piece.
pub fn pieces_join()
    ensures { PiecesJoin }
{}

impl Printer {
    /// A printer before its first line.
    pub fn new() -> Printer
        ensures fresh { result.failed ≡ false }
    {
        Printer {
            failed: false,
            line: Line::new(),
        }
    }

    /// Prints the line of a row. It has at most 32 values.
    pub fn row<O: Sink>(&mut self, out: &mut O, values: &[Value])
        requires few { length values.now ≤ 32 }
        ensures handed { Hands (row_line (map value_of values.now))
            (handed self.old.failed (O.faults out.old) (O.written out.old)) (handed self.new.failed (O.faults out.new) (O.written out.new)) }
    {
        put_row(&mut self.line, values);
        self.hand(out);
    }

    /// Prints a line that stands ready.
    pub fn ready_line<O: Sink>(&mut self, out: &mut O, line: &[u8])
        ensures handed { Hands line.now
            (handed self.old.failed (O.faults out.old) (O.written out.old)) (handed self.new.failed (O.faults out.new) (O.written out.new)) }
    {
        hand(&mut self.failed, out, line);
    }

    /// Prints the line with the number of rows of a text.
    pub fn count<O: Sink>(&mut self, out: &mut O, text: u32, rows: u64)
        ensures handed { Hands (count_line text rows)
            (handed self.old.failed (O.faults out.old) (O.written out.old)) (handed self.new.failed (O.faults out.new) (O.written out.new)) }
    {
        self.line.clear();
        put(&mut self.line, b"= ");
        put_number(&mut self.line, u64::from(text));
        put(&mut self.line, b" ");
        put_number(&mut self.line, rows);
        put(&mut self.line, b"\n");
        self.hand(out);
    }

    /// Prints the line of a text that has no whole answer.
    pub fn fault<O: Sink>(&mut self, out: &mut O, text: u32, fault: Fault)
        ensures handed { Hands (fault_line text fault)
            (handed self.old.failed (O.faults out.old) (O.written out.old)) (handed self.new.failed (O.faults out.new) (O.written out.new)) }
    {
        self.begin_word_line(text);
        put(&mut self.line, fault.word().as_bytes());
        put(&mut self.line, b"\n");
        self.hand(out);
    }

    /// Prints the line of a text that is refused.
    pub fn refusal<O: Sink>(&mut self, out: &mut O, text: u32, refusal: &Refusal)
        ensures handed { Hands (refusal_line text (refusal_of refusal.now))
            (handed self.old.failed (O.faults out.old) (O.written out.old)) (handed self.new.failed (O.faults out.new) (O.written out.new)) }
    {
        self.begin_word_line(text);
        put_refusal(&mut self.line, refusal);
        put(&mut self.line, b"\n");
        self.hand(out);
    }

    /// Begins the line of a text whose answer is a word.
    fn begin_word_line(&mut self, text: u32)
        ensures items { self.new.line.items ≡ codes "! " ++ (decimal text ++ 32 ∷ []) }
        ensures len { array_vec_len self.new.line ≤ 67 }
        ensures failed { self.new.failed ≡ self.old.failed }
    {
        self.line.clear();
        put(&mut self.line, b"! ");
        put_number(&mut self.line, u64::from(text));
        put(&mut self.line, b" ");
    }

    /// Hands the line to the sink, where no write failed.
    fn hand<O: Sink>(&mut self, out: &mut O)
        ensures handed { Hands self.old.line.items
            (handed self.old.failed (O.faults out.old) (O.written out.old)) (handed self.new.failed (O.faults out.new) (O.written out.new)) }
    {
        hand(&mut self.failed, out, self.line.as_slice());
    }
}

/// Hands a piece to the sink, where no write failed.
fn hand<O: Sink>(failed: &mut bool, out: &mut O, piece: &[u8])
    ensures handed { Hands piece.now (handed failed.old (O.faults out.old) (O.written out.old)) (handed failed.new (O.faults out.new) (O.written out.new)) }
{
    if *failed {
        return;
    }
    if write_all(out, piece).is_err() {
        *failed = true;
    }
}
