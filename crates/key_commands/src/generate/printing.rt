//! The lines that count a session.

ghost use Rattle.std.specs.Prelude.{◌≡◌, ◌≤◌, ◌++◌, false, length};
ghost use Rattle.key_lines.specs.Handing.{Hands, handed};
ghost use Rattle.key_commands.specs.generate.Counting as counting;
ghost use Rattle.key_commands.specs.generate.Counting.{rows_given};

use edge_traits::sink::Sink;
use key_lines::line::{Line, put, put_number};
use key_lines::printer::pieces_join;
use key_lines::{Printer, ToldText};

/// The line of a text: its number, the rows that were given, and those of its answer.
fn text_line(number: u64, given: u64, meant: u32) -> Line
    ensures line { result.items ≡ counting.text_line number given meant }
{
    let mut line = Line::new();
    put(&mut line, b"# ");
    put_number(&mut line, number);
    put(&mut line, b" ");
    put_number(&mut line, given);
    put(&mut line, b" ");
    put_number(&mut line, u64::from(meant));
    put(&mut line, b"\n");
    line
}

/// The line of a session's moves, and of the bytes that they sent and took.
fn moves_line(moves: u64, sent: u64, taken: u64) -> Line
    ensures line { result.items ≡ counting.moves_line moves sent taken }
{
    let mut line = Line::new();
    put(&mut line, b"moves ");
    put_number(&mut line, moves);
    put(&mut line, b" sent ");
    put_number(&mut line, sent);
    put(&mut line, b" taken ");
    put_number(&mut line, taken);
    put(&mut line, b"\n");
    line
}

/// Prints the line of each text. After a failed write nothing more is written.
fn print_texts<O: Sink>(printer: &mut Printer, out: &mut O, told: &[ToldText], meant: &[u32])
    requires few { length meant.now ≤ 64 }
    requires as_many { length told.now ≡ length meant.now }
    ensures handed { Hands (counting.text_lines 1 (rows_given told.now) meant.now)
        (handed printer.old.failed (O.faults out.old) (O.written out.old)) (handed printer.new.failed (O.faults out.new) (O.written out.new)) }
{
    pieces_join();
    for place in 0..meant.len() {
        let line = text_line(place as u64 + 1, told[place].rows, meant[place]);
        printer.ready_line(out, line.as_slice());
    }
}

/// Prints the line of each text, and then that of the moves; whether a write failed. After that nothing more is written.
pub(crate) fn print_counts<O: Sink>(
    out: &mut O,
    told: &[ToldText],
    meant: &[u32],
    moves: u64,
    sent: u64,
    taken: u64,
) -> bool
    requires few { length meant.now ≤ 64 }
    requires as_many { length told.now ≡ length meant.now }
    ensures handed { Hands (counting.text_lines 1 (rows_given told.now) meant.now ++ counting.moves_line moves sent taken)
        (handed false (O.faults out.old) (O.written out.old)) (handed result (O.faults out.new) (O.written out.new)) }
{
    pieces_join();
    let mut printer = Printer::new();
    print_texts(&mut printer, out, told, meant);
    let line = moves_line(moves, sent, taken);
    printer.ready_line(out, line.as_slice());
    printer.failed
}
