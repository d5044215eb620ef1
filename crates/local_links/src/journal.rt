//! The journal of a session: a file with one line for each move and its answer.

ghost use Rattle.std.specs.Prelude.{◌≡◌, ◌≤◌, ◌<◌, ◌+◌, ◌*◌, ◌++◌, length};
ghost use Rattle.hex.specs.Hex.{encode_lower};
ghost use Rattle.arrayvec.specs.ArrayVec.{array_vec_len};
ghost use Rattle.ghost_model.specs.core.Moves as moves;
ghost use Rattle.local_links.specs.Journaling.{move_view, answer_view, entry_of, move_bytes, answer_bytes, log, Extends};

use arrayvec::ArrayVec;
use edge_traits::depot::Depot;
use itoa::Buffer;

/// A line of the journal while it is put together.
type Line = ArrayVec<u8, 4160>;

/// A move of the key on the channel.
#[derive(Clone, Copy)]
pub enum Move<'a> {
    /// The host at this address is dialled.
    Dial(&'a [u8]),
    /// These bytes are sent.
    Send(&'a [u8]),
    /// At most so many bytes are taken.
    Take(u64),
    /// The channel is closed.
    Close,
}

/// What a move was answered.
#[derive(Clone, Copy)]
pub enum Answer<'a> {
    /// It was done.
    Made,
    /// These bytes were taken.
    Piece(&'a [u8]),
    /// The host's bytes were at their end.
    End,
    /// It failed.
    Failed,
}

/// Adds bytes to a line.
fn put(line: &mut Line, bytes: &[u8])
    requires { array_vec_len line.old + length bytes.now ≤ 4160 }
    ensures items { line.new.items ≡ line.old.items ++ bytes.now }
    ensures len { array_vec_len line.new ≡ array_vec_len line.old + length bytes.now }
{
    let _full = line.try_extend_from_slice(bytes);
}

/// Adds bytes to a line in hexadecimal.
fn put_hex(line: &mut Line, bytes: &[u8])
    requires short { length bytes.now ≤ 2048 }
    requires room { array_vec_len line.old + 2 * length bytes.now ≤ 4160 }
    ensures items { line.new.items ≡ line.old.items ++ encode_lower bytes.now }
    ensures len { array_vec_len line.new ≡ array_vec_len line.old + 2 * length bytes.now }
{
    let mut digits = [0; 4096];
    let (place, _rest) = digits.split_at_mut(2 * bytes.len());
    let _short = hex::encode_to_slice(bytes, place);
    put(line, place);
}

/// Adds the last words of a line: how a move was answered, and the line's end.
fn put_answer(line: &mut Line, answer: &Answer)
    requires short { length (answer_bytes answer.now) ≤ 2048 }
    requires room { array_vec_len line.old + 2 * length (answer_bytes answer.now) ≤ 4150 }
    ensures { line.new.items ≡ line.old.items ++ (moves.answer_text (answer_view answer.now) ++ moves.line_end) }
{
    match answer {
        Answer::Made => put(line, b"ok"),
        Answer::Piece(bytes) => put_hex(line, bytes),
        Answer::End => put(line, b"end"),
        Answer::Failed => put(line, b"failed"),
    }
    put(line, b"\n");
}

/// The line of a move and its answer.
fn line_of(made: &Move, answer: &Answer) -> Line
    requires bytes { length (move_bytes made.now) ≤ 2048 }
    requires answer { length (answer_bytes answer.now) ≤ 2048 }
    requires one { length (move_bytes made.now) + length (answer_bytes answer.now) ≤ 2048 }
    ensures { result.items ≡ moves.line_of (move_view made.now) (answer_view answer.now) }
{
    let mut line = Line::new();
    match made {
        Move::Dial(_address) => {
            put(&mut line, b"dial ");
            put_answer(&mut line, answer);
        }
        Move::Send(bytes) => {
            put(&mut line, b"send ");
            put_hex(&mut line, bytes);
            put(&mut line, b" ");
            put_answer(&mut line, answer);
        }
        Move::Take(most) => {
            let mut digits = Buffer::new();
            put(&mut line, b"take ");
            put(&mut line, digits.format(*most).as_bytes());
            put(&mut line, b" ");
            put_answer(&mut line, answer);
        }
        Move::Close => put(&mut line, b"close\n"),
    }
    line
}

/// Adds the line of a move to the journal's file, unless an append failed before; answers whether one has.
pub fn record<D: Depot>(
    depot: &mut D,
    name: &str,
    failed: bool,
    made: &Move,
    answer: &Answer,
) -> bool
    requires bytes { length (move_bytes made.now) ≤ 2048 }
    requires answer { length (answer_bytes answer.now) ≤ 2048 }
    requires one { length (move_bytes made.now) + length (answer_bytes answer.now) ≤ 2048 }
    ensures { Extends name.now (moves.line (entry_of made.now answer.now))
        (log (D.contents depot.old) (D.faults depot.old) (D.append_faults depot.old) failed)
        (log (D.contents depot.new) (D.faults depot.new) (D.append_faults depot.new) result) }
{
    if failed {
        return true;
    }
    let line = line_of(made, answer);
    depot.append(name, line.as_slice()).is_err()
}
