//! A link that keeps a journal of another.

ghost use Rattle.std.specs.Prelude.{◌≡◌, ◌≤◌, ◌∷◌, [], true, false, length, option_map, IfOk};
ghost use Rattle.ghost_model.specs.core.Moves.{line};
ghost use Rattle.edge_traits.specs.Links.{done, gave};
ghost use Rattle.local_links.specs.Journaling.{answer_view, entry_of, move_bytes, answer_bytes, log, Extends};
ghost use Rattle.local_links.specs.Keeping.{Kept, Writes, is_short, named, log_of};
ghost use Rattle.local_links.specs.Kept.{kept_stays, kept_joins};

use crate::journal::{Answer, Move, record};
use edge_traits::Failed;
use edge_traits::depot::Depot;
use edge_traits::link::Link;

/// The most bytes of a move that a line has room for: those of a frame.
const MOST_BYTES: usize = 2048;

/// Another link, each move on which is written to a journal's file in a depot: one line for each move, at its end. Where
/// no file is named nothing is written.
///
/// After an append has failed no line is written any more, and the moves go on; so it is after a move of more bytes than a
/// frame has.
#[derive(Drop)]
pub struct Journaled<'a, L, D> {
    link: &'a mut L,
    depot: &'a mut D,
    name: &'a str,
    is_named: bool,
    failed: bool,
}

/// How many bytes a move sends.
fn sent_bytes(made: &Move) -> usize
    ensures size { result ≡ length (move_bytes made.now) }
{
    match made {
        Move::Dial(_) => 0,
        Move::Send(bytes) => bytes.len(),
        Move::Take(_) => 0,
        Move::Close => 0,
    }
}

/// How many bytes were taken.
fn taken_bytes(answer: &Answer) -> usize
    ensures size { result ≡ length (answer_bytes answer.now) }
{
    match answer {
        Answer::Piece(bytes) => bytes.len(),
        Answer::Made => 0,
        Answer::End => 0,
        Answer::Failed => 0,
    }
}

/// The answer of a call that gives nothing.
fn made<'a>(call: Result<(), Failed>) -> Answer<'a>
    ensures answer { answer_view result ≡ done call }
{
    match call {
        Ok(()) => Answer::Made,
        Err(_) => Answer::Failed,
    }
}

/// The answer of a call that filled the front of a buffer.
fn given<'a>(count: Result<usize, Failed>, buf: &'a [u8]) -> Answer<'a>
    requires within { IfOk count (λ n. n ≤ length buf.now) }
    ensures answer { answer_view result ≡ gave count buf.now }
{
    match count {
        Ok(0) => Answer::End,
        Ok(count) => Answer::Piece(&buf[..count]),
        Err(_) => Answer::Failed,
    }
}

/// Adds the line of a move to the journal's file, unless an append failed before; answers whether one has, or the line is
/// too long.
fn keep_line<D: Depot>(
    depot: &mut D,
    name: &str,
    failed: bool,
    made: &Move,
    answer: &Answer,
) -> bool
    ensures kept { is_short (entry_of made.now answer.now) ≡ true → Extends name.now (line (entry_of made.now answer.now))
        (log (D.contents depot.old) (D.faults depot.old) (D.append_faults depot.old) failed)
        (log (D.contents depot.new) (D.faults depot.new) (D.append_faults depot.new) result) }
{
    let sent = sent_bytes(made);
    let taken = taken_bytes(answer);
    if sent > MOST_BYTES || taken > MOST_BYTES - sent {
        return true;
    }
    record(depot, name, failed, made, answer)
}

impl<'a, L: Link, D: Depot> Journaled<'a, L, D> {
    /// A link that moves as `link` does, and writes to the file `name` of the depot, if one is named.
    pub fn new(link: &'a mut L, depot: &'a mut D, name: Option<&'a str>) -> Journaled<'a, L, D>
        ensures link { result.link.ghost_name ≡ link.entry.ghost_name }
        ensures moves { result.link.now ≡ link.old }
        ensures depot { result.depot.ghost_name ≡ depot.entry.ghost_name }
        ensures files { result.depot.now ≡ depot.old }
        ensures name { named result ≡ option_map (λ one. one.now) name.entry }
        ensures going { result.failed ≡ false }
    {
        Journaled {
            link,
            depot,
            name: name.unwrap_or(""),
            is_named: name.is_some(),
            failed: false,
        }
    }

    /// Whether an append has failed, or a line was too long.
    pub fn failed(&self) -> bool
        ensures failed { result ≡ self.now.failed }
    {
        self.failed
    }

    /// Writes the line of a move.
    fn keep(&mut self, made: &Move, answer: &Answer)
        ensures same_link { self.new.link.ghost_name ≡ self.old.link.ghost_name }
        ensures moves { self.new.link.now ≡ self.old.link.now }
        ensures same_depot { self.new.depot.ghost_name ≡ self.old.depot.ghost_name }
        ensures name { named self.new ≡ named self.old }
        ensures wrote { is_short (entry_of made.now answer.now) ≡ true → Writes (named self.old) (line (entry_of made.now answer.now))
            (log_of D.contents D.faults D.append_faults self.old) (log_of D.contents D.faults D.append_faults self.new) }
    {
        if self.is_named {
            self.failed = keep_line(self.depot, self.name, self.failed, made, answer);
        }
    }
}

impl<'a, L: Link, D: Depot> Link for Journaled<'a, L, D> {
    ghost went = { Kept L.went D.contents D.faults D.append_faults };

    ghost faults = { λ journaled. L.faults journaled.link.now };

    ghost stays = { kept_stays L.went D.contents D.faults D.append_faults L.stays };

    ghost joins = { kept_joins L.went D.contents D.faults D.append_faults L.joins };

    #[tactic(auto, using(crate::proofs::Within::done_within))]
    fn dial(&mut self, at: &str) -> Result<(), Failed> {
        let answer = self.link.dial(at);
        self.keep(&Move::Dial(at.as_bytes()), &made(answer));
        answer
    }

    #[tactic(auto, using(crate::proofs::Within::listening_within))]
    fn listen(&mut self, at: &str) -> Result<u16, Failed> {
        self.link.listen(at)
    }

    #[tactic(auto, using(crate::proofs::Within::done_within))]
    fn accept(&mut self) -> Result<(), Failed> {
        self.link.accept()
    }

    #[tactic(auto, using(crate::proofs::Within::done_within))]
    fn send(&mut self, bytes: &[u8]) -> Result<(), Failed> {
        let answer = self.link.send(bytes);
        self.keep(&Move::Send(bytes), &made(answer));
        answer
    }

    #[tactic(auto, using(crate::proofs::Within::gave_within))]
    fn take(&mut self, buf: &mut [u8]) -> Result<usize, Failed> {
        let count = self.link.take(buf);
        self.keep(&Move::Take(buf.len() as u64), &given(count, buf));
        count
    }

    fn close(&mut self) {
        self.link.close();
        self.keep(&Move::Close, &Answer::Made);
    }
}
