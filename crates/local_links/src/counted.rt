//! A link that counts the moves and the bytes of another.

ghost use Rattle.std.specs.Prelude.{◌≡◌};
ghost use Rattle.local_links.specs.Counting.{HaveNothing, CountOne, IsCounted, counts_of};
ghost use Rattle.local_links.specs.CountedMoves.{counted_stays, counted_joins};

use crate::counts::Counts;
use edge_traits::Failed;
use edge_traits::link::Link;

impl Counts {
    /// Nothing is counted yet.
    fn new() -> Counts
        ensures nothing { HaveNothing result }
    {
        Counts {
            moves: 0,
            sent: 0,
            taken: 0,
        }
    }

    /// Counts a move that sent and took so many bytes.
    fn add(&mut self, sent: usize, taken: usize)
        ensures counted { CountOne self.old sent taken self.new }
    {
        self.moves = self.moves.saturating_add(1);
        self.sent = self.sent.saturating_add(sent as u64);
        self.taken = self.taken.saturating_add(taken as u64);
    }
}

/// Another link, each move on which is counted, with the bytes that it sends and takes.
#[derive(Drop)]
pub struct Counted<'a, L> {
    link: &'a mut L,
    counts: Counts,
}

impl<'a, L: Link> Counted<'a, L> {
    /// A link that moves as `link` does, and has counted nothing yet.
    pub fn new(link: &'a mut L) -> Counted<'a, L>
        ensures link { result.link.ghost_name ≡ link.entry.ghost_name }
        ensures moves { result.link.now ≡ link.old }
        ensures counts { HaveNothing (counts_of result) }
    {
        Counted {
            link,
            counts: Counts::new(),
        }
    }

    /// What was counted so far.
    pub fn counts(&self) -> &Counts
        ensures counts { result.now ≡ counts_of self.now }
    {
        &self.counts
    }
}

impl<'a, L: Link> Link for Counted<'a, L> {
    ghost went = { IsCounted L.went };

    ghost faults = { λ counted. L.faults counted.link.now };

    ghost stays = { counted_stays L.went L.stays };

    ghost joins = { counted_joins L.went L.joins };

    fn dial(&mut self, at: &str) -> Result<(), Failed> {
        let answer = self.link.dial(at);
        self.counts.add(0, 0);
        answer
    }

    fn listen(&mut self, at: &str) -> Result<u16, Failed> {
        let answer = self.link.listen(at);
        self.counts.add(0, 0);
        answer
    }

    fn accept(&mut self) -> Result<(), Failed> {
        let answer = self.link.accept();
        self.counts.add(0, 0);
        answer
    }

    fn send(&mut self, bytes: &[u8]) -> Result<(), Failed> {
        let answer = self.link.send(bytes);
        self.counts.add(bytes.len(), 0);
        answer
    }

    fn take(&mut self, buf: &mut [u8]) -> Result<usize, Failed> {
        let count = self.link.take(buf);
        self.counts.add(0, count.unwrap_or(0));
        count
    }

    fn close(&mut self) {
        self.link.close();
        self.counts.add(0, 0);
    }
}
