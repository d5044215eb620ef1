//! In which order a link and an output were called.

use crate::texts::put;
use edge_traits::Failed;
use edge_traits::link::Link;
use edge_traits::sink::Sink;
use std::alloc::{AllocError, Global};
use std::cell::Cell;

/// A link that notes before each move how many writes there were.
#[derive(Drop)]
pub struct NotedLink<'a, L> {
    pub link: L,
    pub writes: &'a Cell<u64>,
    pub before: Vec<u64>,
}

/// Notes how many writes there were; where memory is refused that is left out.
fn note(before: &mut Vec<u64>, writes: &Cell<u64>) {
    let _noted = before.push(writes.get());
}

impl<'a, L: Link> Link for NotedLink<'a, L> {
    ghost went = { λ old moves new. L.went old.link moves new.link };

    ghost faults = { λ noted. L.faults noted.link };

    ghost stays = { λ noted. L.stays noted.link };

    ghost joins = { λ old between new. L.joins old.link between.link new.link };

    fn dial(&mut self, at: &str) -> Result<(), Failed> {
        note(&mut self.before, self.writes);
        self.link.dial(at)
    }

    fn listen(&mut self, at: &str) -> Result<u16, Failed> {
        note(&mut self.before, self.writes);
        self.link.listen(at)
    }

    fn accept(&mut self) -> Result<(), Failed> {
        note(&mut self.before, self.writes);
        self.link.accept()
    }

    fn send(&mut self, bytes: &[u8]) -> Result<(), Failed> {
        note(&mut self.before, self.writes);
        self.link.send(bytes)
    }

    fn take(&mut self, buf: &mut [u8]) -> Result<usize, Failed> {
        note(&mut self.before, self.writes);
        self.link.take(buf)
    }

    fn close(&mut self) {
        note(&mut self.before, self.writes);
        self.link.close();
    }
}

/// An output that counts its writes.
#[derive(Drop)]
pub struct CountedSink<'a, O> {
    pub sink: O,
    pub writes: &'a Cell<u64>,
}

impl<'a, O: Sink> Sink for CountedSink<'a, O> {
    ghost written = { λ counted. O.written counted.sink };

    ghost faults = { λ counted. O.faults counted.sink };

    fn write(&mut self, bytes: &[u8]) -> Result<usize, Failed> {
        self.writes.set(self.writes.get().saturating_add(1));
        self.sink.write(bytes)
    }
}

/// Adds how many moves and writes came after one another, from how many writes there were before each move and at the end.
pub fn put_order(
    alloc: Global,
    page: &mut Vec<u8>,
    before: &[u64],
    writes: u64,
) -> Result<(), AllocError> {
    put(page, "order")?;
    let (mut moves, mut told): (u64, u64) = (0, 0);
    for count in before {
        if *count != told {
            let more = count.saturating_sub(told);
            put(page, &format!(in alloc; " {moves} moves {more} writes")?)?;
            moves = 0;
            told = *count;
        }
        moves = moves.saturating_add(1);
    }
    let more = writes.saturating_sub(told);
    put(page, &format!(in alloc; " {moves} moves {more} writes\n")?)
}
