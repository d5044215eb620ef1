//! The standard output as a sink.

ghost use Rattle.std.specs.Prelude.{◌≡◌, None, IfOk};

use edge_traits::sink::Sink;
use edge_traits::{Failed, room};
use std::alloc::{AllocError, Global};

/// The bytes that are gathered at most.
const GATHERED: usize = 65_536;

/// Prints what it is written.
///
/// Pieces that begin with `>`, the lines of rows, are gathered and printed together. Any other piece is printed at once,
/// with all that was gathered before it. So nothing is left behind where the last piece is not the line of a row. A
/// gathered piece counts as taken; where it cannot be printed later, the later call fails, and what was gathered is gone.
#[derive(Drop)]
pub struct StdSink<R> {
    out: R,
    gathered: Vec<u8>,
    faults: u64,
}

impl<R: Print + Drop> StdSink<R> {
    /// A sink that prints through `out`.
    pub fn new(alloc: Global, out: R) -> Result<StdSink<R>, AllocError>
        ensures { IfOk result (λ sink. sink.faults ≡ 0) }
    {
        Ok(StdSink {
            out,
            gathered: Vec::with_capacity(alloc, GATHERED)?,
            faults: 0,
        })
    }

    /// Prints all that was gathered, and answers whether that went well.
    fn flush(&mut self) -> bool
        ensures faults { self.new.faults ≡ self.old.faults }
    {
        let went_well = print_whole(&self.out, &self.gathered);
        self.gathered.clear();
        went_well
    }

    /// Gathers a piece or prints it, and answers whether that went well.
    fn hand_on(&mut self, piece: &[u8]) -> bool
        ensures faults { self.new.faults ≡ self.old.faults }
    {
        if !room::has_room(&self.gathered, piece.len()) && !self.flush() {
            return false;
        }
        if !room::has_room(&self.gathered, piece.len()) {
            return print_whole(&self.out, piece);
        }
        room::add(&mut self.gathered, piece);
        piece.starts_with(b">") || self.flush()
    }
}

/// Prints a piece whole, and answers whether that went well.
fn print_whole<R: Print>(out: &R, piece: &[u8]) -> bool {
    let mut at = 0;
    while at < piece.len() {
        match out.write_some(&piece[at..]) {
            Ok(0) | Err(_) => return false,
            Ok(count) => at += count,
        }
    }
    true
}

impl<R: Print + Drop> Sink for StdSink<R> {
    ghost written = { λ sink. None };

    ghost faults = { λ sink. sink.faults };

    fn write(&mut self, bytes: &[u8]) -> Result<usize, Failed> {
        if !self.hand_on(bytes) {
            self.faults = self.faults.saturating_add(1);
            return Err(Failed);
        }
        Ok(bytes.len())
    }
}
