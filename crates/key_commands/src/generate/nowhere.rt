//! A sink that keeps nothing.

ghost use Rattle.std.specs.Prelude.{None};

use edge_traits::Failed;
use edge_traits::sink::Sink;

/// Takes each piece whole, tells none of it, and never fails.
#[derive(Drop)]
pub(crate) struct Nowhere;

impl Sink for Nowhere {
    ghost written = { λ _. None };

    ghost faults = { λ _. 0 };

    fn write(&mut self, bytes: &[u8]) -> Result<usize, Failed> {
        Ok(bytes.len())
    }
}
