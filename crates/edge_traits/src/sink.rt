//! Where lines go.

ghost use Rattle.std.specs.Prelude.{◌≡◌, ◌<◌, ◌≤◌, ℕ, List, take, length, Option, IfOk, OnErr};
ghost use Rattle.ghost_model.specs.core.Causes.{HasCause};
ghost use Rattle.edge_traits.specs.Written.{grown, GrowsByFront};

use crate::Failed;

/// Takes bytes in order, at its own pace.
pub trait Sink {
    /// All bytes taken so far, where the sink tells them.
    ghost written: { Self → Option (List ℕ) };

    /// The count of failed writes.
    ghost faults: { Self → ℕ };

    /// Takes a front of `bytes`, and answers its length: of a piece that is not empty at least one byte.
    ///
    /// A write that takes none of such a piece is a fault. A failed write may have taken a front of its piece.
    fn write(&mut self, bytes: &[u8]) -> Result<usize, Failed>
        ensures cause { HasCause (faults self.old) (faults self.new) result }
        ensures within { IfOk result (λ count. count ≤ length bytes.now) }
        ensures some { IfOk result (λ count. 0 < length bytes.now → 0 < count) }
        ensures taken { IfOk result (λ count. written self.new ≡ grown (written self.old) (take count bytes.now)) }
        ensures failed { OnErr result (GrowsByFront (written self.old) bytes.now (written self.new)) };
}
