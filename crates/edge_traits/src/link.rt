//! Where bytes come from and go to: one stream in each direction.

ghost use Rattle.std.specs.Prelude.{◌≡◌, ◌<◌, ◌≤◌, ◌++◌, ℕ, List, [], ◌∷◌, length, IfOk};
ghost use Rattle.ghost_model.specs.core.Causes.{HasCause};
ghost use Rattle.ghost_model.specs.core.Channel as channel;
ghost use Rattle.ghost_model.specs.core.Channel.{Journal};
ghost use Rattle.edge_traits.specs.Links.{entry, done, listening, gave};

use crate::Failed;

/// One end of a stream of bytes in each direction.
///
/// Each call is one move on the link, whether it goes well or fails.
pub trait Link {
    /// The link went from one state to another by these moves with their answers, the oldest first.
    ghost went: { Self → Journal → Self → Type 0 };

    /// The count of failed calls.
    ghost faults: { Self → ℕ };

    /// Calls the other end, which listens at the address `at`.
    fn dial(&mut self, at: &str) -> Result<(), Failed>
        ensures cause { HasCause (faults self.old) (faults self.new) result }
        ensures moved { went self.old (entry (channel.Dial at.now) (done result) ∷ []) self.new };

    /// Listens at the address `at`, and answers the port.
    fn listen(&mut self, at: &str) -> Result<u16, Failed>
        ensures cause { HasCause (faults self.old) (faults self.new) result }
        ensures moved { went self.old (entry (channel.Listen at.now) (listening result) ∷ []) self.new };

    /// Waits for the other end to call where this one listens.
    fn accept(&mut self) -> Result<(), Failed>
        ensures cause { HasCause (faults self.old) (faults self.new) result }
        ensures moved { went self.old (entry channel.Accept (done result) ∷ []) self.new };

    /// Sends all of `bytes`. After a failure the other end may get any front of them.
    fn send(&mut self, bytes: &[u8]) -> Result<(), Failed>
        ensures cause { HasCause (faults self.old) (faults self.new) result }
        ensures moved { went self.old (entry (channel.Send bytes.now) (done result) ∷ []) self.new };

    /// Takes the next bytes of the stream into the front of `buf`, and answers how many, at least 1, or 0 where the stream
    /// has ended.
    fn take(&mut self, buf: &mut [u8]) -> Result<usize, Failed>
        requires some { 0 < length buf.old }
        ensures cause { HasCause (faults self.old) (faults self.new) result }
        ensures within { IfOk result (λ count. count ≤ length buf.old) }
        ensures moved { went self.old (entry (channel.Take (length buf.old)) (gave result buf.new) ∷ []) self.new };

    /// Closes the stream. It always goes well.
    fn close(&mut self)
        ensures faults { faults self.new ≡ faults self.old }
        ensures moved { went self.old (entry channel.Close channel.Made ∷ []) self.new };

    /// By no moves a link stays as it is.
    ghost stays: { (link : Self) → went link [] link };

    /// A link that goes by some moves and then by others goes by all of them.
    ghost joins: { (old between new : Self) (first more : Journal) → went old first between → went between more new → went old (first ++ more) new };
}
