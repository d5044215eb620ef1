//! Handing a piece whole to a sink.

ghost use Rattle.std.specs.Prelude.{◌≡◌, OnOk, OnErr};
ghost use Rattle.ghost_model.specs.core.Causes.{HasCause};
ghost use Rattle.edge_traits.specs.Written.{grown, GrowsByFront};

use crate::Failed;
use crate::sink::Sink;

/// Hands a piece whole to a sink, and what a short write left again.
///
/// After a failure the sink may have taken a front of the piece.
#[tactic(auto, using(crate::proofs::Growth::grown_on, crate::proofs::Growth::front_on))]
pub fn write_all<S: Sink>(sink: &mut S, piece: &[u8]) -> Result<(), Failed>
    ensures cause { HasCause (S.faults sink.old) (S.faults sink.new) result }
    ensures whole { OnOk result (S.written sink.new ≡ grown (S.written sink.old) piece.now) }
    ensures failed { OnErr result (GrowsByFront (S.written sink.old) piece.now (S.written sink.new)) }
{
    let mut at = 0;
    while at < piece.len() {
        at += sink.write(&piece[at..])?;
    }
    Ok(())
}
