//! Filling a buffer from a link.

ghost use Rattle.std.specs.Prelude.{◌≡◌, ◌+◌, ◌-◌, ◌<◌, ◌≤◌, [], ◌∷◌, length, take, drop, IfOk};
ghost use Rattle.ghost_model.specs.core.Causes.{HasCause};
ghost use Rattle.ghost_model.specs.core.Channel as channel;
ghost use Rattle.edge_traits.specs.Links.{entry, gave};
ghost use Rattle.edge_traits.specs.Filling.{Fills};

use crate::Failed;
use crate::link::Link;

/// Takes once, behind the first `have` bytes of a buffer, which stay.
fn take_more<L: Link>(link: &mut L, buf: &mut [u8], have: usize) -> Result<usize, Failed>
    requires room { have < length buf.old }
    ensures cause { HasCause (L.faults link.old) (L.faults link.new) result }
    ensures within { IfOk result (λ count. have + count ≤ length buf.old) }
    ensures moved { L.went link.old (entry (channel.Take (length buf.old - have)) (gave result (drop have buf.new)) ∷ []) link.new }
    ensures front { take have buf.new ≡ take have buf.old }
{
    let (_front, rest) = buf.split_at_mut(have);
    link.take(rest)
}

/// Takes into `buf` until it is full or the stream ends, each time what is missing, and answers how many bytes came.
///
/// After a failure the front of `buf` holds what came before it.
pub fn fill<L: Link>(link: &mut L, buf: &mut [u8]) -> Result<usize, Failed>
    ensures cause { HasCause (L.faults link.old) (L.faults link.new) result }
    ensures within { IfOk result (λ count. count ≤ length buf.old) }
    ensures moved { Fills (λ journal. L.went link.old journal link.new) (length buf.old) result buf.new }
{
    let mut have = 0;
    while have < buf.len() {
        let count = take_more(link, buf, have)?;
        if count == 0 {
            return Ok(have);
        }
        have += count;
    }
    Ok(have)
}
