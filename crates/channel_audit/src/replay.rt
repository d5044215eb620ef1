//! A link that answers one move as a line tells.

ghost use Rattle.std.specs.Prelude.{◌≡◌, ◌+◌, ◌≤◌, min};
ghost use Rattle.ghost_model.specs.core.Causes.{Rose, last_count};
ghost use Rattle.edge_traits.specs.Links.{Steps, steps_stay, steps_join};
ghost use Rattle.channel_audit.specs.Replays.{Replayed};

use crate::line::{Given, Line};
use edge_traits::Failed;
use edge_traits::link::Link;

/// A link that answers the move of a line as the line tells. Any other call fails.
#[derive(Drop)]
pub(crate) struct Replay<'a> {
    line: Line<'a>,
    faults: u64,
}

impl<'a> Replay<'a> {
    /// A link for a line.
    pub(crate) fn new(line: Line<'a>) -> Replay<'a>
        ensures line { result.line ≡ line.entry }
    {
        Replay { line, faults: 0 }
    }

    /// Counts a fault.
    fn fault(&mut self) -> Failed
        ensures count { self.new.faults ≡ min (self.old.faults + 1) last_count }
        ensures rose { Rose self.old.faults self.new.faults }
        ensures never_falls { self.old.faults ≤ self.new.faults }
        ensures same { self.new.line ≡ self.old.line }
    {
        self.faults = self.faults.saturating_add(1);
        Failed
    }
}

impl Link for Replay<'_> {
    ghost went = { Steps Replayed };

    ghost faults = { λ replay. replay.faults };

    ghost stays = { steps_stay Replayed };

    ghost joins = { steps_join Replayed };

    fn dial(&mut self, _at: &str) -> Result<(), Failed> {
        match self.line {
            Line::Dial { well: true } => Ok(()),
            _ => Err(self.fault()),
        }
    }

    fn listen(&mut self, _at: &str) -> Result<u16, Failed> {
        Err(self.fault())
    }

    fn accept(&mut self) -> Result<(), Failed> {
        Err(self.fault())
    }

    fn send(&mut self, _bytes: &[u8]) -> Result<(), Failed> {
        match self.line {
            Line::Send { well: true, .. } => Ok(()),
            _ => Err(self.fault()),
        }
    }

    fn take(&mut self, buf: &mut [u8]) -> Result<usize, Failed> {
        let Line::Take { given, .. } = self.line else {
            return Err(self.fault());
        };
        match given {
            Given::Piece(bytes) => {
                if bytes.len() > buf.len() {
                    return Err(self.fault());
                }
                let (place, _rest) = buf.split_at_mut(bytes.len());
                place.copy_from_slice(bytes);
                Ok(bytes.len())
            }
            Given::End => Ok(0),
            Given::Failed => Err(self.fault()),
        }
    }

    fn close(&mut self) {
        let _count = self.faults;
    }
}
