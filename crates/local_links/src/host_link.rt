//! A link to a host in the key's own process.

ghost use Rattle.std.specs.Prelude.{◌≡◌, ◌≤◌, ◌<◌, ◌+◌, ◌++◌, ℕ, List, [], Some, length, take, drop, min, IfSome, MatchOption};
ghost use Rattle.ghost_model.specs.core.Causes.{Rose, last_count};
ghost use Rattle.ghost_model.specs.core.Channel as channel;
ghost use Rattle.ghost_model.specs.forms.Frames.{IsFrame, frame_bytes};
ghost use Rattle.ghost_model.specs.core.Host as standing;
ghost use Rattle.ghost_model.specs.core.Host.{Holding, Stand, Response, answer_to};
ghost use Rattle.edge_traits.specs.Files.{file_of};
ghost use Rattle.edge_traits.specs.Links.{entry, Steps, steps_stay, steps_join};
ghost use Rattle.host_exec.specs.Hosts.{Holds, StandsAs, name_of};
ghost use Rattle.session_laws.specs.Serving.{Desk, first_desk};
ghost use Rattle.local_links.specs.Desks.{Owes, ReadsWell};
ghost use Rattle.local_links.specs.Links.{IsAt, Served, HandsOn, Moves, IsSureLink, steps_left, depot_of, faults_of};

use crate::speech::Speech;
use channel_codec::reading::{Got, frame_of};
use edge_traits::Failed;
use edge_traits::depot::Depot;
use edge_traits::link::Link;
use host_exec::Host;

/// A link to a host in the key's own process, over the depot that has the host's file.
///
/// Each frame that is sent is answered at once, and the bytes of the answer are kept until they are taken, a frame at a
/// time. A take gives all that it asks for as far as there are bytes. Such a link neither listens nor accepts; no other
/// move on it fails.
#[derive(Drop)]
pub struct HostLink<D: Depot> {
    host: Host,
    depot: D,
    speech: Speech,
    faults: u64,
}

impl<D: Depot + Drop> HostLink<D> {
    /// A link to a host that awaits the key's greeting.
    pub fn new(host: Host, depot: D) -> HostLink<D>
        ensures faults { faults_of result ≡ 0 }
        ensures depot { depot_of result ≡ depot }
        ensures sure { D.sure depot (name_of host) → IsSureLink D.sure result }
        ensures stands { (held : Holding) (file : List ℕ) → file_of (D.contents depot) (name_of host) ≡ Some file → Holds held file host
            → StandsAs host file [] standing.Greeting → IsAt D.contents held result first_desk }
    {
        HostLink {
            host,
            depot,
            speech: Speech::new(),
            faults: 0,
        }
    }

    /// Counts a fault.
    fn fault(&mut self) -> Failed
        ensures count { self.new.faults ≡ min (self.old.faults + 1) last_count }
        ensures rose { Rose self.old.faults self.new.faults }
        ensures never_falls { self.old.faults ≤ self.new.faults }
        ensures same { self.new.host ≡ self.old.host }
        ensures depot { self.new.depot ≡ self.old.depot }
        ensures speech { self.new.speech ≡ self.old.speech }
    {
        self.faults = self.faults.saturating_add(1);
        Failed
    }
    /// Takes the bytes of a frame that the key sends. What is no frame of the key in its place is left alone.
    fn hear(&mut self, bytes: &[u8])
        ensures faults { self.new.faults ≡ self.old.faults }
        ensures depot { self.new.depot ≡ self.old.depot }
        ensures name { name_of self.new.host ≡ name_of self.old.host }
        ensures heard { (held : Holding) (desk : Desk) → IsAt D.contents held self.old desk → desk.owed ≡ []
            → Served D.contents held desk (entry (channel.Send bytes.now) channel.Made) self.new }
    {
        match frame_of(bytes) {
            Got::Frame(frame) => {
                let _taken = self.host.feed(&frame);
            }
            Got::Short(_) => {}
            Got::Bad(_) => {}
        }
    }

    /// Hands out the next bytes that are owed, behind the first `have` bytes of a buffer, and answers how many; `None`
    /// where nothing is owed.
    fn hand_on(&mut self, buf: &mut [u8], have: usize) -> Option<usize>
        requires room { have < length buf.old }
        ensures within { IfSome result (λ count. have + count ≤ length buf.old) }
        ensures front { take have buf.new ≡ take have buf.old }
        ensures faults { self.new.faults ≡ self.old.faults }
        ensures never_falls { D.faults self.old.depot ≤ D.faults self.new.depot }
        ensures fewer { IfSome result (λ count. steps_left self.new < steps_left self.old) }
        ensures stays_sure { IsSureLink D.sure self.old → IsSureLink D.sure self.new }
        ensures calm { IsSureLink D.sure self.old → D.faults self.new.depot ≡ D.faults self.old.depot }
        ensures handed { ReadsWell (IsSureLink D.sure self.old) (D.faults self.old.depot) (D.faults self.new.depot) → (held : Holding) (bytes : List ℕ) (stand : Stand)
            → Owes held (D.contents self.old.depot) self.old.host self.old.speech bytes stand
            → HandsOn bytes result (λ count. take count (drop have buf.new)) (λ rest. Owes held (D.contents self.new.depot) self.new.host self.new.speech rest stand) }
    {
        if !self.speech.refill(&mut self.host, &mut self.depot) {
            return None;
        }
        let (_front, place) = buf.split_at_mut(have);
        Some(self.speech.hand(place))
    }
}

impl<D: Depot + Drop> Link for HostLink<D> {
    ghost went = { Steps (Moves D.contents D.faults D.sure) };

    ghost faults = { λ link. link.faults };

    ghost stays = { steps_stay (Moves D.contents D.faults D.sure) };

    ghost joins = { steps_join (Moves D.contents D.faults D.sure) };

    fn dial(&mut self, _at: &str) -> Result<(), Failed> {
        let _count = self.faults;
        Ok(())
    }

    fn listen(&mut self, _at: &str) -> Result<u16, Failed> {
        Err(self.fault())
    }

    fn accept(&mut self) -> Result<(), Failed> {
        Err(self.fault())
    }

    fn send(&mut self, bytes: &[u8]) -> Result<(), Failed> {
        self.hear(bytes);
        Ok(())
    }

    fn take(&mut self, buf: &mut [u8]) -> Result<usize, Failed> {
        let mut have = 0;
        while have < buf.len() {
            match self.hand_on(buf, have) {
                None => return Ok(have),
                Some(count) => have += count,
            }
        }
        Ok(have)
    }

    fn close(&mut self) {
        let _count = self.faults;
    }
}
