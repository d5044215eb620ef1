//! How what a host says is handed out.

ghost use Rattle.std.specs.Prelude.{◌≡◌, ◌≤◌, ◌<◌, ◌+◌, ◌++◌, ◌⊎◌, ℕ, List, [], true, false, length, take, min};
ghost use Rattle.ghost_model.specs.core.Host.{Holding, Stand};
ghost use Rattle.host_exec.specs.Hosts.{IsSameHost, name_of, steps_of};
ghost use Rattle.local_links.specs.Desks.{kept, size_of, Owes, ReadsWell, Nearer};

use crate::speech::Speech;
use channel_codec::frame::FRAME_BYTES;
use edge_traits::depot::Depot;
use host_exec::Host;

impl Speech {
    /// Nothing.
    pub fn new() -> Speech
        ensures empty { kept result ≡ [] }
    {
        Speech {
            page: [0; FRAME_BYTES],
            from: 0,
            to: 0,
        }
    }

    /// Hands out the next bytes, as many as there are and as there is room for; answers how many.
    pub fn hand(&mut self, out: &mut [u8]) -> usize
        ensures count { result ≡ min (length out.old) (size_of self.old) }
        ensures left { size_of self.new + result ≡ size_of self.old }
        ensures handed { kept self.old ≡ take result out.new ++ kept self.new }
    {
        let count = out.len().min(self.to - self.from);
        let (place, _rest) = out.split_at_mut(count);
        let (_done, ahead) = self.page.split_at(self.from);
        let (piece, _later) = ahead.split_at(count);
        place.copy_from_slice(piece);
        self.from += count;
        count
    }

    /// Has the host say its next frame where all that it said was taken; answers whether it had one to say, or bytes are left.
    pub fn refill<D: Depot>(&mut self, host: &mut Host, depot: &mut D) -> bool
        ensures same { IsSameHost host.old host.new }
        ensures never_falls { D.faults depot.old ≤ D.faults depot.new }
        ensures appends { D.append_faults depot.new ≡ D.append_faults depot.old }
        ensures contents { D.contents depot.new ≡ D.contents depot.old }
        ensures stays_sure { D.sure depot.old (name_of host.old) → D.sure depot.new (name_of host.new) }
        ensures calm { D.sure depot.old (name_of host.old) → D.faults depot.new ≡ D.faults depot.old }
        ensures owed { ReadsWell (D.sure depot.old (name_of host.old)) (D.faults depot.old) (D.faults depot.new) → (held : Holding) (bytes : List ℕ) (stand : Stand)
            → Owes held (D.contents depot.old) host.old self.old bytes stand → Owes held (D.contents depot.new) host.new self.new bytes stand }
        ensures none { ReadsWell (D.sure depot.old (name_of host.old)) (D.faults depot.old) (D.faults depot.new) → (held : Holding) (bytes : List ℕ) (stand : Stand)
            → Owes held (D.contents depot.old) host.old self.old bytes stand → result ≡ false → bytes ≡ [] }
        ensures fewer { result ≡ true → Nearer (steps_of host.old) (size_of self.old) (steps_of host.new) (size_of self.new) }
    {
        if self.from < self.to {
            return true;
        }
        match host.reply(depot, &mut self.page) {
            None => false,
            Some(size) => {
                self.from = 0;
                self.to = size as usize;
                true
            }
        }
    }
}
