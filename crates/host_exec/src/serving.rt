//! How a host takes the frames of a key and answers them.

ghost use Rattle.std.specs.Prelude.{◌≡◌, ◌≤◌, ◌<◌, ◌⊎◌, ℕ, List, [], Some, None, true, false, is_some, MatchBool, IfSome, IfNone, IfOk, Err};
ghost use Rattle.ghost_model.specs.core.Channel as channel;
ghost use Rattle.ghost_model.specs.core.Host.{Holding, Stand, answer_to};
ghost use Rattle.channel_codec.specs.Views.{frame_view};
ghost use Rattle.edge_traits.specs.Files.{file_of};
ghost use Rattle.ghost_model.specs.core.Causes.{Rose};
ghost use Rattle.host_exec.specs.Holdings.{AreStarts};
ghost use Rattle.host_exec.specs.Checked.{IsImage, IsNoImage};
ghost use Rattle.host_exec.specs.Saying as saying;
ghost use Rattle.host_exec.specs.Hosts.{Holds, StandsAs, IsSameHost, IsAnswered, RefusedAs, SaysAs, name_of, steps_of};

use crate::begin::open;
use crate::host::Host;
use crate::reply::no_reply;
use crate::saying::{say_part, say_reply};
use crate::stage::{Said, Stage};
use crate::turning::{next_stage, take_ask};
use channel_codec::frame::{FRAME_BYTES, Frame};
use edge_traits::depot::Depot;
use std::alloc::{AllocError, Global};

/// Why a host was not begun.
#[derive(Clone, Copy, Debug)]
pub enum BeginFault {
    /// The depot failed, which its count of faults shows.
    Depot,
    /// The bytes of the file are no visible image of the version that is served.
    BadVisibleFile,
    /// There was no memory for the name of the file.
    NoMemory,
}

impl From<AllocError> for BeginFault {
    ghost use Rattle.host_exec.specs.declared.serving.BeginFault.TheVariants.{NoMemory};

    ghost from_gives = { λ _ fault. fault ≡ NoMemory };

    fn from(_error: AllocError) -> BeginFault {
        BeginFault::NoMemory
    }
}

impl Host {
    /// A host over the visible file `name`, which awaits the key's greeting. It keeps a copy of the name. Where the depot is
    /// sure of the file nothing but its bytes or want of memory stands in the way.
    pub fn begin<D: Depot>(alloc: Global, depot: &mut D, name: &str) -> Result<Host, BeginFault>
        ensures name { IfOk result (λ host. name_of host ≡ name.now) }
        ensures stage { IfOk result (λ host. host.stage ≡ Stage.Greeting) }
        ensures starts { IfOk result (λ host. AreStarts host.catalog host.starts.items) }
        ensures image { IfOk result (λ host. (file : List ℕ) → file_of (D.contents depot.old) name.now ≡ Some file → IsImage host.catalog file) }
        ensures bad { result ≡ Err BeginFault.BadVisibleFile → (file : List ℕ) → file_of (D.contents depot.old) name.now ≡ Some file → IsNoImage file }
        ensures memory { result ≡ Err BeginFault.NoMemory → (file : List ℕ) → file_of (D.contents depot.old) name.now ≡ Some file → IsNoImage file → ⊥ }
        ensures never_falls { D.faults depot.old ≤ D.faults depot.new }
        ensures failed { result ≡ Err BeginFault.Depot → Rose (D.faults depot.old) (D.faults depot.new) }
        ensures other { (result ≡ Err BeginFault.Depot → ⊥) → D.faults depot.new ≡ D.faults depot.old }
        ensures appends { D.append_faults depot.new ≡ D.append_faults depot.old }
        ensures same { D.contents depot.new ≡ D.contents depot.old }
        ensures goes_well { D.sure depot.old name.now → result ≡ Err BeginFault.Depot → ⊥ }
        ensures stays_sure { D.sure depot.old name.now → D.sure depot.new name.now }
    {
        match open(depot, name) {
            Err(_) => Err(BeginFault::Depot),
            Ok(None) => Err(BeginFault::BadVisibleFile),
            Ok(Some(opened)) => match String::from_str(alloc, name) {
                Err(_) => Err(BeginFault::NoMemory),
                Ok(name) => Ok(Host {
                    name,
                    catalog: opened.catalog,
                    starts: opened.places.starts,
                    reply: no_reply(),
                    stage: Stage::Greeting,
                }),
            },
        }
    }

    /// Takes an ask where the host awaits the one with this serial.
    fn hear_ask(&mut self, next: u64, frame: &Frame) -> bool
        requires stage { self.old.stage ≡ Stage.Listening next }
        requires none { saying.turned self.old.stage (frame_view frame.now) ≡ None }
        ensures same { IsSameHost self.old self.new }
        ensures kept { result ≡ false → self.new ≡ self.old }
        ensures owes { result ≡ true → saying.owes self.new.stage ≡ true }
        ensures fewer { result ≡ true → steps_of self.new < steps_of self.old }
        ensures answered { (held : Holding) (file : List ℕ) (stand : Stand) → Holds held file self.old → StandsAs self.old file [] stand
            → MatchBool result (IsAnswered held file stand (frame_view frame.now) self.new) (answer_to held stand (frame_view frame.now) ≡ None) }
    {
        match frame {
            Frame::Ask { serial, payload } => {
                if *serial as u64 != next {
                    return false;
                }
                match take_ask(&self.catalog, &self.starts, payload) {
                    None => false,
                    Some(reply) => {
                        self.reply = reply;
                        self.stage = Stage::Answering {
                            serial: *serial,
                            place: 0,
                            sent: 0,
                        };
                        true
                    }
                }
            }
            _ => false,
        }
    }

    /// Takes a frame of the key, and answers whether it came in its place; where it did not, the host stays as it was.
    pub fn feed(&mut self, frame: &Frame) -> bool
        ensures same { IsSameHost self.old self.new }
        ensures kept { result ≡ false → self.new ≡ self.old }
        ensures farewell { result ≡ true → self.new.stage ≡ Stage.Over → frame_view frame.now ≡ channel.ByeFrame }
        ensures busy { saying.owes self.old.stage ≡ true → result ≡ false }
        ensures fewer { result ≡ true → steps_of self.new < steps_of self.old }
        ensures silent { (file : List ℕ) (stand : Stand) → StandsAs self.old file [] stand → saying.owes self.old.stage ≡ false }
        ensures answered { (held : Holding) (file : List ℕ) (stand : Stand) → Holds held file self.old → saying.owes self.old.stage ≡ false
            → StandsAs self.old file [] stand
            → MatchBool result (IsAnswered held file stand (frame_view frame.now) self.new) (answer_to held stand (frame_view frame.now) ≡ None) }
    {
        match next_stage(self.stage, frame) {
            Some(stage) => {
                self.stage = stage;
                true
            }
            None => match self.stage {
                Stage::Listening { next } => self.hear_ask(next, frame),
                _ => false,
            },
        }
    }

    /// Says the next frame over the front of `out`, and tells where the host then stands; `None` where it has none to say.
    pub(crate) fn say<D: Depot>(
        &mut self,
        depot: &mut D,
        out: &mut [u8; FRAME_BYTES],
    ) -> Option<Said>
        ensures same { IsSameHost self.old self.new }
        ensures never_falls { D.faults depot.old ≤ D.faults depot.new }
        ensures appends { D.append_faults depot.new ≡ D.append_faults depot.old }
        ensures depot { D.contents depot.new ≡ D.contents depot.old }
        ensures stays_sure { D.sure depot.old (name_of self.old) → D.sure depot.new (name_of self.new) }
        ensures granted { D.sure depot.old (name_of self.old) → IfSome result (λ said. said.refused ≡ false) }
        ensures owed { is_some result ≡ saying.owes self.old.stage }
        ensures none { IfNone result (self.new ≡ self.old) }
        ensures quiet { IfNone result (D.faults depot.new ≡ D.faults depot.old) }
        ensures nothing { IfNone result ((file : List ℕ) (owed : List channel.Frame) (stand : Stand) → StandsAs self.old file owed stand → owed ≡ []) }
        ensures short { IfSome result (λ said. said.size ≤ 2048) }
        ensures fewer { IfSome result (λ said. steps_of self.new < steps_of self.old) }
        ensures rests { IfSome result (λ said. saying.rests self.new.stage ≡ true) }
        ensures told { IfSome result (λ said. MatchBool said.refused (Rose (D.faults depot.old) (D.faults depot.new)) (D.faults depot.new ≡ D.faults depot.old)) }
        ensures said { IfSome result (λ said. RefusedAs (D.sure depot.old (name_of self.old)) self.old (D.faults depot.old) (D.faults depot.new) said.size out.new self.new
            ⊎ ((D.faults depot.new ≡ D.faults depot.old) × ((file : List ℕ) (owed : List channel.Frame) (stand : Stand)
            → file_of (D.contents depot.old) (name_of self.old) ≡ Some file → StandsAs self.old file owed stand
            → SaysAs self.new file owed stand said.size out.new))) }
    {
        match self.stage {
            Stage::Welcoming { at } => {
                let said = say_part(&self.catalog, at, out);
                self.stage = said.stage;
                Some(said)
            }
            Stage::Answering {
                serial,
                place,
                sent,
            } => {
                let name = self.name.as_str();
                let said = say_reply(&mut self.reply, depot, name, serial, place, sent, out);
                self.stage = said.stage;
                Some(said)
            }
            _ => None,
        }
    }

    /// Says the next frame over the front of `out`, and answers how many bytes it has; `None` exactly where the host
    /// awaits a frame of the key, or the session is over. Where the depot fails, the ask is refused instead and ends; a depot
    /// that is sure of the file never does.
    pub fn reply<D: Depot>(&mut self, depot: &mut D, out: &mut [u8; FRAME_BYTES]) -> Option<u16>
        ensures same { IsSameHost self.old self.new }
        ensures owed { is_some result ≡ saying.owes self.old.stage }
        ensures none { IfNone result (self.new ≡ self.old) }
        ensures nothing { IfNone result ((file : List ℕ) (owed : List channel.Frame) (stand : Stand) → StandsAs self.old file owed stand → owed ≡ []) }
        ensures never_falls { D.faults depot.old ≤ D.faults depot.new }
        ensures appends { D.append_faults depot.new ≡ D.append_faults depot.old }
        ensures depot { D.contents depot.new ≡ D.contents depot.old }
        ensures stays_sure { D.sure depot.old (name_of self.old) → D.sure depot.new (name_of self.new) }
        ensures calm { D.sure depot.old (name_of self.old) → D.faults depot.new ≡ D.faults depot.old }
        ensures short { IfSome result (λ size. size ≤ 2048) }
        ensures fewer { IfSome result (λ size. steps_of self.new < steps_of self.old) }
        ensures said { IfSome result (λ size. RefusedAs (D.sure depot.old (name_of self.old)) self.old (D.faults depot.old) (D.faults depot.new) size out.new self.new
            ⊎ ((D.faults depot.new ≡ D.faults depot.old) × ((file : List ℕ) (owed : List channel.Frame) (stand : Stand)
            → file_of (D.contents depot.old) (name_of self.old) ≡ Some file → StandsAs self.old file owed stand
            → SaysAs self.new file owed stand size out.new))) }
    {
        let said = self.say(depot, out)?;
        Some(said.size as u16)
    }
}
