//! A whole session of a host over a link.

ghost use Rattle.std.specs.Prelude.{◌≡◌, ◌≤◌, ◌<◌, ◌+◌, ◌||◌, ℕ, List, [], Some, true, false, is_ok, length, take, IfSome, IfNone, IfOk, MatchBool, MatchOption};
ghost use Rattle.ghost_model.specs.core.Causes.{Rose};
ghost use Rattle.ghost_model.specs.forms.Frames.{AreBytes};
ghost use Rattle.ghost_model.specs.core.Host.{Holding, Stand};
ghost use Rattle.edge_traits.specs.Counting.{WentCounting};
ghost use Rattle.edge_traits.specs.Files.{file_of};
ghost use Rattle.host_exec.specs.Hosts.{Holds, StandsAs, IsSameHost, name_of, steps_of};
ghost use Rattle.host_exec.specs.Sessions.{Came, Lost, is_bad, IsWhole, BeginsAs, HeardAs, IsRefused, Speaks, Turns, Serves, closed, HoldsIn, is_answered, was_refused, size_of, IsOneFrame};

use crate::host::Host;
use crate::stage::Stage;
use channel_codec::frame::FRAME_BYTES;
use channel_codec::reading::{Got, frame_of, kind_in};
use edge_traits::Failed;
use edge_traits::depot::Depot;
use edge_traits::link::Link;
use edge_traits::taking::fill;
use tree_schema::catalog_len;

/// How a session ended.
#[derive(Clone, Copy)]
pub enum Served {
    /// The key said farewell.
    Bye,
    /// The key said farewell; a reading of the host's file had failed, and the reply to that ask was refused.
    Depot,
    /// A move on the link failed, or the stream ended before the key's farewell.
    Link,
    /// A frame was no frame of the key in its place: its first byte, and how many bytes came before it.
    BadRequest { kind: u8, at: u64 },
}

/// What came of one frame of the key.
#[derive(Clone, Copy)]
pub enum Turn {
    /// It had so many bytes and was answered, perhaps by a refusal.
    Answered { size: usize, refused: bool },
    /// A move on the link failed, or the stream ended.
    Lost,
    /// It was no frame of the key in its place; its first byte.
    Bad(u8),
}

/// Whether one of two holds.
fn either(one: bool, other: bool) -> bool
    ensures value { result ≡ (one || other) }
{
    one || other
}

/// A byte is less than 256.
fn are_bytes(_bytes: &[u8])
    ensures { AreBytes _bytes.now }
{}

/// Takes until a buffer is full; answers whether that went well.
fn fill_whole<L: Link>(link: &mut L, buf: &mut [u8]) -> bool
    ensures came { MatchBool result (Came (λ journal. WentCounting (λ one. L.went link.old one link.new) (L.faults link.old) (L.faults link.new) journal) buf.new false) (Lost (λ journal. WentCounting (λ one. L.went link.old one link.new) (L.faults link.old) (L.faults link.new) journal)) }
{
    match fill(link, buf) {
        Ok(count) => count == buf.len(),
        Err(_) => false,
    }
}

/// Takes the bytes of the key's next frame to the front of a page: its header, and then the payload that the header names.
/// Answers how many bytes they are; `None` where a move failed or the stream ended.
fn take_bytes<L: Link>(link: &mut L, page: &mut [u8; FRAME_BYTES]) -> Option<usize>
    ensures short { IfSome result (λ size. size ≤ 2048) }
    ensures long { IfSome result (λ size. 8 ≤ size) }
    ensures whole { IfSome result (λ size. IsWhole (take size page.new)) }
    ensures came { MatchOption result (Lost (λ journal. WentCounting (λ one. L.went link.old one link.new) (L.faults link.old) (L.faults link.new) journal)) (λ size. Came (λ journal. WentCounting (λ one. L.went link.old one link.new) (L.faults link.old) (L.faults link.new) journal) (take size page.new) false) }
{
    let (header, rest) = page.split_at_mut(8);
    if !fill_whole(link, header) {
        return None;
    }
    are_bytes(header);
    match frame_of(header) {
        Got::Short(missing) => {
            let (payload, _after) = rest.split_at_mut(missing as usize);
            if !fill_whole(link, payload) {
                return None;
            }
            are_bytes(payload);
            Some(8 + missing as usize)
        }
        Got::Frame(_) => Some(8),
        Got::Bad(_) => Some(8),
    }
}

impl Host {
    /// Takes the bytes of a frame; answers the first of them where they are no frame of the key in its place.
    fn hear(&mut self, bytes: &[u8]) -> Option<u8>
        requires long { 8 ≤ length bytes.now }
        ensures same { IsSameHost self.old self.new }
        ensures fewer { IfNone result (steps_of self.new < steps_of self.old) }
        ensures cut { IsWhole bytes.now → IfNone result (IsOneFrame bytes.now self.new) }
        ensures named { IfSome result (λ kind. BeginsAs kind bytes.now) }
        ensures heard { IsWhole bytes.now → (held : Holding) (file : List ℕ) (stand : Stand) → Holds held file self.old → StandsAs self.old file [] stand
            → MatchOption result (HeardAs held file stand bytes.now self.new) (λ kind. IsRefused held stand bytes.now kind) }
    {
        match frame_of(bytes) {
            Got::Frame(frame) => {
                if self.feed(&frame) {
                    None
                } else {
                    Some(kind_in(bytes))
                }
            }
            // The bytes of a frame are never short.
            Got::Short(_) => Some(kind_in(bytes)),
            Got::Bad(kind) => Some(kind),
        }
    }

    /// Sends each frame that the host owes, by one send each; answers whether one of them refuses a reply.
    fn speak<L: Link, D: Depot>(
        &mut self,
        link: &mut L,
        depot: &mut D,
        page: &mut [u8; FRAME_BYTES],
    ) -> Result<bool, Failed>
        ensures same { IsSameHost self.old self.new }
        ensures contents { D.contents depot.new ≡ D.contents depot.old }
        ensures appends { D.append_faults depot.new ≡ D.append_faults depot.old }
        ensures never_falls { D.faults depot.old ≤ D.faults depot.new }
        ensures stays_sure { D.sure depot.old (name_of self.old) → D.sure depot.new (name_of self.new) }
        ensures calm { D.sure depot.old (name_of self.old) → D.faults depot.new ≡ D.faults depot.old }
        ensures granted { D.sure depot.old (name_of self.old) → IfOk result (λ refused. refused ≡ false) }
        ensures nearer { steps_of self.new ≤ steps_of self.old }
        ensures over { self.new.stage ≡ Stage.Over → self.old.stage ≡ Stage.Over }
        ensures told { IfOk result (λ refused. MatchBool refused (Rose (D.faults depot.old) (D.faults depot.new)) (D.faults depot.new ≡ D.faults depot.old)) }
        ensures speaks { Speaks (λ journal. WentCounting (λ one. L.went link.old one link.new) (L.faults link.old) (L.faults link.new) journal) (is_ok result) (D.faults depot.old) (D.faults depot.new)
            (λ file owed stand. (file_of (D.contents depot.old) (name_of self.old) ≡ Some file) × StandsAs self.old file owed stand) self.old self.new }
    {
        let mut refused = false;
        'frames: loop {
            match self.say(depot, page) {
                None => return Ok(refused),
                Some(said) => {
                    refused = either(refused, said.refused);
                    let (bytes, _rest) = page.split_at(said.size);
                    match link.send(bytes) {
                        Ok(()) => {}
                        Err(failed) => return Err(failed),
                    }
                }
            }
        }
    }

    /// Takes one frame of the key and answers it.
    fn take_turn<L: Link, D: Depot>(
        &mut self,
        link: &mut L,
        depot: &mut D,
        page: &mut [u8; FRAME_BYTES],
    ) -> Turn
        ensures same { IsSameHost self.old self.new }
        ensures contents { D.contents depot.new ≡ D.contents depot.old }
        ensures appends { D.append_faults depot.new ≡ D.append_faults depot.old }
        ensures never_falls { D.faults depot.old ≤ D.faults depot.new }
        ensures stays_sure { D.sure depot.old (name_of self.old) → D.sure depot.new (name_of self.new) }
        ensures calm { D.sure depot.old (name_of self.old) → D.faults depot.new ≡ D.faults depot.old }
        ensures granted { D.sure depot.old (name_of self.old) → was_refused result ≡ false }
        ensures fewer { is_answered result ≡ true → steps_of self.new < steps_of self.old }
        ensures short { size_of result ≤ 2048 }
        ensures untouched { is_bad result ≡ true → D.faults depot.new ≡ D.faults depot.old }
        ensures told { is_answered result ≡ true → MatchBool (was_refused result) (Rose (D.faults depot.old) (D.faults depot.new)) (D.faults depot.new ≡ D.faults depot.old) }
        ensures turns { Turns (λ journal. WentCounting (λ one. L.went link.old one link.new) (L.faults link.old) (L.faults link.new) journal) result (D.faults depot.old) (D.faults depot.new)
            (λ held file stand. (file_of (D.contents depot.old) (name_of self.old) ≡ Some file) × Holds held file self.old × StandsAs self.old file [] stand) self.new }
    {
        let size = match take_bytes(link, page) {
            None => return Turn::Lost,
            Some(size) => size,
        };
        let (bytes, _rest) = page.split_at(size);
        match self.hear(bytes) {
            Some(kind) => return Turn::Bad(kind),
            None => {}
        }
        match self.speak(link, depot, page) {
            Ok(refused) => Turn::Answered { size, refused },
            Err(_) => Turn::Lost,
        }
    }

    /// Takes the frames of the key and answers each, until the key says farewell or the session cannot go on.
    fn take_turns<L: Link, D: Depot>(&mut self, link: &mut L, depot: &mut D) -> Served
        requires begins { self.old.stage ≡ Stage.Greeting }
        ensures same { IsSameHost self.old self.new }
        ensures contents { D.contents depot.new ≡ D.contents depot.old }
        ensures appends { D.append_faults depot.new ≡ D.append_faults depot.old }
        ensures never_falls { D.faults depot.old ≤ D.faults depot.new }
        ensures stays_sure { D.sure depot.old (name_of self.old) → D.sure depot.new (name_of self.new) }
        ensures calm { D.sure depot.old (name_of self.old) → D.faults depot.new ≡ D.faults depot.old }
        ensures granted { D.sure depot.old (name_of self.old) → result ≡ Served.Depot → ⊥ }
        ensures serves { Serves (λ journal. WentCounting (λ one. L.went link.old one link.new) (L.faults link.old) (L.faults link.new) journal) [] result (D.faults depot.old) (D.faults depot.new)
            (λ held. HoldsIn (λ file. file_of (D.contents depot.old) (name_of self.old) ≡ Some file) held self.old) }
    {
        let _bytes = catalog_len(&self.catalog);
        let mut page = [0; FRAME_BYTES];
        let mut at = 0;
        let mut failed = false;
        'turns: loop {
            match self.take_turn(link, depot, &mut page) {
                Turn::Lost => return Served::Link,
                Turn::Bad(kind) => return Served::BadRequest { kind, at },
                Turn::Answered { size, refused } => {
                    at += size as u64;
                    failed = either(failed, refused);
                }
            }
            if let Stage::Over = self.stage {
                return if failed { Served::Depot } else { Served::Bye };
            }
        }
    }

    /// Serves one key on a link that is connected, from the key's greeting to its farewell, and closes the link. The host
    /// awaits the greeting. The depot has the host's file.
    ///
    /// The frames of the key may be cut anywhere. Each frame of the host is one send. Where a reading of the file fails, a
    /// refusal stands in the place of the frame that would have come, which ends that ask; the session goes on, and the
    /// frames of the key are judged so. Over a depot that is sure of the file nothing is refused. `Link` comes exactly where a
    /// move failed or the stream ended; the link's count of failed calls rises exactly where a move failed.
    pub fn serve<L: Link, D: Depot>(&mut self, link: &mut L, depot: &mut D) -> Served
        requires begins { self.old.stage ≡ Stage.Greeting }
        ensures same { IsSameHost self.old self.new }
        ensures contents { D.contents depot.new ≡ D.contents depot.old }
        ensures appends { D.append_faults depot.new ≡ D.append_faults depot.old }
        ensures never_falls { D.faults depot.old ≤ D.faults depot.new }
        ensures stays_sure { D.sure depot.old (name_of self.old) → D.sure depot.new (name_of self.new) }
        ensures calm { D.sure depot.old (name_of self.old) → D.faults depot.new ≡ D.faults depot.old }
        ensures granted { D.sure depot.old (name_of self.old) → result ≡ Served.Depot → ⊥ }
        ensures serves { Serves (λ journal. WentCounting (λ one. L.went link.old one link.new) (L.faults link.old) (L.faults link.new) journal) closed result (D.faults depot.old) (D.faults depot.new)
            (λ held. HoldsIn (λ file. file_of (D.contents depot.old) (name_of self.old) ≡ Some file) held self.old) }
    {
        let served = self.take_turns(link, depot);
        link.close();
        served
    }
}
