//! A link in memory.

ghost use Rattle.std.specs.Prelude.{◌≡◌, ◌+◌, ◌<◌, ◌≤◌, ◌⊎◌, true, false, Some, None, [], ◌∷◌, IfOk, OnOk, OnErr, MatchOption, slice_get, length, take, drop, min};
ghost use Rattle.ghost_model.specs.core.Causes.{HasCause, last_count};
ghost use Rattle.edge_traits.specs.Scripts.{IsFresh, IsNamed};
ghost use Rattle.ghost_model.specs.core.Channel as channel;
ghost use Rattle.edge_traits.specs.Links.{entry, done, listening, gave, GrewBy, grew_stays, grew_joins};
ghost use Rattle.edge_traits.specs.Told.{entries};
ghost use Rattle.edge_traits.specs.MemLinks.{journal_of, told_in, has_room, told_within, left_of, next_port, next_size, IsNew, move_room, byte_room, Passes, SamePlan, SameRoom};

use crate::Failed;
use crate::link::Link;
use crate::peer::{Peer, PeerScript};
use crate::script::Script;
use crate::told::{Told, ToldJournal, ToldMoves};
use std::alloc::{AllocError, Global};

/// The room of a link in memory.
#[derive(Clone, Copy)]
pub struct Room {
    /// How many moves there may be.
    pub moves: usize,
    /// How many bytes the addresses, what is sent and what is taken may have in all.
    pub bytes: usize,
}

/// A link whose other end does what a script says, and which tells its moves, in room that was reserved when it was made.
///
/// A call past its room is a fault, and from then on each call is one and the link tells its moves no longer. Each call
/// that its list names is a fault too, and so is listening where no port is left; these moves are told as failed. Closing
/// counts as a call and never fails. Calls may come in any order.
#[derive(Drop)]
pub struct MemLink {
    /// The moves so far, and their room.
    pub moves: ToldMoves,
    /// The other end.
    pub peer: Peer,
    /// Which calls fail.
    pub script: Script,
}

impl MemLink {
    /// A link that did not move yet, over such another end, that fails at the calls numbered in `fails`, from 1.
    pub fn new(
        alloc: Global,
        room: Room,
        peer: &PeerScript,
        fails: &[u64],
    ) -> Result<MemLink, AllocError>
        ensures told { IfOk result (λ link. journal_of link ≡ Some []) }
        ensures moves { IfOk result (λ link. move_room link.moves ≡ room.moves) }
        ensures bytes { IfOk result (λ link. byte_room link.moves ≡ room.bytes) }
        ensures faults { IfOk result (λ link. ⟦<MemLink as Link>⟧.faults link ≡ 0) }
        ensures peer { IfOk result (λ link. IsNew peer.now link.peer) }
        ensures script { IfOk result (λ link. IsFresh fails.now link.script) }
    {
        Ok(MemLink {
            moves: ToldMoves::new(alloc, room.moves, room.bytes)?,
            peer: Peer::new(alloc, peer)?,
            script: Script::new(alloc, fails)?,
        })
    }

    /// All moves so far, and nothing once a call went past the room.
    pub fn journal(&self) -> Option<ToldJournal<'_>>
        ensures told { MatchOption result (journal_of self.now ≡ None) (λ told. journal_of self.now ≡ Some (entries told.moves.now told.bytes.now)) }
    {
        self.moves.journal()
    }

    /// The count of failed calls.
    pub fn faults(&self) -> u64
        ensures count { result ≡ ⟦<MemLink as Link>⟧.faults self.now }
    {
        self.script.faults
    }

    /// Begins a call that keeps so many bytes. It fails where the list names it or there is no room.
    fn begin(&mut self, size: usize) -> Result<(), Failed>
        ensures cause { HasCause self.old.script.faults self.new.script.faults result }
        ensures passes { Passes self.old size ⊥ result self.new }
        ensures room { SameRoom self.old.moves self.new.moves }
        ensures told { has_room self.old.moves size ≡ true → self.new.moves ≡ self.old.moves }
        ensures stopped { has_room self.old.moves size ≡ false → told_in self.new.moves ≡ None }
        ensures peer { self.new.peer ≡ self.old.peer }
    {
        let has_room = self.moves.has_room(size);
        if !has_room {
            self.moves.stop();
        }
        self.script.begin()?;
        if !has_room {
            return Err(self.script.fault());
        }
        Ok(())
    }

    /// Begins listening at an address of so many bytes, and answers the next port. It fails also where none is left.
    fn port(&mut self, size: usize) -> Result<u16, Failed>
        ensures cause { HasCause self.old.script.faults self.new.script.faults result }
        ensures passes { Passes self.old size (next_port self.old.peer ≡ None) result self.new }
        ensures room { SameRoom self.old.moves self.new.moves }
        ensures told { has_room self.old.moves size ≡ true → self.new.moves ≡ self.old.moves }
        ensures stopped { has_room self.old.moves size ≡ false → told_in self.new.moves ≡ None }
        ensures port { IfOk result (λ port. next_port self.old.peer ≡ Some port) }
        ensures turn { OnOk result (self.new.peer.listens ≡ min (self.old.peer.listens + 1) last_count) }
        ensures takes { self.new.peer.takes ≡ self.old.peer.takes }
        ensures left { left_of self.new.peer ≡ left_of self.old.peer }
        ensures plan { SamePlan self.old.peer self.new.peer }
    {
        self.begin(size)?;
        match self.peer.next_port() {
            Some(port) => Ok(port),
            None => Err(self.script.fault()),
        }
    }

    /// Takes the next piece of the stream, all of `place`, and answers its length.
    fn piece(&mut self, place: &mut [u8]) -> Result<usize, Failed>
        requires left { length place.old ≤ length (left_of self.old.peer) }
        ensures cause { HasCause self.old.script.faults self.new.script.faults result }
        ensures passes { Passes self.old (length place.old) ⊥ result self.new }
        ensures room { SameRoom self.old.moves self.new.moves }
        ensures told { has_room self.old.moves (length place.old) ≡ true → self.new.moves ≡ self.old.moves }
        ensures stopped { has_room self.old.moves (length place.old) ≡ false → told_in self.new.moves ≡ None }
        ensures size { IfOk result (λ size. size ≡ length place.old) }
        ensures given { OnOk result (place.new ≡ take (length place.old) (left_of self.old.peer)) }
        ensures left { OnOk result (left_of self.new.peer ≡ drop (length place.old) (left_of self.old.peer)) }
        ensures turn { OnOk result (self.new.peer.takes ≡ min (self.old.peer.takes + 1) last_count) }
        ensures listens { self.new.peer.listens ≡ self.old.peer.listens }
        ensures plan { SamePlan self.old.peer self.new.peer }
        ensures kept { OnErr result (self.new.peer ≡ self.old.peer) }
    {
        let size = place.len();
        self.begin(size)?;
        self.peer.give(place);
        Ok(size)
    }
}

impl Link for MemLink {
    ghost went = { λ old moves new. GrewBy (journal_of old) moves (journal_of new) };

    ghost faults = { λ link. link.script.faults };

    ghost stays = { λ link. grew_stays (journal_of link) };

    ghost joins = { λ old between new. grew_joins (journal_of old) (journal_of between) (journal_of new) };

    #[tactic(auto, using(crate::proofs::ToldEntries::told_made, crate::proofs::ToldEntries::grew_within))]
    fn dial(&mut self, at: &str) -> Result<(), Failed>
        ensures cause { HasCause self.old.script.faults self.new.script.faults result }
        ensures moved { GrewBy (journal_of self.old) (entry (channel.Dial at.now) (done result) ∷ []) (journal_of self.new) }
        ensures told { journal_of self.new ≡ told_within (has_room self.old.moves (length at.now)) (journal_of self.old) (entry (channel.Dial at.now) (done result) ∷ []) }
        ensures passes { Passes self.old (length at.now) ⊥ result self.new }
        ensures room { SameRoom self.old.moves self.new.moves }
        ensures peer { self.new.peer ≡ self.old.peer }
    {
        let size = at.len();
        let answer = self.begin(size);
        self.moves.add(Told::Dial { size, answer }, at.as_bytes());
        answer
    }

    #[tactic(auto, using(crate::proofs::ToldEntries::told_made, crate::proofs::ToldEntries::grew_within))]
    fn listen(&mut self, at: &str) -> Result<u16, Failed>
        ensures cause { HasCause self.old.script.faults self.new.script.faults result }
        ensures moved { GrewBy (journal_of self.old) (entry (channel.Listen at.now) (listening result) ∷ []) (journal_of self.new) }
        ensures told { journal_of self.new ≡ told_within (has_room self.old.moves (length at.now)) (journal_of self.old) (entry (channel.Listen at.now) (listening result) ∷ []) }
        ensures passes { Passes self.old (length at.now) (next_port self.old.peer ≡ None) result self.new }
        ensures room { SameRoom self.old.moves self.new.moves }
        ensures port { IfOk result (λ port. next_port self.old.peer ≡ Some port) }
        ensures turn { OnOk result (self.new.peer.listens ≡ min (self.old.peer.listens + 1) last_count) }
        ensures takes { self.new.peer.takes ≡ self.old.peer.takes }
        ensures left { left_of self.new.peer ≡ left_of self.old.peer }
        ensures plan { SamePlan self.old.peer self.new.peer }
    {
        let size = at.len();
        let answer = self.port(size);
        self.moves.add(Told::Listen { size, answer }, at.as_bytes());
        answer
    }

    #[tactic(auto, using(crate::proofs::ToldEntries::told_made, crate::proofs::ToldEntries::grew_within))]
    fn accept(&mut self) -> Result<(), Failed>
        ensures cause { HasCause self.old.script.faults self.new.script.faults result }
        ensures moved { GrewBy (journal_of self.old) (entry channel.Accept (done result) ∷ []) (journal_of self.new) }
        ensures told { journal_of self.new ≡ told_within (has_room self.old.moves 0) (journal_of self.old) (entry channel.Accept (done result) ∷ []) }
        ensures passes { Passes self.old 0 ⊥ result self.new }
        ensures room { SameRoom self.old.moves self.new.moves }
        ensures peer { self.new.peer ≡ self.old.peer }
    {
        let answer = self.begin(0);
        self.moves.add(Told::Accept { answer }, &[]);
        answer
    }

    #[tactic(auto, using(crate::proofs::ToldEntries::told_made, crate::proofs::ToldEntries::grew_within))]
    fn send(&mut self, bytes: &[u8]) -> Result<(), Failed>
        ensures cause { HasCause self.old.script.faults self.new.script.faults result }
        ensures moved { GrewBy (journal_of self.old) (entry (channel.Send bytes.now) (done result) ∷ []) (journal_of self.new) }
        ensures told { journal_of self.new ≡ told_within (has_room self.old.moves (length bytes.now)) (journal_of self.old) (entry (channel.Send bytes.now) (done result) ∷ []) }
        ensures passes { Passes self.old (length bytes.now) ⊥ result self.new }
        ensures room { SameRoom self.old.moves self.new.moves }
        ensures peer { self.new.peer ≡ self.old.peer }
    {
        let size = bytes.len();
        let answer = self.begin(size);
        self.moves.add(Told::Send { size, answer }, bytes);
        answer
    }

    #[tactic(auto, using(crate::proofs::ToldEntries::told_made, crate::proofs::ToldEntries::grew_within))]
    fn take(&mut self, buf: &mut [u8]) -> Result<usize, Failed>
        requires some { 0 < length buf.old }
        ensures cause { HasCause self.old.script.faults self.new.script.faults result }
        ensures moved { GrewBy (journal_of self.old) (entry (channel.Take (length buf.old)) (gave result buf.new) ∷ []) (journal_of self.new) }
        ensures told { journal_of self.new ≡ told_within (has_room self.old.moves (next_size self.old.peer (length buf.old))) (journal_of self.old) (entry (channel.Take (length buf.old)) (gave result buf.new) ∷ []) }
        ensures passes { Passes self.old (next_size self.old.peer (length buf.old)) ⊥ result self.new }
        ensures room { SameRoom self.old.moves self.new.moves }
        ensures within { IfOk result (λ count. count ≤ length buf.old) }
        ensures size { IfOk result (λ count. count ≡ next_size self.old.peer (length buf.old)) }
        ensures given { IfOk result (λ count. take count buf.new ≡ take count (left_of self.old.peer)) }
        ensures left { IfOk result (λ count. left_of self.new.peer ≡ drop count (left_of self.old.peer)) }
        ensures turn { OnOk result (self.new.peer.takes ≡ min (self.old.peer.takes + 1) last_count) }
        ensures listens { self.new.peer.listens ≡ self.old.peer.listens }
        ensures plan { SamePlan self.old.peer self.new.peer }
        ensures kept { OnErr result (self.new.peer ≡ self.old.peer) }
    {
        let most = buf.len();
        let size = self.peer.next_size(most);
        let answer = self.piece(&mut buf[..size]);
        let given = answer.unwrap_or(0);
        self.moves.add(Told::Take { most, answer }, &buf[..given]);
        answer
    }

    #[tactic(auto, using(crate::proofs::ToldEntries::grew_within))]
    fn close(&mut self)
        ensures faults { self.new.script.faults ≡ self.old.script.faults }
        ensures moved { GrewBy (journal_of self.old) (entry channel.Close channel.Made ∷ []) (journal_of self.new) }
        ensures told { journal_of self.new ≡ told_within (has_room self.old.moves 0) (journal_of self.old) (entry channel.Close channel.Made ∷ []) }
        ensures calls { self.new.script.calls ≡ min (self.old.script.calls + 1) last_count }
        ensures fails { self.new.script.fails ≡ self.old.script.fails }
        ensures room { SameRoom self.old.moves self.new.moves }
        ensures peer { self.new.peer ≡ self.old.peer }
    {
        self.script.calls = self.script.calls.saturating_add(1);
        self.moves.add(Told::Close, &[]);
    }
}
