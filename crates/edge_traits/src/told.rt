//! The moves of a link, kept in room that was reserved before.

ghost use Rattle.std.specs.Prelude.{◌≡◌, length};
ghost use Rattle.edge_traits.specs.Told.{sizes};

use crate::{Failed, room};
use std::alloc::{AllocError, Global};

/// A move with its answer. Its bytes are kept elsewhere, and only their number stands here.
#[derive(Clone, Copy)]
pub enum Told {
    /// A call of the other end, at an address.
    Dial {
        /// How many bytes the address has.
        size: usize,
        /// What was answered.
        answer: Result<(), Failed>,
    },
    /// Listening at an address.
    Listen {
        /// How many bytes the address has.
        size: usize,
        /// What was answered: the port.
        answer: Result<u16, Failed>,
    },
    /// A wait for the other end.
    Accept {
        /// What was answered.
        answer: Result<(), Failed>,
    },
    /// Bytes sent.
    Send {
        /// How many.
        size: usize,
        /// What was answered.
        answer: Result<(), Failed>,
    },
    /// Bytes taken.
    Take {
        /// How many were asked for.
        most: usize,
        /// What was answered: how many came, 0 at the end of the stream.
        answer: Result<usize, Failed>,
    },
    /// The end.
    Close,
}

/// All moves of a link, the oldest first.
#[derive(Clone, Copy)]
pub struct ToldJournal<'a> {
    /// The moves with their answers.
    pub moves: &'a [Told],
    /// The bytes of addresses, of what was sent and of what was taken, one move's after another's.
    pub bytes: &'a [u8],
}

/// The moves of a link as long as they have room.
#[derive(Drop)]
pub struct ToldMoves {
    list: Vec<Told>,
    bytes: Vec<u8>,
    telling: bool,
    ghost sized: { sizes list.items ≡ length bytes.items },
}

impl ToldMoves {
    ghost use Rattle.std.specs.Prelude.{◌∷◌, [], Some, None, IfOk, MatchOption, length};
    ghost use Rattle.edge_traits.specs.Told.{entries, entry_of, size_of};
    ghost use Rattle.edge_traits.specs.MemLinks.{told_in, has_room, told_within, move_room, byte_room, SameRoom};

    /// Room for so many moves with so many bytes in all, and no move yet.
    pub fn new(alloc: Global, moves: usize, bytes: usize) -> Result<ToldMoves, AllocError>
        ensures none { IfOk result (λ told. told_in told ≡ Some []) }
        ensures moves { IfOk result (λ told. move_room told ≡ moves) }
        ensures bytes { IfOk result (λ told. byte_room told ≡ bytes) }
    {
        Ok(ToldMoves {
            list: Vec::with_capacity(alloc, moves)?,
            bytes: Vec::with_capacity(alloc, bytes)?,
            telling: true,
        })
    }

    /// The moves so far, and nothing once a move had no room.
    pub fn journal(&self) -> Option<ToldJournal<'_>>
        ensures told { MatchOption result (told_in self.now ≡ None) (λ told. told_in self.now ≡ Some (entries told.moves.now told.bytes.now)) }
    {
        if !self.telling {
            return None;
        }
        Some(ToldJournal {
            moves: &self.list,
            bytes: &self.bytes,
        })
    }

    /// Whether the moves are told, and one more with so many bytes has room.
    pub fn has_room(&self, size: usize) -> bool
        ensures room { result ≡ has_room self.now size }
    {
        self.telling && self.list.len() < self.list.capacity() && room::has_room(&self.bytes, size)
    }

    /// Tells the moves no longer.
    pub fn stop(&mut self)
        ensures none { told_in self.new ≡ None }
        ensures room { SameRoom self.old self.new }
    {
        self.telling = false;
    }

    /// Adds a move, or tells the moves no longer where it has no room.
    pub fn add(&mut self, told: Told, bytes: &[u8])
        requires sized { size_of told ≡ length bytes.now }
        ensures told { told_in self.new ≡ told_within (has_room self.old (length bytes.now)) (told_in self.old) (entry_of told bytes.now ∷ []) }
        ensures room { SameRoom self.old self.new }
    {
        if !self.has_room(bytes.len()) {
            self.stop();
            return;
        }
        self.list.push_reserved(told);
        room::add(&mut self.bytes, bytes);
    }
}
