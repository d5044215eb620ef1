//! The other end of a link in memory.

ghost use Rattle.std.specs.Prelude.{◌≤◌, vec_len};

use std::alloc::{AllocError, Global};

/// What the other end of a link in memory does.
#[derive(Clone, Copy)]
pub struct PeerScript<'a> {
    /// The bytes that it sends. After them the stream ends.
    pub bytes: &'a [u8],
    /// How many bytes each take gives at most, in turn. Where this is 0, one byte; a later take gives all that it asks for,
    /// as far as there are bytes.
    pub pieces: &'a [usize],
    /// The port that each listening is given, in turn. Any further listening fails.
    pub ports: &'a [u16],
}

/// The other end, as far as it has come.
#[derive(Drop)]
pub struct Peer {
    /// All bytes that it sends.
    pub bytes: Vec<u8>,
    /// How many of them were taken.
    pub at: usize,
    /// How many bytes each take gives at most.
    pub pieces: Vec<usize>,
    /// How many takes gave a piece or the end; it stays at its last value.
    pub takes: usize,
    /// The ports.
    pub ports: Vec<u16>,
    /// How many ports were asked for; it stays at its last value.
    pub listens: usize,
    pub ghost within: { at ≤ vec_len bytes },
}

impl Peer {
    ghost use Rattle.std.specs.Prelude.{◌≡◌, ◌+◌, length, take, drop, min, IfOk, slice_get};
    ghost use Rattle.ghost_model.specs.core.Causes.{last_count};
    ghost use Rattle.edge_traits.specs.MemLinks.{left_of, next_port, next_size, IsNew, SamePlan};

    /// The other end that did nothing yet.
    pub fn new(alloc: Global, script: &PeerScript) -> Result<Peer, AllocError>
        ensures script { IfOk result (λ peer. IsNew script.now peer) }
    {
        Ok(Peer {
            bytes: Vec::from_slice(alloc, script.bytes)?,
            at: 0,
            pieces: Vec::from_slice(alloc, script.pieces)?,
            takes: 0,
            ports: Vec::from_slice(alloc, script.ports)?,
            listens: 0,
        })
    }

    /// How many bytes the next take gives where it asks for `most`: none at the end of the stream.
    pub fn next_size(&self, most: usize) -> usize
        ensures size { result ≡ next_size self.now most }
    {
        let piece = match self.pieces.get(self.takes) {
            Some(size) => (*size).max(1),
            None => most,
        };
        let left = self.bytes.len().saturating_sub(self.at);
        piece.min(most).min(left)
    }

    /// Gives the next bytes, as many as `place` has room for.
    pub fn give(&mut self, place: &mut [u8])
        requires left { length place.old ≤ length (left_of self.old) }
        ensures given { place.new ≡ take (length place.old) (left_of self.old) }
        ensures left { left_of self.new ≡ drop (length place.old) (left_of self.old) }
        ensures turn { self.new.takes ≡ min (self.old.takes + 1) last_count }
        ensures plan { SamePlan self.old self.new }
        ensures listens { self.new.listens ≡ self.old.listens }
    {
        let (_before, left) = self.bytes.split_at(self.at);
        let (front, _after) = left.split_at(place.len());
        place.copy_from_slice(front);
        self.at += place.len();
        self.takes = self.takes.saturating_add(1);
    }

    /// The port that the next listening is given, if there is one.
    pub fn next_port(&mut self) -> Option<u16>
        ensures port { result ≡ next_port self.old }
        ensures turn { self.new.listens ≡ min (self.old.listens + 1) last_count }
        ensures plan { SamePlan self.old self.new }
        ensures left { left_of self.new ≡ left_of self.old }
        ensures takes { self.new.takes ≡ self.old.takes }
    {
        let port = self.ports.get(self.listens).copied();
        self.listens = self.listens.saturating_add(1);
        port
    }
}
