//! Files in memory, each in a slot whose room was reserved when it was made.

ghost use Rattle.std.specs.Prelude.{◌≡◌, ◌++◌, ◌+◌, ◌≤◌, IfOk, IsTrue, MatchOption, Some, None, false, length, vec_len, vec_capacity};
ghost use Rattle.std.specs.List.{position};
ghost use Rattle.std.specs.FinMap as map;
ghost use Rattle.edge_traits.specs.Files.{or_empty};
ghost use Rattle.edge_traits.specs.Slots.{HasRoom, KeepsRoom, empty, is_named};

use crate::room;
use std::alloc::{AllocError, Global};
use std::marker::Model;

/// The room of one file.
#[derive(Drop)]
struct Slot {
    name: Vec<u8>,
    bytes: Vec<u8>,
}

/// Files by name, each in room for so many bytes of its name and of itself. No call on them takes memory.
#[derive(Drop)]
pub struct Slots {
    slots: Vec<Slot>,
    used: usize,
    name_bytes: usize,
    file_bytes: usize,
}

impl Model for Slots {
    ghost use Rattle.edge_traits.specs.Slots.{Stored, AreSlots, stored_code, stored_in};

    ghost Value = { Stored };

    ghost coded = { stored_code };

    ghost view = { λ slots. stored_in slots.used slots.name_bytes slots.file_bytes slots.slots.items };

    ghost invariant = { λ slots. AreSlots slots.used slots.name_bytes slots.file_bytes slots.slots.items };
}

/// The place of the first slot with that name.
fn place_of(slots: &[Slot], name: &[u8]) -> Option<usize>
    ensures { result ≡ position (is_named name.now) slots.now }
{
    slots.iter().position(|slot| name == slot.name.as_slice())
}

/// Puts a file into a slot, where the slot has room for it, and else leaves the slot as it is.
fn fill(slot: &mut Slot, name: &[u8], bytes: &[u8]) -> bool
    ensures name { IsTrue result → slot.new.name.items ≡ name.now }
    ensures bytes { IsTrue result → slot.new.bytes.items ≡ bytes.now }
    ensures refused { result ≡ false → slot.new ≡ slot.old }
    ensures fits { length name.now ≤ vec_capacity slot.old.name → length bytes.now ≤ vec_capacity slot.old.bytes → IsTrue result }
    ensures name_room { vec_capacity slot.new.name ≡ vec_capacity slot.old.name }
    ensures bytes_room { vec_capacity slot.new.bytes ≡ vec_capacity slot.old.bytes }
{
    if name.len() > slot.name.capacity() || bytes.len() > slot.bytes.capacity() {
        return false;
    }
    slot.name.clear();
    room::add(&mut slot.name, name);
    slot.bytes.clear();
    room::add(&mut slot.bytes, bytes);
    true
}

/// Adds bytes at the end of a slot's file, where the slot has room for them, and else leaves the slot as it is.
fn extend(slot: &mut Slot, bytes: &[u8]) -> bool
    ensures name { slot.new.name ≡ slot.old.name }
    ensures bytes { IsTrue result → slot.new.bytes.items ≡ slot.old.bytes.items ++ bytes.now }
    ensures refused { result ≡ false → slot.new ≡ slot.old }
    ensures bytes_room { vec_capacity slot.new.bytes ≡ vec_capacity slot.old.bytes }
{
    if !room::has_room(&slot.bytes, bytes.len()) {
        return false;
    }
    room::add(&mut slot.bytes, bytes);
    true
}

impl Slots {
    /// Room for so many files, each with room for so many bytes of its name and of itself.
    #[tactic(auto, using(crate::proofs::InSlots::one_more))]
    pub fn new(
        alloc: Global,
        files: usize,
        name_bytes: usize,
        file_bytes: usize,
    ) -> Result<Slots, AllocError>
        ensures { IfOk result (λ made. made ≡ empty files name_bytes file_bytes) }
    {
        let mut slots = Vec::with_capacity(alloc, files)?;
        for _ in 0..files {
            slots.push(Slot {
                name: Vec::with_capacity(alloc, name_bytes)?,
                bytes: Vec::with_capacity(alloc, file_bytes)?,
            })?;
        }
        Ok(Slots {
            slots,
            used: 0,
            name_bytes,
            file_bytes,
        })
    }

    /// The bytes of the file with that name.
    #[tactic(auto, using(crate::proofs::InSlots::get_read, crate::proofs::InSlots::get_absent))]
    pub fn get(&self, name: &[u8]) -> Option<&[u8]>
        ensures { MatchOption result (map.get self.now.files name.now ≡ None) (λ bytes. map.get self.now.files name.now ≡ Some bytes.now) }
    {
        match place_of(&self.slots[..self.used], name) {
            Some(place) => Some(&self.slots[place].bytes),
            None => None,
        }
    }

    /// Makes the bytes the whole of the file with that name, where there is room, and else changes nothing. Where its room is
    /// known to suffice it is put.
    #[tactic(auto, using(crate::proofs::InSlots::put_placed, crate::proofs::InSlots::put_new))]
    pub fn put(&mut self, name: &[u8], bytes: &[u8]) -> bool
        ensures put { IsTrue result → self.new.files ≡ map.insert self.old.files name.now bytes.now }
        ensures refused { result ≡ false → self.new ≡ self.old }
        ensures fits { HasRoom self.old name.now bytes.now → IsTrue result }
        ensures room { KeepsRoom self.old self.new }
    {
        match place_of(&self.slots[..self.used], name) {
            Some(place) => fill(&mut self.slots[place], name, bytes),
            None => {
                if self.used >= self.slots.len() {
                    return false;
                }
                if !fill(&mut self.slots[self.used], name, bytes) {
                    return false;
                }
                self.used += 1;
                true
            }
        }
    }

    /// Adds the bytes at the end of the file with that name, which begins as empty, where there is room, and else changes
    /// nothing.
    #[tactic(auto, using(crate::proofs::InSlots::put_more, crate::proofs::InSlots::get_absent))]
    pub fn add(&mut self, name: &[u8], bytes: &[u8]) -> bool
        ensures added { IsTrue result → self.new.files ≡ map.insert self.old.files name.now (or_empty (map.get self.old.files name.now) ++ bytes.now) }
        ensures refused { result ≡ false → self.new ≡ self.old }
        ensures room { KeepsRoom self.old self.new }
    {
        match place_of(&self.slots[..self.used], name) {
            Some(place) => extend(&mut self.slots[place], bytes),
            None => self.put(name, bytes),
        }
    }
}
