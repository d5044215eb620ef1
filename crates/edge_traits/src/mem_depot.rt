//! A depot in memory.

ghost use Rattle.std.specs.Prelude.{◌≡◌, ◌++◌, ◌≤◌, Some, None, length, IfOk, OnOk, OnErr, IsTrue, MatchOption, false};
ghost use Rattle.std.specs.FinMap as map;
ghost use Rattle.ghost_model.specs.core.Causes.{HasCause};
ghost use Rattle.edge_traits.specs.Scripts.{IsFresh, IsSure};
ghost use Rattle.edge_traits.specs.Files.{file_of, with_file, or_empty, SameBut, GivesAt};
ghost use Rattle.edge_traits.specs.Rooms.{IsEmptyWith, HasRoomFor, KeepsFilesOf, KeepsRoomOf};

use crate::Failed;
use crate::depot::Depot;
use crate::script::Script;
use crate::slots::Slots;
use std::alloc::{AllocError, Global};

/// The room of a depot in memory.
#[derive(Clone, Copy)]
pub struct Room {
    /// How many files there may be.
    pub files: usize,
    /// How many bytes a name may have.
    pub name_bytes: usize,
    /// How many bytes each file may have.
    pub file_bytes: usize,
}

/// A depot that keeps its files in room that was reserved when it was made.
///
/// A call past its room is a fault, and so is each call that its script names. A failed call changes no file.
#[derive(Drop)]
pub struct MemDepot {
    files: Slots,
    /// Which calls fail.
    pub script: Script,
    append_faults: u64,
}

impl MemDepot {
    /// A depot with no file that fails at the calls numbered in `fails`, from 1.
    pub fn new(alloc: Global, room: Room, fails: &[u64]) -> Result<MemDepot, AllocError>
        ensures empty { IfOk result (λ depot. ⟦<MemDepot as Depot>⟧.contents depot ≡ Some map.empty) }
        ensures faults { IfOk result (λ depot. ⟦<MemDepot as Depot>⟧.faults depot ≡ 0) }
        ensures append_faults { IfOk result (λ depot. ⟦<MemDepot as Depot>⟧.append_faults depot ≡ 0) }
        ensures script { IfOk result (λ depot. IsFresh fails.now depot.script) }
        ensures room { IfOk result (λ depot. IsEmptyWith room depot) }
    {
        Ok(MemDepot {
            files: Slots::new(alloc, room.files, room.name_bytes, room.file_bytes)?,
            script: Script::new(alloc, fails)?,
            append_faults: 0,
        })
    }

    /// Puts a file into the depot, with no call that the script could fail, and answers whether there was room for it.
    pub fn put(&mut self, name: &str, bytes: &[u8]) -> bool
        ensures put { IsTrue result → ⟦<MemDepot as Depot>⟧.contents self.new ≡ with_file (⟦<MemDepot as Depot>⟧.contents self.old) name.now bytes.now }
        ensures refused { result ≡ false → ⟦<MemDepot as Depot>⟧.contents self.new ≡ ⟦<MemDepot as Depot>⟧.contents self.old }
        ensures faults { ⟦<MemDepot as Depot>⟧.faults self.new ≡ ⟦<MemDepot as Depot>⟧.faults self.old }
        ensures append_faults { ⟦<MemDepot as Depot>⟧.append_faults self.new ≡ ⟦<MemDepot as Depot>⟧.append_faults self.old }
        ensures script { self.new.script ≡ self.old.script }
        ensures fits { HasRoomFor self.old name.now bytes.now → IsTrue result }
        ensures room { KeepsRoomOf self.old self.new }
    {
        self.files.put(name.as_bytes(), bytes)
    }

    /// The bytes of the file `name`.
    pub fn file(&self, name: &str) -> Option<&[u8]>
        ensures { MatchOption result (file_of (⟦<MemDepot as Depot>⟧.contents self.now) name.now ≡ None) (λ bytes. file_of (⟦<MemDepot as Depot>⟧.contents self.now) name.now ≡ Some bytes.now) }
    {
        self.files.get(name.as_bytes())
    }

    /// Adds bytes at the end of a file, with a failure not yet counted among those of appends.
    fn add(&mut self, name: &str, bytes: &[u8]) -> Result<(), Failed>
        ensures cause { HasCause (⟦<MemDepot as Depot>⟧.faults self.old) (⟦<MemDepot as Depot>⟧.faults self.new) result }
        ensures append_faults { self.new.append_faults ≡ self.old.append_faults }
        ensures added { OnOk result (Some self.new.files.files ≡ with_file (Some self.old.files.files) name.now (or_empty (file_of (Some self.old.files.files) name.now) ++ bytes.now)) }
        ensures others { SameBut name.now (Some self.old.files.files) (Some self.new.files.files) }
        ensures kept { OnErr result (KeepsFilesOf self.old self.new) }
    {
        self.script.begin()?;
        if !self.files.add(name.as_bytes(), bytes) {
            return Err(self.script.fault());
        }
        Ok(())
    }

    /// The count of failed calls.
    pub fn faults(&self) -> u64
        ensures { result ≡ ⟦<MemDepot as Depot>⟧.faults self.now }
    {
        self.script.faults
    }

    /// The count of failed appends.
    pub fn append_faults(&self) -> u64
        ensures { result ≡ ⟦<MemDepot as Depot>⟧.append_faults self.now }
    {
        self.append_faults
    }
}

/// Copies what stands in a file from a place on into the front of a buffer, as far as both reach, and answers how many
/// bytes that was.
fn copy_at(bytes: &[u8], at: u64, buf: &mut [u8]) -> usize
    ensures gives { GivesAt bytes.now at buf.old result buf.new }
    ensures within { result ≤ length buf.old }
{
    if at >= bytes.len() as u64 {
        return 0;
    }
    let rest = &bytes[at as usize..];
    let count = rest.len().min(buf.len());
    buf[..count].copy_from_slice(&rest[..count]);
    count
}

impl Depot for MemDepot {
    ghost contents = { λ depot. Some depot.files.files };

    ghost faults = { λ depot. depot.script.faults };

    ghost append_faults = { λ depot. depot.append_faults };

    ghost sure = { λ depot. λ name. IsSure depot.script (Some depot.files.files) name };

    fn read_at(&mut self, name: &str, at: u64, buf: &mut [u8]) -> Result<usize, Failed> {
        self.script.begin()?;
        match self.files.get(name.as_bytes()) {
            Some(bytes) => Ok(copy_at(bytes, at, buf)),
            None => Err(self.script.fault()),
        }
    }

    fn replace(&mut self, name: &str, bytes: &[u8]) -> Result<(), Failed>
        ensures cause { HasCause self.old.script.faults self.new.script.faults result }
        ensures appends { self.new.append_faults ≡ self.old.append_faults }
        ensures replaced { OnOk result (Some self.new.files.files ≡ with_file (Some self.old.files.files) name.now bytes.now) }
        ensures others { SameBut name.now (Some self.old.files.files) (Some self.new.files.files) }
        ensures kept { OnErr result (KeepsFilesOf self.old self.new) }
    {
        self.script.begin()?;
        if !self.files.put(name.as_bytes(), bytes) {
            return Err(self.script.fault());
        }
        Ok(())
    }

    fn append(&mut self, name: &str, bytes: &[u8]) -> Result<(), Failed>
        ensures cause { HasCause self.old.script.faults self.new.script.faults result }
        ensures append_cause { HasCause self.old.append_faults self.new.append_faults result }
        ensures appended { OnOk result (Some self.new.files.files ≡ with_file (Some self.old.files.files) name.now (or_empty (file_of (Some self.old.files.files) name.now) ++ bytes.now)) }
        ensures others { SameBut name.now (Some self.old.files.files) (Some self.new.files.files) }
        ensures kept { OnErr result (KeepsFilesOf self.old self.new) }
    {
        let result = self.add(name, bytes);
        if result.is_err() {
            self.append_faults = self.append_faults.saturating_add(1);
        }
        result
    }
}
