//! Which calls of an object in memory fail.

ghost use Rattle.std.specs.Prelude.{◌≡◌, ◌+◌, ◌≤◌, min, IfOk, OnOk, OnErr};
ghost use Rattle.ghost_model.specs.core.Causes.{HasCause, Rose, last_count};
ghost use Rattle.edge_traits.specs.Scripts.{IsNamed, IsFresh};

use crate::Failed;
use std::alloc::{AllocError, Global};

/// The calls of an object in memory that are to fail, by their numbers from 1, and its counts of calls and faults.
#[derive(Drop)]
pub struct Script {
    /// The numbers of the calls that fail.
    pub fails: Vec<u64>,
    /// The number of calls so far; it stays at its last value.
    pub calls: u64,
    /// The number of faults so far; it stays at its last value.
    pub faults: u64,
}

impl Script {
    /// The script of an object that was not called yet.
    pub fn new(alloc: Global, fails: &[u64]) -> Result<Script, AllocError>
        ensures { IfOk result (λ script. IsFresh fails.now script) }
    {
        Ok(Script {
            fails: Vec::from_slice(alloc, fails)?,
            calls: 0,
            faults: 0,
        })
    }

    /// Begins a call, which fails where the script names its number.
    pub fn begin(&mut self) -> Result<(), Failed>
        ensures cause { HasCause self.old.faults self.new.faults result }
        ensures one_fault { self.new.faults ≤ self.old.faults + 1 }
        ensures failed { OnErr result (IsNamed self.old.fails.items self.new.calls) }
        ensures passed { OnOk result (IsNamed self.old.fails.items self.new.calls → ⊥) }
        ensures calls { self.new.calls ≡ min (self.old.calls + 1) last_count }
        ensures calls_rise { self.old.calls ≤ self.new.calls }
        ensures fails { self.new.fails ≡ self.old.fails }
    {
        self.calls = self.calls.saturating_add(1);
        if self.fails.contains(&self.calls) {
            return Err(self.fault());
        }
        Ok(())
    }

    /// Counts a fault.
    pub fn fault(&mut self) -> Failed
        ensures rose { Rose self.old.faults self.new.faults }
        ensures never_falls { self.old.faults ≤ self.new.faults }
        ensures one_fault { self.new.faults ≤ self.old.faults + 1 }
        ensures calls { self.new.calls ≡ self.old.calls }
        ensures fails { self.new.fails ≡ self.old.fails }
    {
        self.faults = self.faults.saturating_add(1);
        Failed
    }
}
