//! Where files lie.

ghost use Rattle.std.specs.Prelude.{◌≡◌, ◌≤◌, ◌++◌, ℕ, true, List, length, Option, is_ok, IfOk, OnOk};
ghost use Rattle.ghost_model.specs.core.Causes.{HasCause};
ghost use Rattle.edge_traits.specs.Files.{Files, file_of, with_file, or_empty, SameBut, ReadsAt};

use crate::Failed;

/// Holds files by name.
pub trait Depot {
    /// The files, where the depot tells them.
    ghost contents: { Self → Option Files };

    /// The count of failed calls.
    ghost faults: { Self → ℕ };

    /// The count of failed appends alone.
    ghost append_faults: { Self → ℕ };

    /// What the depot knows of itself by which each read of the file of a name goes well; files of a file system know nothing.
    ghost sure: { Self → List ℕ → Type 0 };

    /// Reads bytes of the file `name` from the place `at` on, counted in bytes, into the front of `buf`, and answers how many.
    ///
    /// With a buffer that is not empty the answer is 0 exactly at or past the file's end. A name that is not there is a
    /// fault.
    fn read_at(&mut self, name: &str, at: u64, buf: &mut [u8]) -> Result<usize, Failed>
        ensures cause { HasCause (faults self.old) (faults self.new) result }
        ensures appends { append_faults self.new ≡ append_faults self.old }
        ensures within { IfOk result (λ count. count ≤ length buf.old) }
        ensures bytes { IfOk result (λ count. ReadsAt (contents self.old) name.now at buf.old count buf.new) }
        ensures same { contents self.new ≡ contents self.old }
        ensures goes_well { sure self.old name.now → is_ok result ≡ true }
        ensures stays_sure { (other : List ℕ) → sure self.old other → sure self.new other };

    /// Makes `bytes` the whole of the file `name`, new or not. After a failure nothing is known of that one file.
    fn replace(&mut self, name: &str, bytes: &[u8]) -> Result<(), Failed>
        ensures cause { HasCause (faults self.old) (faults self.new) result }
        ensures appends { append_faults self.new ≡ append_faults self.old }
        ensures replaced { OnOk result (contents self.new ≡ with_file (contents self.old) name.now bytes.now) }
        ensures others { SameBut name.now (contents self.old) (contents self.new) };

    /// Adds `bytes` at the end of the file `name`, which begins as empty where it is not there. After a failure nothing is
    /// known of that one file.
    fn append(&mut self, name: &str, bytes: &[u8]) -> Result<(), Failed>
        ensures cause { HasCause (faults self.old) (faults self.new) result }
        ensures append_cause { HasCause (append_faults self.old) (append_faults self.new) result }
        ensures appended { OnOk result (contents self.new ≡ with_file (contents self.old) name.now (or_empty (file_of (contents self.old) name.now) ++ bytes.now)) }
        ensures others { SameBut name.now (contents self.old) (contents self.new) };
}
