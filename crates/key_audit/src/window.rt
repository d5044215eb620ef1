//! Bytes of a file that were read, and not yet passed.

ghost use Rattle.std.specs.Prelude.{◌≡◌, ℕ, ◌+◌, ◌<◌, ◌≤◌, ◌^◌, List, [], true, length, drop, Ok, IfOk, is_ok};
ghost use Rattle.ghost_model.specs.core.Causes.{HasCause};
ghost use Rattle.key_audit.specs.Windows.{ahead, StandsBehind, IsAhead};

use edge_traits::Failed;
use edge_traits::depot::Depot;

/// How many bytes are read at a time.
const PIECE: usize = 65_536;

/// A piece of a file, of which a front was passed. A file is passed from its first byte on.
#[derive(Drop)]
pub(crate) struct Window {
    bytes: [u8; PIECE],
    from: usize,
    to: usize,

    /// How many bytes of the file were passed.
    pub(crate) passed: u64,
}

impl Window {
    /// Before the first byte of a file, of which none was read.
    pub(crate) fn new() -> Window
        ensures none { ahead result ≡ [] }
        ensures passed { result.passed ≡ 0 }
    {
        Window {
            bytes: [0; PIECE],
            from: 0,
            to: 0,
            passed: 0,
        }
    }

    /// The bytes that were read and not passed.
    pub(crate) fn ahead(&self) -> &[u8]
        ensures bytes { result.now ≡ ahead self.now }
        ensures few { length result.now ≤ 65_536 }
    {
        let read = self.bytes.get(..self.to).unwrap_or(&self.bytes);
        read.get(self.from..).unwrap_or(&[])
    }

    /// Passes bytes that are ahead.
    pub(crate) fn pass(&mut self, count: usize)
        requires there { count ≤ length (ahead self.old) }
        requires near { self.old.passed ≤ 2 ^ 33 }
        ensures rest { ahead self.new ≡ drop count (ahead self.old) }
        ensures passed { self.new.passed ≡ self.old.passed + count }
    {
        self.from += count;
        self.passed += count as u64;
    }

    /// Whether a byte is ahead; reads on where none was read. There is none exactly at the end of the file.
    pub(crate) fn has_more<D: Depot>(&mut self, depot: &mut D, name: &str) -> Result<bool, Failed>
        ensures cause { HasCause (D.faults depot.old) (D.faults depot.new) result }
        ensures appends { D.append_faults depot.new ≡ D.append_faults depot.old }
        ensures same { D.contents depot.new ≡ D.contents depot.old }
        ensures goes_well { D.sure depot.old name.now → is_ok result ≡ true }
        ensures stays_sure { (other : List ℕ) → D.sure depot.old other → D.sure depot.new other }
        ensures passed { self.new.passed ≡ self.old.passed }
        ensures some { IfOk result (λ more. more ≡ true → 0 < length (ahead self.new)) }
        ensures more { (passed : List ℕ) → StandsBehind (D.contents depot.old) name.now passed self.old
            → IfOk result (λ more. IsAhead (D.contents depot.old) name.now passed self.new more) }
    {
        if !self.ahead().is_empty() {
            return Ok(true);
        }
        let count = depot.read_at(name, self.passed, &mut self.bytes)?;
        self.from = 0;
        self.to = count;
        Ok(count > 0)
    }
}
