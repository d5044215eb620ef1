//! A depot that keeps what it read of two files and the front of the file that it read last, so that a line can show a place
//! in them.

ghost use Rattle.std.specs.Prelude.{◌≡◌};

use edge_traits::Failed;
use edge_traits::depot::Depot;
use std::alloc::Global;

/// The most bytes that are kept of each of the two files: those of the longest schema and script.
const MOST_KEPT: usize = 65_536;

/// The most bytes that are kept of the file that was read last.
const MOST_FRONT: usize = 4096;

/// What was read of a file from its beginning on, in one go, as far as it is kept.
#[derive(Drop)]
struct KeptBytes {
    bytes: Vec<u8>,
    most: usize,
}

impl KeptBytes {
    /// Nothing yet, and so many bytes at most.
    fn none(alloc: Global, most: usize) -> KeptBytes {
        KeptBytes {
            bytes: Vec::new(alloc),
            most,
        }
    }

    /// Keeps what was read at a place, where that is the next one. For want of memory nothing is kept.
    fn keep(&mut self, at: u64, piece: &[u8]) {
        let len = self.bytes.len();
        let room = self.most.saturating_sub(len);
        if at == len as u64 && room > 0 {
            let _kept = self
                .bytes
                .extend_from_slice(piece.get(..room).unwrap_or(piece));
        }
    }
}

/// A depot that keeps what was read of a schema and of a script, and the front of the file that was read last.
#[derive(Drop)]
pub struct KeptDepot<'a, D> {
    /// The depot.
    pub depot: D,

    /// The name of the schema's file.
    pub schema: &'a str,

    /// The name of the script's file.
    pub script: &'a str,

    schema_read: KeptBytes,
    script_read: KeptBytes,
    front: KeptBytes,
}

impl<'a, D: Depot + Drop> KeptDepot<'a, D> {
    /// This depot, of which nothing was read, and the names of the schema's and the script's files, empty where there is none.
    pub fn new(alloc: Global, depot: D, schema: &'a str, script: &'a str) -> KeptDepot<'a, D>
        ensures depot { result.depot ≡ depot }
    {
        KeptDepot {
            depot,
            schema,
            script,
            schema_read: KeptBytes::none(alloc, MOST_KEPT),
            script_read: KeptBytes::none(alloc, MOST_KEPT),
            front: KeptBytes::none(alloc, MOST_FRONT),
        }
    }

    /// What was read of the schema.
    pub fn schema_read(&self) -> &[u8] {
        &self.schema_read.bytes
    }

    /// What was read of the script.
    pub fn script_read(&self) -> &[u8] {
        &self.script_read.bytes
    }

    /// The first bytes of the file that was read last, 4096 at most.
    pub fn front(&self) -> &[u8] {
        &self.front.bytes
    }

    /// Keeps what was read.
    fn keep(&mut self, name: &str, at: u64, piece: &[u8])
        ensures depot { self.new.depot ≡ self.old.depot }
    {
        if name == self.schema {
            self.schema_read.keep(at, piece);
        }
        if name == self.script {
            self.script_read.keep(at, piece);
        }
        if at == 0 {
            self.front.bytes.clear();
        }
        self.front.keep(at, piece);
    }
}

impl<'a, D: Depot + Drop> Depot for KeptDepot<'a, D> {
    ghost contents = { λ kept. D.contents kept.depot };

    ghost faults = { λ kept. D.faults kept.depot };

    ghost append_faults = { λ kept. D.append_faults kept.depot };

    ghost sure = { λ kept. D.sure kept.depot };

    fn read_at(&mut self, name: &str, at: u64, buf: &mut [u8]) -> Result<usize, Failed> {
        let count = self.depot.read_at(name, at, buf)?;
        self.keep(name, at, buf.get(..count).unwrap_or(&[]));
        Ok(count)
    }

    fn replace(&mut self, name: &str, bytes: &[u8]) -> Result<(), Failed> {
        self.depot.replace(name, bytes)
    }

    fn append(&mut self, name: &str, bytes: &[u8]) -> Result<(), Failed> {
        self.depot.append(name, bytes)
    }
}
