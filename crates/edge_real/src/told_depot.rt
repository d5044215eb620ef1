//! A depot that tells which files it reads and writes.

ghost use Rattle.std.specs.Prelude.{◌≡◌};

use crate::file_name::FileName;
use crate::progress::tell_file;
use edge_traits::Failed;
use edge_traits::depot::Depot;
use std::io::Eprint;

/// The most files that are told: a schema, twelve tables, a script, a visible file and a journal.
const MOST_TOLD: usize = 16;

/// A depot, and a terminal, where there is one, on which a line tells of each file as it is first read or written.
#[derive(Drop)]
pub struct ToldDepot<D, E> {
    /// The depot.
    pub depot: D,

    to: Option<E>,
    told: [Option<FileName>; MOST_TOLD],
}

impl<D: Depot + Drop, E: Eprint + Drop> ToldDepot<D, E> {
    /// This depot, told of on `to`.
    pub fn new(depot: D, to: Option<E>) -> ToldDepot<D, E>
        ensures depot { result.depot ≡ depot }
    {
        ToldDepot {
            depot,
            to,
            told: [None; MOST_TOLD],
        }
    }

    /// Tells of a file, where it is the first time.
    fn tell(&mut self, deed: &str, name: &str)
        ensures depot { self.new.depot ≡ self.old.depot }
    {
        if self.to.is_some() && is_new(&mut self.told, name) {
            tell_file(&self.to, deed, name);
        }
    }
}

/// Whether a name was not told, which it is from now on. Where there is no place for it, it is not.
fn is_new(told: &mut [Option<FileName>], name: &str) -> bool {
    for place in told.iter_mut() {
        match place {
            Some(other) if other.is(name) => return false,
            Some(_) => {}
            None => {
                *place = Some(FileName::of(name));
                return true;
            }
        }
    }
    false
}

impl<D: Depot + Drop, E: Eprint + Drop> Depot for ToldDepot<D, E> {
    ghost contents = { λ told. D.contents told.depot };

    ghost faults = { λ told. D.faults told.depot };

    ghost append_faults = { λ told. D.append_faults told.depot };

    ghost sure = { λ told. D.sure told.depot };

    fn read_at(&mut self, name: &str, at: u64, buf: &mut [u8]) -> Result<usize, Failed> {
        self.tell("reading", name);
        self.depot.read_at(name, at, buf)
    }

    fn replace(&mut self, name: &str, bytes: &[u8]) -> Result<(), Failed> {
        self.tell("writing", name);
        self.depot.replace(name, bytes)
    }

    fn append(&mut self, name: &str, bytes: &[u8]) -> Result<(), Failed> {
        self.tell("writing", name);
        self.depot.append(name, bytes)
    }
}
