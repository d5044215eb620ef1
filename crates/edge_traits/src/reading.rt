//! Reading a file whole.

ghost use Rattle.std.specs.Prelude.{◌≡◌, ◌<◌, ◌≤◌, ◌+◌, ◌++◌, ℕ, List, IfOk, OnOk, Err, length, vec_len};
ghost use Rattle.ghost_model.specs.core.Causes.{Rose};
ghost use Rattle.edge_traits.specs.Files.{HasFile, HasLonger};
ghost use Rattle.edge_traits.specs.declared.reading.ReadFault.TheVariants.{Depot as depot_failed, NoMemory as no_memory};

use crate::Failed;
use crate::depot::Depot;
use std::alloc::{AllocError, Global};

/// Why a file was not read.
#[derive(Clone, Copy)]
pub enum ReadFault {
    /// The depot failed, which its count of faults shows.
    Depot,
    /// There was no memory for the bytes.
    NoMemory,
    /// The file has more bytes than the limit.
    TooLong,
}

impl From<Failed> for ReadFault {
    ghost from_gives = { λ _ fault. fault ≡ depot_failed };

    fn from(_failed: Failed) -> ReadFault {
        ReadFault::Depot
    }
}

impl From<AllocError> for ReadFault {
    ghost from_gives = { λ _ fault. fault ≡ no_memory };

    fn from(_error: AllocError) -> ReadFault {
        ReadFault::NoMemory
    }
}

/// Puts a piece behind the bytes that were read, unless they would be more than the limit.
fn add_piece(bytes: &mut Vec<u8>, piece: &[u8], limit: usize) -> Result<(), ReadFault>
    requires within { vec_len bytes.old ≤ limit }
    ensures too_long { limit < vec_len bytes.old + length piece.now → result ≡ Err ReadFault.TooLong }
    ensures fits { vec_len bytes.old + length piece.now ≤ limit → result ≡ Err ReadFault.TooLong → ⊥ }
    ensures no_read { result ≡ Err ReadFault.Depot → ⊥ }
    ensures added { OnOk result (bytes.new.items ≡ bytes.old.items ++ piece.now) }
    ensures still_within { OnOk result (vec_len bytes.new ≤ limit) }
{
    if piece.len() > limit - bytes.len() {
        return Err(ReadFault::TooLong);
    }
    bytes.extend_from_slice(piece)?;
    Ok(())
}

/// All bytes of the file `name`, of which there may be `limit` at most.
#[tactic(auto, using(crate::proofs::WholeFile::goes_on, crate::proofs::WholeFile::ends, crate::proofs::WholeFile::is_longer))]
pub fn read_file<D: Depot>(
    alloc: Global,
    depot: &mut D,
    name: &str,
    limit: usize,
) -> Result<Vec<u8>, ReadFault>
    ensures file { IfOk result (λ bytes. HasFile (D.contents depot.old) name.now bytes.items) }
    ensures within { IfOk result (λ bytes. vec_len bytes ≤ limit) }
    ensures too_long { result ≡ Err ReadFault.TooLong → HasLonger (D.contents depot.old) name.now limit }
    ensures never_falls { D.faults depot.old ≤ D.faults depot.new }
    ensures failed { result ≡ Err ReadFault.Depot → Rose (D.faults depot.old) (D.faults depot.new) }
    ensures other { (result ≡ Err ReadFault.Depot → ⊥) → D.faults depot.new ≡ D.faults depot.old }
    ensures appends { D.append_faults depot.new ≡ D.append_faults depot.old }
    ensures same { D.contents depot.new ≡ D.contents depot.old }
    ensures goes_well { D.sure depot.old name.now → result ≡ Err ReadFault.Depot → ⊥ }
    ensures stays_sure { (other : List ℕ) → D.sure depot.old other → D.sure depot.new other }
{
    let mut bytes = Vec::new(alloc);
    let mut piece = [0u8; 65536];
    loop {
        let count = depot.read_at(name, bytes.len() as u64, &mut piece)?;
        if count == 0 {
            return Ok(bytes);
        }
        add_piece(&mut bytes, &piece[..count], limit)?;
    }
}
