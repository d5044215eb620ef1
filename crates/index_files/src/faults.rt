//! Why the files of an index were not written.

ghost use Rattle.std.specs.Prelude.{◌≡◌};
ghost use Rattle.index_files.specs.declared.faults.IndexFault.TheVariants.{Flash as flash_failed, NoMemory as no_memory};

use edge_traits::Failed;
use std::alloc::AllocError;

/// Why the files of an index do not stand on the flash.
#[derive(Clone, Copy, Debug, Drop)]
pub enum IndexFault {
    /// There was no memory.
    NoMemory,
    /// The flash failed, which its count of faults shows.
    Flash,
}

impl From<Failed> for IndexFault {
    ghost from_gives = { λ _ fault. fault ≡ flash_failed };

    fn from(_failed: Failed) -> IndexFault {
        IndexFault::Flash
    }
}

impl From<AllocError> for IndexFault {
    ghost from_gives = { λ _ fault. fault ≡ no_memory };

    fn from(_error: AllocError) -> IndexFault {
        IndexFault::NoMemory
    }
}
