//! Why a flash was not built, and why a hidden part was not read back.

ghost use Rattle.std.specs.Prelude.{◌≡◌};
ghost use Rattle.flash_build.specs.ReadFaults.{read_fault};

use flash_pages::fault::PageFault;
use thiserror::Error;

/// Why the hidden part does not stand on the flash.
#[derive(Clone, Copy, Debug, Drop, Error)]
pub enum BuildFault {
    /// There was no memory.
    #[error("out of memory")]
    NoMemory,

    /// The flash failed, which its count of faults shows.
    #[error("the flash failed")]
    Flash,

    /// The flash has fewer pages than the catalog needs.
    #[error("the flash has {have} pages and needs {need}")]
    TooSmall {
        /// The pages that the catalog needs.
        need: u32,
        /// The pages that the flash has.
        have: u32,
    },
}

/// Why a hidden part was not read.
#[derive(Clone, Copy, Debug, Drop, Error)]
pub enum ReadFault {
    /// There was no memory.
    #[error("out of memory")]
    NoMemory,

    /// The flash failed, which its count of faults shows.
    #[error("the flash failed")]
    Flash,

    /// A slot spells no value that may stand there.
    #[error("slot {slot} of page {page} is damaged")]
    Damaged {
        /// The page.
        page: u32,
        /// The slot in it, counted from 0.
        slot: u32,
        /// The slot's first eight bytes as a number, with bytes 0 after a shorter one.
        found: u64,
    },
}

impl From<PageFault> for ReadFault {
    ghost from_gives = { λ fault read. read ≡ read_fault fault };

    fn from(fault: PageFault) -> ReadFault {
        match fault {
            PageFault::Flash => ReadFault::Flash,
            PageFault::Damaged { page, slot, found } => ReadFault::Damaged { page, slot, found },
        }
    }
}
