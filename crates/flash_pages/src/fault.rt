//! Why pages were not read as they should be.

ghost use Rattle.std.specs.Prelude.{◌≡◌};
ghost use Rattle.flash_pages.specs.declared.fault.PageFault.TheVariants.{Flash as flash_failed};

use edge_traits::Failed;

/// Why a call on pages gave no answer.
#[derive(Clone, Copy)]
pub enum PageFault {
    /// The flash failed, which its count of faults shows.
    Flash,
    /// A slot has a value out of its range or order.
    Damaged {
        /// The page.
        page: u32,
        /// The slot in it, counted from 0.
        slot: u32,
        /// The slot's first eight bytes as a number, with bytes 0 after a shorter one.
        found: u64,
    },
}

impl From<Failed> for PageFault {
    ghost from_gives = { λ _ fault. fault ≡ flash_failed };

    fn from(_failed: Failed) -> PageFault {
        PageFault::Flash
    }
}
