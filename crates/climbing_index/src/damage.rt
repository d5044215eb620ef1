//! The fault of a slot.

ghost use Rattle.std.specs.Prelude.{◌≡◌, ◌<◌, ◌≤◌, ◌^◌};
ghost use Rattle.ghost_model.specs.forms.Runs.{page_of, slot_of, found_in};
ghost use Rattle.ghost_base.specs.Runs.{run_of};
ghost use Rattle.flash_pages.specs.declared.fault.PageFault.TheVariants.{Damaged};

use flash_pages::cells::found_of;
use flash_pages::fault::PageFault;
use ghost_base::runs::{Run, per_page};

/// The fault of the slot of a record of a run, counted from 0, which has these bytes.
pub fn damage(run: &Run, place: u32, bytes: &[u8]) -> PageFault
    requires width { 0 < run.now.width }
    requires fits { run.now.width ≤ 2048 }
    requires page { page_of (run_of run.now) place < 2 ^ 32 }
    ensures fault { result ≡ Damaged (page_of (run_of run.now) place) (slot_of (run_of run.now) place) (found_in bytes.now) }
{
    let records = per_page(run.width);
    PageFault::Damaged {
        page: run.first + place / records,
        slot: place % records,
        found: found_of(bytes),
    }
}
