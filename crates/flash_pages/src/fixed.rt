//! One record of a run.

ghost use Rattle.std.specs.Prelude.{◌≡◌, ◌<◌, ◌≤◌, ℕ, true, length, OnOk};
ghost use Rattle.ghost_model.specs.forms.Runs.{record_at, page_of};
ghost use Rattle.flash_pages.specs.Faults.{FailsWhole};
ghost use Rattle.flash_pages.specs.Reads.{Reads, CanRead, WasGiven, WasRead, must_read};
ghost use Rattle.ghost_base.specs.Runs.{run_of};
ghost use Rattle.flash_pages.specs.Runs.{HasRun};

use crate::cells::cell_of;
use crate::fault::PageFault;
use crate::load::load;
use edge_traits::flash::Flash;
use ghost_base::runs::{Run, per_page};
use page_pool::{Lease, PagePool};

/// Copies record `i` of a run, counted from 0, into `out`, which has the run's width. No slot is blamed.
///
/// It reads at most one page, and none where the page stands in the buffer of the lease.
pub fn fixed_get<F: Flash>(
    flash: &mut F,
    pool: &mut PagePool,
    lease: &Lease,
    run: &Run,
    i: u32,
    out: &mut [u8],
) -> Result<(), PageFault>
    requires run { HasRun (F.state flash.old) (run_of run.now) }
    requires in_range { i < run.now.count }
    requires width { length out.old ≡ run.now.width }
    requires ready { CanRead F.told (F.state flash.old) pool.old lease.now }
    ensures record_at { OnOk result (F.told ≡ true → out.new ≡ record_at (F.state flash.old).page (run_of run.now) i) }
    ensures was_read { (since : ℕ) → since ≤ (F.state flash.old).calls → WasGiven since (F.state flash.old) pool.old lease.now → OnOk result (WasRead since (F.state flash.new) (run_of run.now) i out.new) }
    ensures fails { FailsWhole out.old out.new result }
    ensures read { Reads F.told (F.state flash.old) (F.state flash.new) pool.old pool.new lease.now (must_read pool.old lease.now (page_of (run_of run.now) i)) (page_of (run_of run.now) i) result }
{
    let records = per_page(run.width);
    load(flash, pool, lease, run.first + i / records)?;
    out.copy_from_slice(cell_of(pool.page(lease), run.width, i % records));
    Ok(())
}
