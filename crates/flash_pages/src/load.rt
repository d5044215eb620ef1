//! A page in a buffer.

ghost use Rattle.std.specs.Prelude.{◌≡◌, ◌<◌, true, OnOk};
ghost use Rattle.page_pool.specs.Pools.{bytes_at};
ghost use Rattle.flash_pages.specs.Faults.{BlamesNoSlot};
ghost use Rattle.flash_pages.specs.Reads.{Reads, CanRead, must_read};

use crate::fault::PageFault;
use edge_traits::flash::Flash;
use page_pool::{Lease, PagePool};

/// Has a page in the buffer of a lease: it is read unless it stands there. No slot is blamed.
pub fn load<F: Flash>(
    flash: &mut F,
    pool: &mut PagePool,
    lease: &Lease,
    page: u32,
) -> Result<(), PageFault>
    requires in_range { page < (F.state flash.old).page_count }
    requires ready { CanRead F.told (F.state flash.old) pool.old lease.now }
    ensures bytes { OnOk result (F.told ≡ true → bytes_at pool.new lease.now ≡ (F.state flash.old).page page) }
    ensures read { Reads F.told (F.state flash.old) (F.state flash.new) pool.old pool.new lease.now (must_read pool.old lease.now page) page result }
    ensures no_slot { BlamesNoSlot result }
{
    if pool.filled_from(lease) == Some(page) {
        return Ok(());
    }
    flash.read_page(page, pool.page_mut(lease))?;
    pool.note(lease, page);
    Ok(())
}
