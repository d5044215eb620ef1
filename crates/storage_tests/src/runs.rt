//! Runs of records that are longer than a page.

ghost use Rattle.std.specs.Prelude.{◌≡◌, ◌<◌, ℕ, true, IfOk};
ghost use Rattle.flash_pages.specs.Cursors.{IsReady};

use edge_traits::flash::{AttachFault, Flash};
use edge_traits::mem_flash::MemFlash;
use flash_pages::cursor::RunCursor;
use flash_pages::fault::PageFault;
use flash_pages::filling::write_numbers;
use ghost_base::runs::ListRef;
use page_pool::PagePool;
use std::alloc::Global;

/// The numbers from 1 to 1,030.
fn numbers() -> [u32; 1030] {
    let mut numbers = [0; 1030];
    for (i, number) in numbers.iter_mut().enumerate() {
        *number = i as u32 + 1;
    }
    numbers
}

/// A device of two blank blocks.
fn made(alloc: Global) -> Result<MemFlash, AttachFault>
    ensures pages { IfOk result (λ flash. (⟦<MemFlash as Flash>⟧.state flash).page_count ≡ 128) }
    ensures blank { IfOk result (λ flash. (page : ℕ) → page < 128 → (⟦<MemFlash as Flash>⟧.state flash).blank page ≡ true) }
{
    let mut flash = MemFlash::new(alloc, 2, &[])?;
    flash.make(alloc, "key", 2)?;
    Ok(flash)
}

/// The sum of the identifiers that a cursor has left.
fn sum_of_ids(
    flash: &mut MemFlash,
    pool: &mut PagePool,
    cursor: &mut RunCursor,
) -> Result<u64, PageFault>
    requires { IsReady true (⟦<MemFlash as Flash>⟧.state flash.old) pool.old cursor.old }
{
    let mut sum = 0u64;
    while let Some(id) = cursor.next(flash, pool)? {
        sum = sum.saturating_add(u64::from(id));
    }
    Ok(sum)
}

#[test]
fn a_run_over_three_pages_is_read_up_to_a_slot_out_of_range(
    rt: HostRuntime,
) -> Result<(), AttachFault> {
    for (rows, sum) in [(1030u32, 405_715u64), (512, 0)] {
        let mut flash = made(rt.alloc())?;
        let mut buf = [0; 2048];
        let run = write_numbers(&mut flash, &mut buf, &numbers(), 62)?;
        let list = ListRef {
            run,
            first: 500,
            count: 530,
        };
        let mut pool = PagePool::new(rt.alloc(), 8)?;
        let Some(lease) = pool.lease() else {
            unreachable!()
        };
        let mut cursor = RunCursor::begin(list, rows, lease);
        match sum_of_ids(&mut flash, &mut pool, &mut cursor) {
            Ok(found) => assert!(rt; found == sum && cursor.at == 530, "{rows}"),
            Err(PageFault::Damaged { page, slot, found }) => {
                assert!(rt; rows == 512 && cursor.last == 512);
                assert!(rt; page == 63 && slot == 0 && found == 513 << 32);
            }
            Err(PageFault::Flash) => assert!(rt; false),
        }
    }
    Ok(())
}
