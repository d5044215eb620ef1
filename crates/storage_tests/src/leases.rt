//! A run that is written and read under one lease.

ghost use Rattle.std.specs.Prelude.{◌≡◌, ◌<◌, ℕ, true, IfOk};

use edge_traits::flash::{AttachFault, Flash};
use edge_traits::mem_flash::MemFlash;
use flash_pages::cursor::RunCursor;
use flash_pages::fixed::fixed_get;
use flash_pages::writer::RunWriter;
use ghost_base::runs::ListRef;
use page_pool::PagePool;
use std::alloc::Global;

/// A device of a blank block.
fn made(alloc: Global) -> Result<MemFlash, AttachFault>
    ensures pages { IfOk result (λ flash. (⟦<MemFlash as Flash>⟧.state flash).page_count ≡ 64) }
    ensures blank { IfOk result (λ flash. (page : ℕ) → page < 64 → (⟦<MemFlash as Flash>⟧.state flash).blank page ≡ true) }
{
    let mut flash = MemFlash::new(alloc, 1, &[])?;
    flash.make(alloc, "key", 1)?;
    Ok(flash)
}

#[test]
fn two_records_are_written_and_read_under_one_lease(rt: HostRuntime) -> Result<(), AttachFault> {
    let mut flash = made(rt.alloc())?;
    let mut pool = PagePool::new(rt.alloc(), 8)?;
    let Some(lease) = pool.lease() else {
        unreachable!()
    };
    let mut writer = RunWriter::begin(0, 4, true, lease);
    writer.put(&mut flash, &mut pool, &7u32.to_be_bytes())?;
    writer.put(&mut flash, &mut pool, &9u32.to_be_bytes())?;
    let run = writer.finish(&mut flash, &mut pool)?;
    writer.restart(64);
    let list = ListRef {
        run,
        first: 0,
        count: 2,
    };
    let mut cursor = RunCursor::begin(list, 9, writer.end());
    let first = cursor.next(&mut flash, &mut pool);
    assert!(rt; matches!(first, Ok(Some(7))) && cursor.at == 1);
    let passed = cursor.pass(&mut flash, &mut pool, 9);
    assert!(rt; matches!(passed, Ok(false)) && cursor.at == 1);
    let passed = cursor.pass(&mut flash, &mut pool, 10);
    assert!(rt; matches!(passed, Ok(true)) && cursor.at == 2 && cursor.last == 9);
    let lease = cursor.end();
    let mut cell = [0; 4];
    let read = fixed_get(&mut flash, &mut pool, &lease, &run, 0, &mut cell);
    assert!(rt; read.is_ok() && cell == 7u32.to_be_bytes() && flash.script.calls == 4);
    pool.give(lease);
    Ok(())
}
