//! Numbers on a device in memory.

ghost use Rattle.std.specs.Prelude.{◌≡◌, ◌+◌, ◌*◌, ◌/◌, ◌%◌, ◌^◌, ◌<◌, ◌≤◌, ℕ, true, length, IfOk};
ghost use Rattle.ghost_model.specs.forms.Runs.{pages_of};
ghost use Rattle.ghost_base.specs.Runs.{run_of};
ghost use Rattle.flash_pages.specs.Runs.{HasRun};

use edge_traits::flash::{AttachFault, Flash};
use edge_traits::mem_flash::MemFlash;
use flash_pages::filling::write_numbers;
use ghost_base::runs::Run;
use std::alloc::Global;

/// A device with two runs of numbers, and blank pages behind them.
#[derive(Drop)]
pub struct Laid {
    /// The device.
    pub flash: MemFlash,
    /// The first run.
    pub one: Run,
    /// The second run.
    pub other: Run,
    /// The first page of the first block behind them.
    pub free: u32,
}

/// A device of blank pages.
fn made(alloc: Global, blocks: u32, fails: &[u64]) -> Result<MemFlash, AttachFault>
    requires few { blocks ≤ 60000 }
    ensures pages { IfOk result (λ flash. (⟦<MemFlash as Flash>⟧.state flash).page_count ≡ 64 * blocks) }
    ensures blank { IfOk result (λ flash. (page : ℕ) → page < 64 * blocks → (⟦<MemFlash as Flash>⟧.state flash).blank page ≡ true) }
{
    let mut flash = MemFlash::new(alloc, blocks, fails)?;
    flash.make(alloc, "key", blocks)?;
    Ok(flash)
}

/// The pages that so many numbers fill.
fn pages(count: usize) -> u32
    requires few { count ≤ 2000000 }
    ensures pages { result ≡ (count + 511) / 512 }
{
    count.div_ceil(512) as u32
}

/// A device of two runs of numbers, from its beginning on, and at least so many blocks behind them. The calls named in `fails`
/// fail.
pub fn lay_out(
    alloc: Global,
    one: &[u32],
    other: &[u32],
    blocks: u32,
    fails: &[u64],
) -> Result<Laid, AttachFault>
    requires few { length one.now ≤ 2000000 }
    requires few_others { length other.now ≤ 2000000 }
    requires blocks { blocks ≤ 400 }
    ensures one { IfOk result (λ laid. HasRun (⟦<MemFlash as Flash>⟧.state laid.flash) (run_of laid.one)) }
    ensures other { IfOk result (λ laid. HasRun (⟦<MemFlash as Flash>⟧.state laid.flash) (run_of laid.other)) }
    ensures one_width { IfOk result (λ laid. laid.one.width ≡ 4) }
    ensures one_count { IfOk result (λ laid. laid.one.count ≡ length one.now) }
    ensures other_width { IfOk result (λ laid. laid.other.width ≡ 4) }
    ensures other_count { IfOk result (λ laid. laid.other.count ≡ length other.now) }
    ensures one_before { IfOk result (λ laid. laid.one.first + pages_of laid.one.count 4 ≤ laid.free) }
    ensures other_before { IfOk result (λ laid. laid.other.first + pages_of laid.other.count 4 ≤ laid.free) }
    ensures free_block { IfOk result (λ laid. laid.free % 64 ≡ 0) }
    ensures few { IfOk result (λ laid. laid.free ≤ 10000) }
    ensures pages { IfOk result (λ laid. (⟦<MemFlash as Flash>⟧.state laid.flash).page_count ≡ laid.free + 64 * blocks) }
{
    let first = pages(one.len());
    let second = pages(other.len());
    let used = (first + second).div_ceil(64);
    let mut flash = made(alloc, used + blocks, fails)?;
    let mut buf = [0; 2048];
    let one = write_numbers(&mut flash, &mut buf, one, 0)?;
    let other = write_numbers(&mut flash, &mut buf, other, first)?;
    Ok(Laid {
        flash,
        one,
        other,
        free: 64 * used,
    })
}
