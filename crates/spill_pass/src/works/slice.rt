//! The steps of a slice.

ghost use Rattle.std.specs.Prelude.{◌≡◌, ◌+◌, ◌^◌, ◌<◌, true, false, ℕ, List, IfOk};
ghost use Rattle.ghost_model.specs.core.Causes.{Rose};
ghost use Rattle.id_merge.specs.Since.{Since, IsSince, Blames};
ghost use Rattle.spill_pass.specs.Sources.{BlamesSource};
ghost use Rattle.spill_pass.specs.Stepping.{Stepped};
ghost use Rattle.spill_pass.specs.Works.{Goal, LiesWithin, Spends, WorkGoes};

use crate::works::work::Work;
use edge_traits::flash::Flash;
use flash_pages::fault::PageFault;
use page_pool::PagePool;

/// Goes on with a work until it called the flash or is done, and answers whether it is done. So there is at least one call where
/// there is more to do.
///
/// After a fault only `give_up` may be called.
pub fn go_on<W: Work, F: Flash>(
    work: &mut W,
    flash: &mut F,
    pool: &mut PagePool,
    spent: &mut u64,
) -> Result<bool, PageFault>
    requires few { spent.old + 8 < 2 ^ 64 }
    requires ready { W.ready F.told (F.state flash.old) pool.old work.old false }
    ensures stepped { Stepped 8 (F.state flash.old) (F.state flash.new) spent.old spent.new result }
    ensures called { IfOk result (λ done. done ≡ false → Rose (F.state flash.old).calls (F.state flash.new).calls) }
    ensures goes { WorkGoes (W.unwritten work.old) (F.state flash.old) (F.state flash.new) pool.old pool.new (W.leases work.old) (W.leases work.new) }
    ensures ready { IfOk result (λ done. W.ready F.told (F.state flash.new) pool.new work.new done) }
    ensures fewer { IfOk result (λ done. done ≡ false → W.left pool.new work.new < W.left pool.old work.old) }
    ensures has { F.told ≡ true → (goal : Goal) → W.has F.told (F.state flash.old).page pool.old work.old false goal → IfOk result (λ done. W.has F.told (F.state flash.new).page pool.new work.new done goal) }
    ensures sound { F.told ≡ true → (goal : Goal) → W.has F.told (F.state flash.old).page pool.old work.old false goal → BlamesSource (W.damaged (F.state flash.new).page (W.rows work.old) work.old) result }
    ensures less { (page : ℕ → List ℕ) → (among : ℕ) → (number slot found : ℕ) → W.damaged page among work.new number slot found → W.damaged page among work.old number slot found }
    ensures given { (since : Since) → (size : ℕ) → IsSince F.told (F.state flash.old) since → W.given since size (F.state flash.old) pool.old work.old false → IfOk result (λ done. W.given since size (F.state flash.new) pool.new work.new done) }
    ensures blames { (since : Since) → (size : ℕ) → IsSince F.told (F.state flash.old) since → W.given since size (F.state flash.old) pool.old work.old false → Blames since (F.state flash.new) result }
    ensures costs { F.told ≡ true → (goal : Goal) → (most : ℕ) → W.costs F.told (F.state flash.old).page pool.old work.old goal most → Spends (W.costs F.told (F.state flash.new).page pool.new work.new goal) spent.old spent.new most result }
    ensures lies { LiesWithin (W.outside work.old) (W.outside work.new) (W.unwritten work.old) (W.unwritten work.new) }
    ensures rows { W.rows work.new ≡ W.rows work.old }
    ensures same { W.same work.old work.new }
{
    let before = *spent;
    'steps: while *spent == before {
        if work.step(flash, pool, spent)? {
            return Ok(true);
        }
    }
    Ok(false)
}
