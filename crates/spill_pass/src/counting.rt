//! How many calls of the flash a step of a merge makes, and how many pages lists take.

ghost use Rattle.std.specs.Prelude.{◌≡◌, ◌+◌, ◌-◌, ◌<◌, ◌^◌, true, ℕ, List};
ghost use Rattle.id_merge.specs.Cursors.{Moves, AreRight};
ghost use Rattle.id_merge.specs.Merges.{CanMerge, GivesStep, LastAfterStep, StepTells, HandAfterStep, unread};
ghost use Rattle.spill_pass.specs.FewPages.{FreshListIsShort, FreshRecordsAreShort, WritesFewPages};
ghost use Rattle.spill_pass.specs.MergeSteps.{CountsStep, ReadsLists};
ghost use Rattle.spill_pass.specs.Merging.{step_calls};

use edge_traits::flash::Flash;
use flash_pages::fault::PageFault;
use id_merge::{Merge, Step};
use page_pool::PagePool;

/// A law: a list that was begun has no more pages to be read than its identifiers fill, and two, and no more than it has records,
/// and two; and a list that is written has no more pages than its identifiers take.
pub fn pages_are_few()
    ensures list { FreshListIsShort }
    ensures records { FreshRecordsAreShort }
    ensures written { WritesFewPages }
{}

/// The calls of the flash that a step of a merge made: one where there is more to do or the flash failed.
fn step_calls(step: &Result<Step, PageFault>) -> u64
    ensures calls { result ≡ step_calls step.now }
{
    match step {
        Ok(Step::More) => 1,
        Ok(Step::Found(_)) | Ok(Step::End) => 0,
        Err(PageFault::Flash) => 1,
        Err(PageFault::Damaged { .. }) => 0,
    }
}

/// Takes a step of a merge, and adds its call of the flash, if it makes one, to `spent`.
pub fn step_and_count<F: Flash>(
    merge: &mut Merge,
    flash: &mut F,
    pool: &mut PagePool,
    spent: &mut u64,
) -> Result<Step, PageFault>
    requires ready { CanMerge F.told (F.state flash.old) pool.old merge.old }
    requires counts { spent.old + 1 < 2 ^ 64 }
    ensures gives { F.told ≡ true → (right : ℕ → List ℕ) → AreRight (F.state flash.old).page right merge.old.cursors.items → GivesStep right merge.old merge.new result }
    ensures right { F.told ≡ true → (right : ℕ → List ℕ) → AreRight (F.state flash.old).page right merge.old.cursors.items → AreRight (F.state flash.new).page right merge.new.cursors.items }
    ensures reads { ReadsLists F.told (F.state flash.old) (F.state flash.new) pool.old merge.old.cursors.items merge.new.cursors.items result }
    ensures last { LastAfterStep merge.old merge.new result }
    ensures tells { StepTells (F.state flash.old) (F.state flash.new) (unread pool.old merge.old) (unread pool.new merge.new) result }
    ensures hand { HandAfterStep merge.old merge.new result }
    ensures unions { merge.new.unions ≡ merge.old.unions }
    ensures moves { Moves F.told (F.state flash.old) (F.state flash.new) pool.old pool.new merge.old.cursors.items merge.new.cursors.items }
    ensures ready { CanMerge F.told (F.state flash.new) pool.new merge.new }
    ensures counts { CountsStep (F.state flash.old) (F.state flash.new) spent.old spent.new result }
{
    let step = merge.step(flash, pool);
    *spent += step_calls(&step);
    step
}
