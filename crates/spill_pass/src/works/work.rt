//! A work that is done in steps.

ghost use Rattle.std.specs.Prelude.{◌≡◌, ◌+◌, ◌^◌, ◌<◌, ◌≤◌, Bool, true, false, ℕ, List, IfOk};
ghost use Rattle.edge_traits.specs.Devices.{Device};
ghost use Rattle.page_pool.specs.Pools.{Pool, AreOut, all_given};
ghost use Rattle.id_merge.specs.Since.{Since, IsSince, Blames};
ghost use Rattle.id_merge.specs.Spared.{Spares};
ghost use Rattle.spill_pass.specs.Sources.{BlamesSource};
ghost use Rattle.spill_pass.specs.Stepping.{Stepped};
ghost use Rattle.spill_pass.specs.Works.{Goal, LiesWithin, Spends, WorkGoes};

use edge_traits::flash::Flash;
use flash_pages::fault::PageFault;
use page_pool::PagePool;

/// Comes to what it is to come to in steps, each of at most eight calls of the flash. It holds leases of buffers, and writes some
/// pages of the flash.
pub trait Work {
    /// A step may be made, or it is done and what it came to stands.
    ghost ready: { (told : Bool) → Device → Pool → Self → (done : Bool) → Type 0 };

    /// Where pages are told: by their bytes it comes to that goal, or came to it.
    ghost has: { (told : Bool) → (page : ℕ → List ℕ) → Pool → Self → (done : Bool) → Goal → Type 0 };

    /// What is at hand was read since then, and a slot of what is read or written, for so many identifiers, may be blamed, or it is in
    /// order.
    ghost given: { Since → (size : ℕ) → Device → Pool → Self → (done : Bool) → Type 0 };

    /// A slot that is damaged, by the bytes of the pages: what it has may not stand there by itself, among identifiers of the rows.
    ghost damaged: { (page : ℕ → List ℕ) → (rows : ℕ) → Self → (number slot found : ℕ) → Type 0 };

    /// How many rows there are.
    ghost rows: { Self → ℕ };

    /// Where pages are told: it makes no more than so many calls of the flash, by what the pages have.
    ghost costs: { (told : Bool) → (page : ℕ → List ℕ) → Pool → Self → Goal → (left : ℕ) → Type 0 };

    /// How much is to do: each step leaves less.
    ghost left: { Pool → Self → ℕ };

    /// The leases that it holds.
    ghost leases: { Self → List ℕ };

    /// It never writes that page.
    ghost unwritten: { Self → (page : ℕ) → Type 0 };

    /// All that it reads and writes lies outside of a region of pages.
    ghost outside: { Self → (low high : ℕ) → Type 0 };

    /// What stays from step to step.
    ghost same: { (old new : Self) → Type 0 };

    /// Goes on, and answers whether it is done. It makes at most eight calls of the flash, which it adds to `spent`.
    ///
    /// After a fault only `give_up` may be called.
    fn step<F: Flash>(
        &mut self,
        flash: &mut F,
        pool: &mut PagePool,
        spent: &mut u64,
    ) -> Result<bool, PageFault>
        requires few { spent.old + 8 < 2 ^ 64 }
        requires ready { ready F.told (F.state flash.old) pool.old self.old false }
        ensures stepped { Stepped 8 (F.state flash.old) (F.state flash.new) spent.old spent.new result }
        ensures goes { WorkGoes (unwritten self.old) (F.state flash.old) (F.state flash.new) pool.old pool.new (leases self.old) (leases self.new) }
        ensures ready { IfOk result (λ done. ready F.told (F.state flash.new) pool.new self.new done) }
        ensures fewer { IfOk result (λ done. done ≡ false → left pool.new self.new < left pool.old self.old) }
        ensures has { F.told ≡ true → (goal : Goal) → has F.told (F.state flash.old).page pool.old self.old false goal → IfOk result (λ done. has F.told (F.state flash.new).page pool.new self.new done goal) }
        ensures sound { F.told ≡ true → (goal : Goal) → has F.told (F.state flash.old).page pool.old self.old false goal → BlamesSource (damaged (F.state flash.new).page (rows self.old) self.old) result }
        ensures less { (page : ℕ → List ℕ) → (among : ℕ) → (number slot found : ℕ) → damaged page among self.new number slot found → damaged page among self.old number slot found }
        ensures given { (since : Since) → (size : ℕ) → IsSince F.told (F.state flash.old) since → given since size (F.state flash.old) pool.old self.old false → IfOk result (λ done. given since size (F.state flash.new) pool.new self.new done) }
        ensures blames { (since : Since) → (size : ℕ) → IsSince F.told (F.state flash.old) since → given since size (F.state flash.old) pool.old self.old false → Blames since (F.state flash.new) result }
        ensures costs { F.told ≡ true → (goal : Goal) → (most : ℕ) → costs F.told (F.state flash.old).page pool.old self.old goal most → Spends (costs F.told (F.state flash.new).page pool.new self.new goal) spent.old spent.new most result }
        ensures lies { LiesWithin (outside self.old) (outside self.new) (unwritten self.old) (unwritten self.new) }
        ensures rows { rows self.new ≡ rows self.old }
        ensures same { same self.old self.new };

    /// Gives every lease back.
    fn give_up(self, pool: &mut PagePool)
        requires out { AreOut pool.old (leases self) }
        ensures given { pool.new ≡ all_given pool.old (leases self) };

    /// A law: a step may still be made, what is at hand was read since as before, and by the pages it comes to the same, where others
    /// write only pages of a region outside of which all of it lies, and use other buffers.
    fn spared(&self)
        ensures ready { (low high : ℕ) → (told : Bool) → (before now : Device) → (pool later : Pool) → Spares low high before now pool later (leases self.now) → outside self.now low high → ready told before pool self.now false → ready told now later self.now false }
        ensures given { (low high : ℕ) → (told : Bool) → (since : Since) → (size : ℕ) → (before now : Device) → (pool later : Pool) → Spares low high before now pool later (leases self.now) → outside self.now low high → ready told before pool self.now false → given since size before pool self.now false → given since size now later self.now false }
        ensures has { (low high : ℕ) → (told : Bool) → (before now : Device) → (pool later : Pool) → (goal : Goal) → Spares low high before now pool later (leases self.now) → outside self.now low high → ready told before pool self.now false → has told before.page pool self.now false goal → has told now.page later self.now false goal };

    /// The leases that it holds are out.
    ghost held: { (told : Bool) (device : Device) (pool : Pool) (work : Self) → ready told device pool work false → AreOut pool (leases work) };

    /// It writes no page of a region outside of which all of it lies.
    ghost apart: { (work : Self) (low high page : ℕ) → outside work low high → low ≤ page → page < high → unwritten work page };

    /// Nothing changed.
    ghost same_itself: { (work : Self) → same work work };

    /// What stays over one step and over the next stays over both.
    ghost same_again: { (old between new : Self) → same old between → same between new → same old new };
}
