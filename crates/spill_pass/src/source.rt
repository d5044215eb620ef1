//! What gives lists one after another.

ghost use Rattle.std.specs.Prelude.{◌≡◌, ◌+◌, ◌*◌, ◌^◌, ◌<◌, ◌≤◌, Bool, true, ℕ, List, IfOk, IfSome, OnOk};
ghost use Rattle.ghost_base.specs.declared.runs.ListRef.{ListRef};
ghost use Rattle.edge_traits.specs.Devices.{Device};
ghost use Rattle.page_pool.specs.Pools.{Pool};
ghost use Rattle.id_merge.specs.Since.{Since, IsSince, Blames};
ghost use Rattle.spill_pass.specs.Known.{KnowsNext};
ghost use Rattle.spill_pass.specs.Lists.{OutOfRowsIn};
ghost use Rattle.spill_pass.specs.Stepping.{Stepped};
ghost use Rattle.spill_pass.specs.Sources.{Source, SparesSource, LooksUp, GaveNext, GivesLists, BlamesSource};

use edge_traits::flash::Flash;
use flash_pages::fault::PageFault;
use ghost_base::runs::ListRef;
use page_pool::{Lease, PagePool};

/// Gives ascending lists of identifiers on the flash, one after another, and reads through one buffer.
///
/// Over any pages the lists have together no more identifiers than the source says before: a place with which they would is
/// damaged.
pub trait ListSource {
    /// What is still to come, and what is used.
    ghost source: { Self → Source };

    /// The next list may be asked for.
    ghost ready: { (told : Bool) → Device → Pool → Self → Type 0 };

    /// The next call makes one of the flash.
    ghost calls: { Pool → Self → Bool };

    /// A list that it may give, or gave already, by the bytes of the pages.
    ghost may_give: { (page : ℕ → List ℕ) → Self → ListRef → Type 0 };

    /// Where pages are told: the lists still to come have these identifiers by right pages, of the rows and ascending.
    ghost has_lists: { (page right : ℕ → List ℕ) → (rows : ℕ) → Self → List (List ℕ) → Type 0 };

    /// What is at hand was read since then, and a slot of what is still to be read, lists of identifiers of the rows among it, may be
    /// blamed, or it is in order.
    ghost given: { (since : Since) → Device → Pool → (rows : ℕ) → Self → Type 0 };

    /// A slot that is damaged, by the bytes of the pages: what it has may not stand there by itself. It is one of the source's, or one
    /// without an identifier of the rows that reading of a list gets to that it may give.
    ghost damaged: { (page : ℕ → List ℕ) → (rows : ℕ) → Self → (number slot found : ℕ) → Type 0 };

    /// The next list, or `None` at their end. It makes at most three calls of the flash, which it adds to `spent`. After a fault the
    /// same call is made anew.
    fn next_list<F: Flash>(
        &mut self,
        flash: &mut F,
        pool: &mut PagePool,
        spent: &mut u64,
    ) -> Result<Option<ListRef>, PageFault>
        requires ready { ready F.told (F.state flash.old) pool.old self.old }
        requires few { spent.old + 3 < 2 ^ 64 }
        ensures gives { F.told ≡ true → (right : ℕ → List ℕ) → (rows : ℕ) → (lists : List (List ℕ)) → has_lists (F.state flash.old).page right rows self.old lists → GivesLists (has_lists (F.state flash.new).page right rows self.new) (F.state flash.new).page right rows lists result }
        ensures may { F.told ≡ true → IfOk result (λ list. IfSome list (may_give (F.state flash.new).page self.old)) }
        ensures still_may { (page : ℕ → List ℕ) → (list : ListRef) → may_give page self.old list → may_give page self.new list }
        ensures blames { (since : Since) → (rows : ℕ) → IsSince F.told (F.state flash.old) since → given since (F.state flash.old) pool.old rows self.old → Blames since (F.state flash.new) result }
        ensures known { (since : Since) → (rows : ℕ) → IsSince F.told (F.state flash.old) since → given since (F.state flash.old) pool.old rows self.old → KnowsNext (given since (F.state flash.new) pool.new rows self.new) since (F.state flash.new).page rows result }
        ensures sound { F.told ≡ true → (right : ℕ → List ℕ) → (rows : ℕ) → (lists : List (List ℕ)) → has_lists (F.state flash.old).page right rows self.old lists → BlamesSource (damaged (F.state flash.new).page rows self.old) result }
        ensures less { (page : ℕ → List ℕ) → (rows : ℕ) → (number slot found : ℕ) → damaged page rows self.new number slot found → damaged page rows self.old number slot found }
        ensures gave { IfOk result (GaveNext (F.state flash.new) (source self.old) (source self.new)) }
        ensures looks { LooksUp (F.state flash.old) (F.state flash.new) pool.old pool.new (source self.old).lease (calls pool.old self.old) (source self.old) (source self.new) result }
        ensures stepped { Stepped 3 (F.state flash.old) (F.state flash.new) spent.old spent.new result }
        ensures a_list { OnOk result (spent.new + 3 * (source self.new).lists_left ≤ spent.old + 3 * (source self.old).lists_left) }
        ensures ready { ready F.told (F.state flash.new) pool.new self.new };

    /// Whether the next call makes one of the flash.
    fn will_call(&self, pool: &PagePool) -> bool
        requires ready { (told : Bool) × ((device : Device) × ready told device pool.now self.now) }
        ensures calls { result ≡ calls pool.now self.now };

    /// How many lists are still to be given.
    fn lists_left(&self) -> u32
        ensures left { result ≡ (source self.now).lists_left };

    /// Gives the lease back.
    fn end(self) -> Lease
        ensures lease { result ≡ (source self).lease };

    /// A law: the next list may be asked for where nobody changed the pages and the buffer in use, the lists are the same, and what is
    /// at hand was read since as before. A slot without an identifier of the rows that reading of such a list gets to is damaged.
    fn spared(&self)
        ensures stays { (told : Bool) → (before now : Device) → (pool later : Pool) → SparesSource before now pool later (source self.now) → ready told before pool self.now → ready told now later self.now }
        ensures given { (since : Since) → (told : Bool) → (before now : Device) → (pool later : Pool) → (rows : ℕ) → SparesSource before now pool later (source self.now) → ((at number : ℕ) → (bytes : List ℕ) → before.gave at number bytes ≡ true → now.gave at number bytes ≡ true) → ready told before pool self.now → given since before pool rows self.now → given since now later rows self.now }
        ensures same { (page now right : ℕ → List ℕ) → (rows : ℕ) → (ids : List (List ℕ)) → ((number : ℕ) → (source self.now).uses number ≡ true → now number ≡ page number) → has_lists page right rows self.now ids → has_lists now right rows self.now ids }
        ensures may_stay { (page now : ℕ → List ℕ) → (list : ListRef) → ((number : ℕ) → (source self.now).uses number ≡ true → now number ≡ page number) → may_give page self.now list → may_give now self.now list }
        ensures judged { (page right : ℕ → List ℕ) → (rows : ℕ) → (ids : List (List ℕ)) → has_lists page right rows self.now ids → (list : ListRef) → may_give page self.now list → (number slot found : ℕ) → OutOfRowsIn page list rows number slot found → damaged page rows self.now number slot found };
}
