//! A look-up in a reply, step by step.

ghost use Rattle.std.specs.Prelude.{◌≡◌, ◌<◌, ◌≤◌, ◌+◌, ◌-◌, ◌/◌, ◌^◌, ℕ, min, max, Bool, true, List, None, Some, length, IfOk, IfErr, OnErr};
ghost use Rattle.ghost_model.specs.forms.Runs as runs;
ghost use Rattle.ghost_base.specs.Runs.{run_of};
ghost use Rattle.edge_traits.specs.Devices.{Device, GaveSince, next_if};
ghost use Rattle.page_pool.specs.Pools.{ChangesPage, IsOut, bytes_at, page_at};
ghost use Rattle.flash_pages.specs.Reads.{Reads, ReadsPages, CanRead, IsFilled, WasGiven, must_read};
ghost use Rattle.flash_pages.specs.declared.fault.PageFault.TheVariants.{Damaged};
ghost use Rattle.visible_spool.specs.Replies.{IsReadable, IsSound, HoldsRows, Blames, IsFlash};
ghost use Rattle.visible_spool.specs.declared.search.Search.TheVariants.{New};
ghost use Rattle.visible_spool.specs.Searches.{BlamedHere, CallsLeft, GivesStep, HoldsOwn, IsElsewhere, IsFewer, IsNowhere, IsSearch, IsSlot, IsSought, IsSoughtAmong, KeepsSearch, LooksLeft, StepFinds, StepLies, StepStands, StepWas, TurnFinds, TurnIsInHeld, TurnLeaves, TurnLies, TurnNarrows, TurnStands, calls_if, guessed_page, guesses_left, is_more, left_in, pages_in, row_at, step_calls, width_left};

use crate::judging::Verdict;
use crate::reply::Reply;
use edge_traits::flash::Flash;
use flash_layout::pages;
use flash_pages::cells::found_of;
use flash_pages::fault::PageFault;
use flash_pages::load::load;
use ghost_base::runs::per_page;
use page_pool::{Lease, PagePool};

/// How often a page is guessed by proportion, before the pages that are left are halved.
pub const GUESSES: u32 = 3;

/// How many rows are before one and with it, and the identifier of the last of them.
#[derive(Clone, Copy)]
pub struct Known {
    /// How many rows.
    pub rank: u32,
    /// The identifier.
    pub id: u32,
}

/// The pages that are left, counted from the reply's first one, and what is known on both sides of them.
#[derive(Clone, Copy)]
pub struct Looking {
    /// The first page that is left.
    pub low: u32,
    /// The page after the last one that is left.
    pub high: u32,
    /// A row before them.
    pub below: Known,
    /// A row behind them.
    pub above: Known,
    /// How often a page may still be guessed.
    pub guesses: u32,
}

/// How far a look-up has come.
#[derive(Clone, Copy)]
pub enum Search {
    /// Nothing was looked at.
    New,
    /// Some pages are left.
    Among(Looking),
}

/// What a step of a look-up gives.
#[derive(Clone, Copy)]
pub enum Step {
    /// A page was read, and the look-up goes on.
    More,
    /// The place of the row in the reply, if there is one. Its page is in the buffer: `Reply::row`.
    Found(Option<u32>),
    /// No row has the identifier. No page was left in which it may stand, and one was read before this was said.
    Beyond,
}

/// What a look at a page gives.
#[derive(Clone, Copy)]
pub(crate) enum Turn {
    /// The place of the row, if there is one.
    Over(Option<u32>),
    /// Other pages are left.
    Narrowed(Looking),
}

/// Forgets which page of the flash a buffer was filled from.
fn forget(pool: &mut PagePool, lease: &Lease)
    requires out { IsOut pool.old lease.now }
    ensures out { IsOut pool.new lease.now }
    ensures changes { ChangesPage pool.old pool.new lease.now }
    ensures forgotten { page_at pool.new lease.now ≡ None }
{
    pool.page_mut(lease);
}

impl Reply {
    /// The pages in which an identifier may stand, since those before it and behind it leave it a range of places.
    fn looking(&self, id: u32) -> Looking
        requires wide { 4 ≤ self.now.run.width }
        requires narrow { self.now.run.width ≤ 1564 }
        requires few { self.now.run.count ≤ self.now.rows }
        requires most { self.now.rows ≤ 1000000 }
        ensures within { result.high ≤ pages_in self.now }
        ensures sought { (page : ℕ → List ℕ) (rows : List (List ℕ)) → HoldsRows page self.now rows → IsSoughtAmong self.now rows id result }
        ensures fewer { (k : ℕ) → self.now.run.count < 2 ^ k → LooksLeft result (k + 3) }
        ensures guesses { result.guesses ≡ GUESSES }
    {
        let each = per_page(self.run.width);
        let first = id.saturating_sub(self.rows - self.run.count + 1);
        let after = self.run.count.min(id);
        Looking {
            low: first / each,
            high: pages(after, self.run.width),
            below: Known { rank: 0, id: 0 },
            above: Known {
                rank: self.run.count + 1,
                id: self.rows + 1,
            },
            guesses: GUESSES,
        }
    }

    /// Where a search stands: one that is new begins with all pages in which the identifier may stand.
    fn begun(&self, search: Search, id: u32) -> Looking
        requires wide { 4 ≤ self.now.run.width }
        requires narrow { self.now.run.width ≤ 1564 }
        requires few { self.now.run.count ≤ self.now.rows }
        requires most { self.now.rows ≤ 1000000 }
        requires search { IsSearch self.now search }
        ensures within { result.high ≤ pages_in self.now }
        ensures sought { (page : ℕ → List ℕ) (rows : List (List ℕ)) → HoldsRows page self.now rows → IsSought self.now rows id search → IsSoughtAmong self.now rows id result }
        ensures fewer { (k left : ℕ) → self.now.run.count < 2 ^ k → CallsLeft k search left → LooksLeft result left }
        ensures left { width_left result < left_in self.now search + 1 }
    {
        match search {
            Search::New => self.looking(id),
            Search::Among(looking) => looking,
        }
    }

    /// The page that is guessed by proportion, counted from the first one.
    fn guess(&self, below: Known, above: Known, id: u32) -> u32
        requires wide { 4 ≤ self.now.run.width }
        requires narrow { self.now.run.width ≤ 1564 }
        ensures page { result ≡ guessed_page self.now below above id }
    {
        let ids = above.id.saturating_sub(below.id).max(1) as u64;
        let ranks = above.rank.saturating_sub(below.rank) as u64;
        let past = id.saturating_sub(below.id) as u64;
        let more = past.saturating_mul(ranks) / ids;
        let place = (below.rank as u64).saturating_add(more).saturating_sub(1);
        place.min(self.run.count as u64) as u32 / per_page(self.run.width)
    }

    /// The page that is looked at next: by proportion as long as guesses are left, and then the middle one.
    fn next_page(&self, looking: Looking, id: u32) -> u32
        requires wide { 4 ≤ self.now.run.width }
        requires narrow { self.now.run.width ≤ 1564 }
        requires open { looking.low < looking.high }
        ensures low { looking.low ≤ result }
        ensures high { result < looking.high }
        ensures halves { looking.guesses ≡ 0 → result ≡ looking.low + (looking.high - looking.low) / 2 }
        ensures guesses { 0 < looking.guesses → result ≡ min (max (guessed_page self.now looking.below looking.above id) looking.low) (looking.high - 1) }
    {
        if looking.guesses == 0 {
            return looking.low + (looking.high - looking.low) / 2;
        }
        self.guess(looking.below, looking.above, id)
            .max(looking.low)
            .min(looking.high - 1)
    }

    /// The fault of the slot of the row at a place, in the page that has these bytes.
    fn damage(&self, bytes: &[u8; 2048], place: u32) -> PageFault
        requires wide { 4 ≤ self.now.run.width }
        requires narrow { self.now.run.width ≤ 1564 }
        requires page { runs.page_of (run_of self.now.run) place < 2 ^ 32 }
        ensures fault { result ≡ Damaged (runs.page_of (run_of self.now.run) place) (runs.slot_of (run_of self.now.run) place) (runs.found_in (row_at self.now bytes.now place)) }
        ensures wide { length (row_at self.now bytes.now place) ≡ self.now.run.width }
    {
        let each = per_page(self.run.width);
        PageFault::Damaged {
            page: self.run.first + place / each,
            slot: place % each,
            found: found_of(self.row(bytes, place)),
        }
    }

    /// What the bytes of a page that is left leave of the pages.
    fn read_off(
        &self,
        bytes: &[u8; 2048],
        looking: Looking,
        page: u32,
        id: u32,
    ) -> Result<Turn, PageFault>
        requires readable { IsSound self.now }
        requires low { looking.low ≤ page }
        requires high { page < looking.high }
        requires within { looking.high ≤ pages_in self.now }
        requires small { self.now.run.first + page < 2 ^ 32 }
        ensures finds { (pages : ℕ → List ℕ) (rows : List (List ℕ)) → HoldsRows pages self.now rows → bytes.now ≡ pages (self.now.run.first + page) → IsSoughtAmong self.now rows id looking → IfOk result (TurnFinds self.now rows id bytes.now) }
        ensures inside { (pages : ℕ → List ℕ) (rows : List (List ℕ)) → HoldsRows pages self.now rows → bytes.now ≡ pages (self.now.run.first + page) → IfOk result (TurnIsInHeld self.now rows (Some (self.now.run.first + page)) id) }
        ensures whole { (pages : ℕ → List ℕ) (rows : List (List ℕ)) → HoldsRows pages self.now rows → bytes.now ≡ pages (self.now.run.first + page) → IfErr result IsFlash }
        ensures stands { (since : ℕ) (device : Device) → GaveSince since device bytes.now (self.now.run.first + page) → IfOk result (TurnStands since device self.now bytes.now) }
        ensures blames { (since : ℕ) (device : Device) → GaveSince since device bytes.now (self.now.run.first + page) → IfErr result (Blames since device self.now) }
        ensures slot { IfErr result IsSlot }
        ensures lies { IfOk result (TurnLies self.now id (Some (self.now.run.first + page)) bytes.now) }
        ensures blamed { IfErr result (BlamedHere (Some (self.now.run.first + page))) }
        ensures narrows { IfOk result (TurnNarrows looking page) }
    {
        let each = per_page(self.run.width);
        let first = page * each;
        let last = (first + (each - 1)).min(self.run.count - 1);
        match self.judge(bytes, first, last, id) {
            Verdict::Before(low) => Ok(Turn::Narrowed(Looking {
                low: looking.low,
                high: page,
                below: looking.below,
                above: Known {
                    rank: first + 1,
                    id: low,
                },
                guesses: looking.guesses,
            })),
            Verdict::After(high) => Ok(Turn::Narrowed(Looking {
                low: page + 1,
                high: looking.high,
                below: Known {
                    rank: last + 1,
                    id: high,
                },
                above: looking.above,
                guesses: looking.guesses,
            })),
            Verdict::At(place) => Ok(Turn::Over(Some(place))),
            Verdict::Nowhere => Ok(Turn::Over(None)),
            Verdict::Wrong(place) => Err(self.damage(bytes, place)),
        }
    }

    /// What the bytes of a page of the device leave of the pages, if it is one of those that are left.
    fn look_at(
        &self,
        bytes: &[u8; 2048],
        looking: Looking,
        number: u32,
        id: u32,
    ) -> Result<Turn, PageFault>
        requires readable { IsSound self.now }
        requires within { looking.high ≤ pages_in self.now }
        ensures finds { (pages : ℕ → List ℕ) (rows : List (List ℕ)) → HoldsRows pages self.now rows → bytes.now ≡ pages number → IsSoughtAmong self.now rows id looking → IfOk result (TurnFinds self.now rows id bytes.now) }
        ensures inside { (pages : ℕ → List ℕ) (rows : List (List ℕ)) → HoldsRows pages self.now rows → bytes.now ≡ pages number → IfOk result (TurnIsInHeld self.now rows (Some number) id) }
        ensures whole { (pages : ℕ → List ℕ) (rows : List (List ℕ)) → HoldsRows pages self.now rows → bytes.now ≡ pages number → IfErr result IsFlash }
        ensures stands { (since : ℕ) (device : Device) → GaveSince since device bytes.now number → IfOk result (TurnStands since device self.now bytes.now) }
        ensures blames { (since : ℕ) (device : Device) → GaveSince since device bytes.now number → IfErr result (Blames since device self.now) }
        ensures slot { IfErr result IsSlot }
        ensures lies { IfOk result (TurnLies self.now id (Some number) bytes.now) }
        ensures blamed { IfErr result (BlamedHere (Some number)) }
        ensures leaves { IfOk result (TurnLeaves self.now (Some number) looking) }
    {
        if number < self.run.first {
            return Ok(Turn::Narrowed(looking));
        }
        let page = number - self.run.first;
        if page < looking.low || looking.high <= page {
            return Ok(Turn::Narrowed(looking));
        }
        self.read_off(bytes, looking, page, id)
    }

    /// The same of the page in the buffer.
    fn look_held(
        &self,
        pool: &PagePool,
        lease: &Lease,
        looking: Looking,
        id: u32,
    ) -> Result<Turn, PageFault>
        requires readable { IsSound self.now }
        requires within { looking.high ≤ pages_in self.now }
        requires out { IsOut pool.now lease.now }
        ensures finds { (told : Bool) (pages : ℕ → List ℕ) (rows : List (List ℕ)) → told ≡ true → IsFilled told pages pool.now lease.now → HoldsRows pages self.now rows → IsSoughtAmong self.now rows id looking → IfOk result (TurnFinds self.now rows id (bytes_at pool.now lease.now)) }
        ensures inside { (told : Bool) (pages : ℕ → List ℕ) (rows : List (List ℕ)) → told ≡ true → IsFilled told pages pool.now lease.now → HoldsRows pages self.now rows → IfOk result (TurnIsInHeld self.now rows (page_at pool.now lease.now) id) }
        ensures whole { (told : Bool) (pages : ℕ → List ℕ) (rows : List (List ℕ)) → told ≡ true → IsFilled told pages pool.now lease.now → HoldsRows pages self.now rows → IfErr result IsFlash }
        ensures stands { (since : ℕ) (device : Device) → WasGiven since device pool.now lease.now → IfOk result (TurnStands since device self.now (bytes_at pool.now lease.now)) }
        ensures blames { (since : ℕ) (device : Device) → WasGiven since device pool.now lease.now → IfErr result (Blames since device self.now) }
        ensures slot { IfErr result IsSlot }
        ensures lies { IfOk result (TurnLies self.now id (page_at pool.now lease.now) (bytes_at pool.now lease.now)) }
        ensures blamed { IfErr result (BlamedHere (page_at pool.now lease.now)) }
        ensures leaves { IfOk result (TurnLeaves self.now (page_at pool.now lease.now) looking) }
    {
        match pool.filled_from(lease) {
            None => Ok(Turn::Narrowed(looking)),
            Some(number) => self.look_at(pool.page(lease), looking, number, id),
        }
    }

    /// Reads a page that is left, and what it leaves of the pages.
    fn look<F: Flash>(
        &self,
        flash: &mut F,
        pool: &mut PagePool,
        lease: &Lease,
        looking: Looking,
        page: u32,
        id: u32,
    ) -> Result<Turn, PageFault>
        requires readable { IsReadable (F.state flash.old) self.now }
        requires low { looking.low ≤ page }
        requires high { page < looking.high }
        requires within { looking.high ≤ pages_in self.now }
        requires ready { CanRead F.told (F.state flash.old) pool.old lease.now }
        ensures finds { F.told ≡ true → (rows : List (List ℕ)) → HoldsRows (F.state flash.old).page self.now rows → IsSoughtAmong self.now rows id looking → IfOk result (TurnFinds self.now rows id (bytes_at pool.new lease.now)) }
        ensures whole { F.told ≡ true → (rows : List (List ℕ)) → HoldsRows (F.state flash.old).page self.now rows → IfErr result IsFlash }
        ensures stands { (since : ℕ) → since ≤ (F.state flash.old).calls → WasGiven since (F.state flash.old) pool.old lease.now → IfOk result (TurnStands since (F.state flash.new) self.now (bytes_at pool.new lease.now)) }
        ensures blames { (since : ℕ) → since ≤ (F.state flash.old).calls → WasGiven since (F.state flash.old) pool.old lease.now → IfErr result (Blames since (F.state flash.new) self.now) }
        ensures lies { IfOk result (TurnLies self.now id (page_at pool.new lease.now) (bytes_at pool.new lease.now)) }
        ensures blamed { IfErr result (BlamedHere (page_at pool.new lease.now)) }
        ensures narrows { IfOk result (TurnNarrows looking page) }
        ensures readable { IsReadable (F.state flash.new) self.now }
        ensures read { Reads F.told (F.state flash.old) (F.state flash.new) pool.old pool.new lease.now (must_read pool.old lease.now (self.now.run.first + page)) (self.now.run.first + page) result }
    {
        match load(flash, pool, lease, self.run.first + page) {
            Err(fault) => Err(fault),
            Ok(()) => self.read_off(pool.page(lease), looking, page, id),
        }
    }

    /// The page of the reply that a buffer has, or the one that is nearest to it, counted from the first one. Where the buffer has
    /// none, it is the first one.
    fn near_page(&self, held: Option<u32>) -> u32
        requires sound { IsSound self.now }
        requires some { 0 < self.now.run.count }
        ensures within { result < pages_in self.now }
        ensures held { (page : ℕ) → held ≡ Some page → self.now.run.first ≤ page → page - self.now.run.first < pages_in self.now → result ≡ page - self.now.run.first }
    {
        held.unwrap_or(0)
            .saturating_sub(self.run.first)
            .min(pages(self.run.count, self.run.width) - 1)
    }

    /// Reads a page of the reply, also where it stands in the buffer.
    fn read_anew<F: Flash>(
        &self,
        flash: &mut F,
        pool: &mut PagePool,
        lease: &Lease,
    ) -> Result<(), PageFault>
        requires readable { IsReadable (F.state flash.old) self.now }
        requires some { 0 < self.now.run.count }
        requires ready { CanRead F.told (F.state flash.old) pool.old lease.now }
        ensures no_slot { IfErr result IsFlash }
        ensures page { HoldsOwn self.now (page_at pool.old lease.now) (page_at pool.new lease.now) }
        ensures calls { (F.state flash.new).calls ≡ next_if true (F.state flash.old).calls }
        ensures readable { IsReadable (F.state flash.new) self.now }
        ensures read { ReadsPages F.told (F.state flash.old) (F.state flash.new) pool.old pool.new lease.now 1 result }
    {
        let page = self.near_page(pool.filled_from(lease));
        forget(pool, lease);
        load(flash, pool, lease, self.run.first + page)
    }

    /// Says that no row has the identifier, since no page is left in which it may stand. Where no page was read for it and the
    /// reply has one, one is read first.
    fn nowhere<F: Flash>(
        &self,
        flash: &mut F,
        pool: &mut PagePool,
        lease: &Lease,
        search: Search,
    ) -> Result<Step, PageFault>
        requires readable { IsReadable (F.state flash.old) self.now }
        requires ready { CanRead F.told (F.state flash.old) pool.old lease.now }
        ensures nowhere { IfOk result IsNowhere }
        ensures no_slot { IfErr result IsFlash }
        ensures page { HoldsOwn self.now (page_at pool.old lease.now) (page_at pool.new lease.now) }
        ensures some { (k left : ℕ) → CallsLeft k search left → step_calls (page_at pool.old lease.now) (page_at pool.new lease.now) result ≡ true → 1 ≤ left }
        ensures reads { search ≡ New → 0 < self.now.run.count → step_calls (page_at pool.old lease.now) (page_at pool.new lease.now) result ≡ true }
        ensures calls { (F.state flash.new).calls ≡ next_if (step_calls (page_at pool.old lease.now) (page_at pool.new lease.now) result) (F.state flash.old).calls }
        ensures readable { IsReadable (F.state flash.new) self.now }
        ensures read { ReadsPages F.told (F.state flash.old) (F.state flash.new) pool.old pool.new lease.now (calls_if (step_calls (page_at pool.old lease.now) (page_at pool.new lease.now) result)) result }
    {
        if self.run.count == 0 {
            return Ok(Step::Found(None));
        }
        match search {
            Search::Among(_) => Ok(Step::Found(None)),
            Search::New => match self.read_anew(flash, pool, lease) {
                Err(fault) => Err(fault),
                Ok(()) => Ok(Step::Beyond),
            },
        }
    }

    /// Looks at the next page, and goes on where it does not decide. Where no page is left, no row has the identifier.
    fn advance<F: Flash>(
        &self,
        flash: &mut F,
        pool: &mut PagePool,
        lease: &Lease,
        search: &mut Search,
        looking: Looking,
        id: u32,
    ) -> Result<Step, PageFault>
        requires readable { IsReadable (F.state flash.old) self.now }
        requires within { looking.high ≤ pages_in self.now }
        requires elsewhere { IsElsewhere self.now (page_at pool.old lease.now) looking }
        requires search { IsSearch self.now search.old }
        requires ready { CanRead F.told (F.state flash.old) pool.old lease.now }
        ensures search { IsSearch self.now search.new }
        ensures sought { F.told ≡ true → (rows : List (List ℕ)) → HoldsRows (F.state flash.old).page self.now rows → IsSoughtAmong self.now rows id looking → IsSought self.now rows id search.old → IsSought self.now rows id search.new }
        ensures failed { OnErr result (search.new ≡ search.old) }
        ensures finds { F.told ≡ true → (rows : List (List ℕ)) → HoldsRows (F.state flash.old).page self.now rows → IsSoughtAmong self.now rows id looking → IfOk result (StepFinds self.now rows id (bytes_at pool.new lease.now)) }
        ensures whole { F.told ≡ true → (rows : List (List ℕ)) → HoldsRows (F.state flash.old).page self.now rows → IfErr result IsFlash }
        ensures stands { (since : ℕ) → since ≤ (F.state flash.old).calls → WasGiven since (F.state flash.old) pool.old lease.now → IfOk result (StepStands since (F.state flash.new) self.now (bytes_at pool.new lease.now)) }
        ensures blames { (since : ℕ) → since ≤ (F.state flash.old).calls → WasGiven since (F.state flash.old) pool.old lease.now → IfErr result (Blames since (F.state flash.new) self.now) }
        ensures lies { IfOk result (StepLies self.now id (page_at pool.new lease.now) (bytes_at pool.new lease.now)) }
        ensures page { HoldsOwn self.now (page_at pool.old lease.now) (page_at pool.new lease.now) }
        ensures blamed { IfErr result (BlamedHere (page_at pool.new lease.now)) }
        ensures shorter { IfOk result (λ step. is_more step ≡ true → left_in self.now search.new < width_left looking) }
        ensures fewer { (k left : ℕ) → LooksLeft looking left → IfOk result (λ step. is_more step ≡ true → IsFewer k search.new left) }
        ensures guesses { IfOk result (λ step. is_more step ≡ true → guesses_left search.new ≡ looking.guesses - 1) }
        ensures some { (k left : ℕ) → CallsLeft k search.old left → LooksLeft looking left → step_calls (page_at pool.old lease.now) (page_at pool.new lease.now) result ≡ true → 1 ≤ left }
        ensures reads { search.old ≡ New → 0 < self.now.run.count → step_calls (page_at pool.old lease.now) (page_at pool.new lease.now) result ≡ true }
        ensures more { IfOk result (λ step. is_more step ≡ true → step_calls (page_at pool.old lease.now) (page_at pool.new lease.now) result ≡ true) }
        ensures calls { (F.state flash.new).calls ≡ next_if (step_calls (page_at pool.old lease.now) (page_at pool.new lease.now) result) (F.state flash.old).calls }
        ensures readable { IsReadable (F.state flash.new) self.now }
        ensures read { ReadsPages F.told (F.state flash.old) (F.state flash.new) pool.old pool.new lease.now (calls_if (step_calls (page_at pool.old lease.now) (page_at pool.new lease.now) result)) result }
    {
        if looking.low >= looking.high {
            return self.nowhere(flash, pool, lease, *search);
        }
        let page = self.next_page(looking, id);
        let fewer = Looking {
            low: looking.low,
            high: looking.high,
            below: looking.below,
            above: looking.above,
            guesses: looking.guesses.saturating_sub(1),
        };
        match self.look(flash, pool, lease, fewer, page, id) {
            Err(fault) => Err(fault),
            Ok(Turn::Over(found)) => Ok(Step::Found(found)),
            Ok(Turn::Narrowed(next)) => {
                *search = Search::Among(next);
                Ok(Step::More)
            }
        }
    }

    /// The next step of a look-up of an identifier.
    ///
    /// The page in the buffer is looked at first, and another only where it does not decide: so a step reads at most one page,
    /// and it answers `More` only where it read one. Of a reply with rows, a page is read for each identifier that does not lie
    /// between those of rows of the page in the buffer, also where none is left in which it may stand. After a fault the same
    /// call is made anew.
    pub fn step<F: Flash>(
        &self,
        flash: &mut F,
        pool: &mut PagePool,
        lease: &Lease,
        search: &mut Search,
        id: u32,
    ) -> Result<Step, PageFault>
        requires readable { IsReadable (F.state flash.old) self.now }
        requires search { IsSearch self.now search.old }
        requires ready { CanRead F.told (F.state flash.old) pool.old lease.now }
        ensures gives { F.told ≡ true → GivesStep (F.state flash.old) (F.state flash.new) (page_at pool.old lease.now) (page_at pool.new lease.now) (bytes_at pool.new lease.now) self.now id search.old search.new result }
        ensures found { (since : ℕ) → since ≤ (F.state flash.old).calls → WasGiven since (F.state flash.old) pool.old lease.now → StepWas since (F.state flash.new) self.now (bytes_at pool.new lease.now) result }
        ensures always { KeepsSearch (F.state flash.old) (F.state flash.new) (page_at pool.old lease.now) (page_at pool.new lease.now) (bytes_at pool.new lease.now) self.now id search.old search.new result }
        ensures read { ReadsPages F.told (F.state flash.old) (F.state flash.new) pool.old pool.new lease.now (calls_if (step_calls (page_at pool.old lease.now) (page_at pool.new lease.now) result)) result }
    {
        let looking = self.begun(*search, id);
        match self.look_held(pool, lease, looking, id) {
            Err(fault) => Err(fault),
            Ok(Turn::Over(found)) => Ok(Step::Found(found)),
            Ok(Turn::Narrowed(next)) => self.advance(flash, pool, lease, search, next, id),
        }
    }
}
