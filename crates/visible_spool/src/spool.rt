//! The spool: rows of replies are pushed to the half of their text.

ghost use Rattle.std.specs.Prelude.{◌≡◌, ◌<◌, ◌≤◌, ◌+◌, ◌-◌, ◌*◌, ◌++◌, ◌∷◌, [], ◌^◌, ℕ, Bool, true, false, List, length, map, drop, IfSome, OnOk, OnErr};
ghost use Rattle.ghost_model.specs.forms.Runs.{number_in};
ghost use Rattle.ghost_model.specs.core.NextMove.{are_cells};
ghost use Rattle.ghost_model.specs.forms.Catalog.{current_version};
ghost use Rattle.ghost_model.specs.forms.Layout as layout;
ghost use Rattle.ghost_base.specs.Views.{kind_of};
ghost use Rattle.edge_traits.specs.Devices.{Device};
ghost use Rattle.page_pool.specs.Pools.{Pool, IsOut, ChangesPage, page_at};
ghost use Rattle.ghost_base.specs.Runs.{run_of};
ghost use Rattle.flash_pages.specs.Reads.{ReadsPages, CanRead, WasGiven};
ghost use Rattle.flash_pages.specs.Cursors.{IsReady, IsPageOf, ids_left};
ghost use Rattle.visible_spool.specs.Replies.{HoldsRows, IsReadable, IsSound, WasFound, id_of_bytes, kinds_of};
ghost use Rattle.visible_spool.specs.Searches.{GivesRow, IsCursorOf};
ghost use Rattle.visible_spool.specs.Halves.{reply_of};
ghost use Rattle.visible_spool.specs.Areas.{AreAreasOf, AreAreas, first_of, end_of};
ghost use Rattle.visible_spool.specs.Sides.{Changes, is_marked, replies_of, side_of};
ghost use Rattle.visible_spool.specs.Laws.{LiesWithin};
ghost use Rattle.flash_pages.specs.Writers.{waits};
ghost use Rattle.visible_spool.specs.Hands.{HasRows, IsReplyOf, area_end};
ghost use Rattle.visible_spool.specs.Spools.{IsSpooling, IsHeld, IsAsked, IsNextRow, HasPushed, KeepsSides, SpoolWrites, area_at, is_at, last_of, pages_written};

use crate::area::{Area, areas_of};
use crate::half::Half;
use crate::hand::Hand;
use crate::reply::Reply;
use crate::row::SpoolRow;
use crate::sides::Sides;
use arrayvec::ArrayVec;
use edge_traits::flash::Flash;
use flash_layout::Layout;
use flash_pages::cursor::RunCursor;
use flash_pages::fault::PageFault;
use flash_pages::writer::RunWriter;
use ghost_base::Kind;
use ghost_base::limits::{MAX_COLUMNS, MAX_TABLES};
use ghost_base::runs::Run;
use page_pool::{Lease, PagePool};
use tree_schema::Catalog;

/// The replies of the text at hand and of the one before it.
#[derive(Drop)]
pub struct Spool {
    /// The areas of the tables.
    pub areas: ArrayVec<Area, MAX_TABLES>,
    /// What the two halves have.
    pub sides: Sides,
    /// The reply at hand.
    pub hand: Hand,
}

/// A reply without rows whose rows will have cells of these kinds.
fn reply_at(first: u32, rows: u32, kinds: &[Kind], width: u32) -> Reply
    requires few { length kinds.now ≤ MAX_COLUMNS }
    ensures first { result.run.first ≡ first }
    ensures count { result.run.count ≡ 0 }
    ensures width { result.run.width ≡ width }
    ensures rows { result.rows ≡ rows }
    ensures cells { result.cells ≡ length kinds.now }
    ensures kinds { kinds_of result ≡ map kind_of kinds.now }
{
    let mut places = [Kind::Integer; MAX_COLUMNS];
    places[..kinds.len()].copy_from_slice(kinds);
    Reply {
        run: Run {
            first,
            count: 0,
            width,
        },
        rows,
        cells: kinds.len(),
        kinds: places,
    }
}

impl Spool {
    /// A spool without replies, of which `lease` is the buffer.
    pub fn begin(cat: &Catalog, lease: Lease) -> Spool
        requires version { cat.now.version ≡ current_version }
        ensures areas { AreAreasOf cat.now result.areas.items }
        ensures lease { result.hand.writer.lease ≡ lease }
        ensures none { result.hand.text ≡ 0 }
        ensures even { result.sides.even.text ≡ 0 }
        ensures odd { result.sides.odd.text ≡ 0 }
        ensures ready { (device : Device) (pool : Pool) → layout.need cat.now ≤ device.page_count → device.page_count < 2 ^ 32 → IsOut pool lease → IsSpooling device pool result }
    {
        Spool {
            areas: areas_of(&Layout::of(cat)),
            sides: Sides::none(),
            hand: Hand {
                text: 0,
                table: 0,
                reply: reply_at(0, 0, &[], 4),
                last: 0,
                writer: RunWriter::begin(0, 4, true, lease),
            },
        }
    }

    /// Whether a page of a text's replies could not be written.
    pub fn is_marked(&self, text: u32) -> bool
        ensures marked { result ≡ is_marked self.now.sides text }
    {
        self.sides.is_marked(text)
    }

    /// The replies of a text that were ended.
    pub fn half(&self, text: u32) -> Half
        ensures half { result ≡ replies_of self.now.sides text }
    {
        self.sides.replies(text)
    }

    /// Whether the reply at hand is that of a text for a table.
    fn is_at(&self, text: u32, table: usize) -> bool
        ensures at { result ≡ is_at self.now text table }
    {
        self.hand.text == text && self.hand.table == table
    }

    /// The area of a table.
    fn area(&self, table: usize) -> Area
        requires there { table < length self.now.areas.items }
        ensures area { result ≡ area_at self.now table }
    {
        self.areas[table]
    }

    /// Begins a reply of a text.
    fn open(&mut self, text: u32, table: usize, kinds: &[Kind], width: u32)
        requires asked { IsAsked self.old text table kinds.now width }
        ensures at { is_at self.new text table ≡ true }
        ensures text { self.new.hand.text ≡ text }
        ensures table { self.new.hand.table ≡ table }
        ensures same { KeepsSides text self.old self.new }
        ensures held { (device : Device) → AreAreas device self.old.areas.items → device.page_count < 2 ^ 32 → IsHeld device self.new }
        ensures kinds { kinds_of self.new.hand.reply ≡ map kind_of kinds.now }
        ensures width { self.new.hand.reply.run.width ≡ width }
        ensures last { self.new.hand.last ≡ 0 }
        ensures pages { self.new.hand.writer.filler.pages ≡ 0 }
        ensures none { (told : Bool) (page : ℕ → List ℕ) (pool : Pool) → HasRows told page pool self.new.hand [] }
    {
        self.sides.take_up(text);
        let found = self.area(table);
        let reply = reply_at(found.first(text), found.rows, kinds, width);
        self.hand.begin(text, table, reply);
    }

    /// Makes the reply at hand that of a text for a table. One of another text or table that was not ended is given up.
    fn take(&mut self, text: u32, table: usize, kinds: &[Kind], width: u32)
        requires asked { IsAsked self.old text table kinds.now width }
        ensures at { is_at self.new text table ≡ true }
        ensures text { self.new.hand.text ≡ text }
        ensures table { self.new.hand.table ≡ table }
        ensures same { KeepsSides text self.old self.new }
        ensures spooling { (device : Device) (pool : Pool) → IsSpooling device pool self.old → IsSpooling device pool self.new }
        ensures kinds { kinds_of self.new.hand.reply ≡ map kind_of kinds.now }
        ensures width { self.new.hand.reply.run.width ≡ width }
        ensures last { self.new.hand.last ≡ last_of self.old text table }
        ensures pages { self.new.hand.writer.filler.pages ≡ pages_written self.old text table }
        ensures rows { (told : Bool) (page : ℕ → List ℕ) (pool : Pool) (rows : List (List ℕ)) → HasPushed told page pool self.old text table rows → HasRows told page pool self.new.hand rows }
    {
        if self.is_at(text, table) {
            return;
        }
        self.open(text, table, kinds, width);
    }

    /// Writes a row of the reply at hand, unless its text is marked; a failure marks it.
    fn write<F: Flash>(
        &mut self,
        flash: &mut F,
        pool: &mut PagePool,
        row: &[u8],
    ) -> Result<(), PageFault>
        requires spooling { IsSpooling (F.state flash.old) pool.old self.old }
        requires some { 0 < self.old.hand.text }
        requires width { length row.now ≡ self.old.hand.reply.run.width }
        requires above { self.old.hand.last < number_in row.now 0 }
        requires within { number_in row.now 0 ≤ self.old.hand.reply.rows }
        ensures pushed { (rows : List (List ℕ)) → HasRows F.told (F.state flash.old).page pool.old self.old.hand rows → are_cells (kinds_of self.old.hand.reply) (drop 4 row.now) ≡ true → is_marked self.new.sides self.old.hand.text ≡ false → HasRows F.told (F.state flash.new).page pool.new self.new.hand (rows ++ row.now ∷ []) }
        ensures sides { OnOk result (self.new.sides ≡ self.old.sides) }
        ensures marked { OnErr result (is_marked self.new.sides self.old.hand.text ≡ true) }
        ensures replies { replies_of self.new.sides self.old.hand.text ≡ replies_of self.old.sides self.old.hand.text }
        ensures changes { Changes self.old.hand.text self.old.sides self.new.sides }
        ensures areas { self.new.areas ≡ self.old.areas }
        ensures lease { self.new.hand.writer.lease ≡ self.old.hand.writer.lease }
        ensures text { self.new.hand.text ≡ self.old.hand.text }
        ensures table { self.new.hand.table ≡ self.old.hand.table }
        ensures reply { self.new.hand.reply ≡ self.old.hand.reply }
        ensures last { self.new.hand.last ≤ number_in row.now 0 }
        ensures completes { OnOk result ((F.state flash.new).calls ≤ (F.state flash.old).calls + 2 * (self.new.hand.writer.filler.pages - self.old.hand.writer.filler.pages)) }
        ensures grows { self.old.hand.writer.filler.pages ≤ self.new.hand.writer.filler.pages }
        ensures dropped { is_marked self.old.sides self.old.hand.text ≡ true → F.state flash.new ≡ F.state flash.old }
        ensures spooling { IsSpooling (F.state flash.new) pool.new self.new }
        ensures writes { SpoolWrites (F.state flash.old) (F.state flash.new) self.old.hand.reply.run.first (area_end self.old.hand.reply) result }
        ensures buffer { ChangesPage pool.old pool.new self.old.hand.writer.lease }
    {
        let text = self.hand.text;
        if self.is_marked(text) {
            return Ok(());
        }
        match self.hand.put(flash, pool, row) {
            Ok(()) => Ok(()),
            Err(_failed) => {
                self.sides.mark(text);
                Err(PageFault::Flash)
            }
        }
    }

    /// Adds a row to the reply of a text for a table. A reply of another text or table that was not ended is given up.
    ///
    /// It makes at most two calls. A page that could not be written marks the text, and its rows are dropped from then on.
    pub fn push<F: Flash>(
        &mut self,
        flash: &mut F,
        pool: &mut PagePool,
        text: u32,
        table: usize,
        kinds: &[Kind],
        row: &[u8],
    ) -> Result<(), PageFault>
        requires spooling { IsSpooling (F.state flash.old) pool.old self.old }
        requires asked { IsAsked self.old text table kinds.now (length row.now) }
        requires next { IsNextRow self.old text table row.now }
        ensures pushed { (rows : List (List ℕ)) → HasPushed F.told (F.state flash.old).page pool.old self.old text table rows → are_cells (map kind_of kinds.now) (drop 4 row.now) ≡ true → is_marked self.new.sides text ≡ false → HasPushed F.told (F.state flash.new).page pool.new self.new text table (rows ++ row.now ∷ []) }
        ensures at { is_at self.new text table ≡ true }
        ensures stays { OnOk result (is_marked self.new.sides text ≡ is_marked self.old.sides text) }
        ensures marked { OnErr result (is_marked self.new.sides text ≡ true) }
        ensures replies { replies_of self.new.sides text ≡ replies_of self.old.sides text }
        ensures changes { Changes text self.old.sides self.new.sides }
        ensures areas { self.new.areas ≡ self.old.areas }
        ensures lease { self.new.hand.writer.lease ≡ self.old.hand.writer.lease }
        ensures kinds { kinds_of self.new.hand.reply ≡ map kind_of kinds.now }
        ensures width { self.new.hand.reply.run.width ≡ length row.now }
        ensures last { last_of self.new text table ≤ number_in row.now 0 }
        ensures completes { OnOk result ((F.state flash.new).calls ≤ (F.state flash.old).calls + 2 * (self.new.hand.writer.filler.pages - pages_written self.old text table)) }
        ensures grows { pages_written self.old text table ≤ pages_written self.new text table }
        ensures dropped { is_marked self.old.sides text ≡ true → F.state flash.new ≡ F.state flash.old }
        ensures spooling { IsSpooling (F.state flash.new) pool.new self.new }
        ensures writes { SpoolWrites (F.state flash.old) (F.state flash.new) (first_of (area_at self.old table) text) (end_of (area_at self.old table) text) result }
        ensures buffer { ChangesPage pool.old pool.new self.old.hand.writer.lease }
    {
        self.take(text, table, kinds, row.len() as u32);
        self.write(flash, pool, row)
    }

    /// Writes the last page of the reply at hand, unless its text is marked; a failure marks it. Where it is written no reply
    /// is at hand then.
    fn close<F: Flash>(&mut self, flash: &mut F, pool: &mut PagePool) -> Result<(), PageFault>
        requires spooling { IsSpooling (F.state flash.old) pool.old self.old }
        requires some { 0 < self.old.hand.text }
        ensures kept { (rows : List (List ℕ)) → HasRows F.told (F.state flash.old).page pool.old self.old.hand rows → is_marked self.new.sides self.old.hand.text ≡ false → OnOk result (F.told ≡ true → HoldsRows (F.state flash.new).page (reply_of (replies_of self.new.sides self.old.hand.text) self.old.hand.table) rows) }
        ensures readable { is_marked self.new.sides self.old.hand.text ≡ false → IsReadable (F.state flash.new) (reply_of (replies_of self.new.sides self.old.hand.text) self.old.hand.table) }
        ensures quiet { waits self.old.hand.writer.filler ≡ false → (F.state flash.new).calls ≡ (F.state flash.old).calls }
        ensures dropped { is_marked self.old.sides self.old.hand.text ≡ true → F.state flash.new ≡ F.state flash.old }
        ensures ended { is_marked self.new.sides self.old.hand.text ≡ false → IsReplyOf self.old.hand (reply_of (replies_of self.new.sides self.old.hand.text) self.old.hand.table) }
        ensures lies { is_marked self.new.sides self.old.hand.text ≡ false → LiesWithin self.old.hand.reply.run.first (area_end self.old.hand.reply) (reply_of (replies_of self.new.sides self.old.hand.text) self.old.hand.table) }
        ensures others { (table : ℕ) → (table ≡ self.old.hand.table → ⊥) → reply_of (replies_of self.new.sides self.old.hand.text) table ≡ reply_of (replies_of self.old.sides self.old.hand.text) table }
        ensures unended { is_marked self.new.sides self.old.hand.text ≡ true → replies_of self.new.sides self.old.hand.text ≡ replies_of self.old.sides self.old.hand.text }
        ensures hand_text { (self.new.hand.text ≡ 0 → ⊥) → self.new.hand.text ≡ self.old.hand.text }
        ensures hand_table { self.new.hand.table ≡ self.old.hand.table }
        ensures side_text { (side_of self.new.sides self.old.hand.text).text ≡ (side_of self.old.sides self.old.hand.text).text }
        ensures stays { OnOk result (is_marked self.new.sides self.old.hand.text ≡ is_marked self.old.sides self.old.hand.text) }
        ensures marked { OnErr result (is_marked self.new.sides self.old.hand.text ≡ true) }
        ensures changes { Changes self.old.hand.text self.old.sides self.new.sides }
        ensures areas { self.new.areas ≡ self.old.areas }
        ensures lease { self.new.hand.writer.lease ≡ self.old.hand.writer.lease }
        ensures spooling { IsSpooling (F.state flash.new) pool.new self.new }
        ensures writes { SpoolWrites (F.state flash.old) (F.state flash.new) self.old.hand.reply.run.first (area_end self.old.hand.reply) result }
        ensures buffers { pool.new ≡ pool.old }
    {
        let text = self.hand.text;
        let table = self.hand.table;
        if self.sides.is_marked(text) {
            return Ok(());
        }
        match self.hand.finish(flash, pool) {
            Ok(reply) => {
                self.sides.keep(text, table, reply);
                Ok(())
            }
            Err(_failed) => {
                self.sides.mark(text);
                Err(PageFault::Flash)
            }
        }
    }

    /// Ends the reply of a text for a table: its last page is written.
    pub fn done<F: Flash>(
        &mut self,
        flash: &mut F,
        pool: &mut PagePool,
        text: u32,
        table: usize,
    ) -> Result<(), PageFault>
        requires spooling { IsSpooling (F.state flash.old) pool.old self.old }
        requires some { 0 < text }
        ensures kept { is_at self.old text table ≡ true → (rows : List (List ℕ)) → HasPushed F.told (F.state flash.old).page pool.old self.old text table rows → is_marked self.new.sides text ≡ false → OnOk result (F.told ≡ true → HoldsRows (F.state flash.new).page (reply_of (replies_of self.new.sides text) table) rows) }
        ensures readable { is_at self.old text table ≡ true → is_marked self.new.sides text ≡ false → IsReadable (F.state flash.new) (reply_of (replies_of self.new.sides text) table) }
        ensures quiet { waits self.old.hand.writer.filler ≡ false → (F.state flash.new).calls ≡ (F.state flash.old).calls }
        ensures dropped { is_marked self.old.sides text ≡ true → F.state flash.new ≡ F.state flash.old }
        ensures ended { is_at self.old text table ≡ true → is_marked self.new.sides text ≡ false → IsReplyOf self.old.hand (reply_of (replies_of self.new.sides text) table) }
        ensures lies { is_at self.old text table ≡ true → is_marked self.new.sides text ≡ false → LiesWithin (first_of (area_at self.old table) text) (end_of (area_at self.old table) text) (reply_of (replies_of self.new.sides text) table) }
        ensures unended { is_marked self.new.sides text ≡ true → replies_of self.new.sides text ≡ replies_of self.old.sides text }
        ensures hand_text { (self.new.hand.text ≡ 0 → ⊥) → self.new.hand.text ≡ self.old.hand.text }
        ensures hand_table { self.new.hand.table ≡ self.old.hand.table }
        ensures side_text { (side_of self.new.sides text).text ≡ (side_of self.old.sides text).text }
        ensures none { is_at self.old text table ≡ false → self.new ≡ self.old }
        ensures others { (other : ℕ) → (other ≡ table → ⊥) → reply_of (replies_of self.new.sides text) other ≡ reply_of (replies_of self.old.sides text) other }
        ensures stays { OnOk result (is_marked self.new.sides text ≡ is_marked self.old.sides text) }
        ensures marked { OnErr result (is_marked self.new.sides text ≡ true) }
        ensures changes { Changes text self.old.sides self.new.sides }
        ensures areas { self.new.areas ≡ self.old.areas }
        ensures lease { self.new.hand.writer.lease ≡ self.old.hand.writer.lease }
        ensures spooling { IsSpooling (F.state flash.new) pool.new self.new }
        ensures writes { SpoolWrites (F.state flash.old) (F.state flash.new) (first_of (area_at self.old table) text) (end_of (area_at self.old table) text) result }
        ensures buffers { pool.new ≡ pool.old }
    {
        if self.hand.text != text || self.hand.table != table {
            return Ok(());
        }
        self.close(flash, pool)
    }

    /// The row of an identifier in the reply of a text for a table: `Reply::find`.
    pub fn find<F: Flash>(
        &self,
        flash: &mut F,
        pool: &mut PagePool,
        lease: &Lease,
        text: u32,
        table: usize,
        id: u32,
    ) -> Result<Option<SpoolRow>, PageFault>
        requires there { table < MAX_TABLES }
        requires readable { IsReadable (F.state flash.old) (reply_of (replies_of self.now.sides text) table) }
        requires ready { CanRead F.told (F.state flash.old) pool.old lease.now }
        ensures gives { F.told ≡ true → GivesRow (F.state flash.old) (F.state flash.new) (page_at pool.old lease.now) (reply_of (replies_of self.now.sides text) table) id result }
        ensures found { (since : ℕ) → since ≤ (F.state flash.old).calls → WasGiven since (F.state flash.old) pool.old lease.now → WasFound since (F.state flash.new) (reply_of (replies_of self.now.sides text) table) id result }
        ensures readable { IsReadable (F.state flash.new) (reply_of (replies_of self.now.sides text) table) }
        ensures read { (k : ℕ) → (reply_of (replies_of self.now.sides text) table).run.count < 2 ^ k → ReadsPages F.told (F.state flash.old) (F.state flash.new) pool.old pool.new lease.now (k + 3) result }
    {
        self.half(text).find(flash, pool, lease, table, id)
    }

    /// The identifiers of the rows in the reply of a text for a table: `Reply::ids`.
    pub fn ids(&self, text: u32, table: usize, lease: Lease) -> RunCursor
        requires there { table < MAX_TABLES }
        ensures begins { IsCursorOf (reply_of (replies_of self.now.sides text) table) lease result }
        ensures ids { IsSound (reply_of (replies_of self.now.sides text) table) → (page : ℕ → List ℕ) (rows : List (List ℕ)) → HoldsRows page (reply_of (replies_of self.now.sides text) table) rows → ids_left page result ≡ map id_of_bytes rows }
        ensures ready { (told : Bool) (device : Device) (pool : Pool) → IsReadable device (reply_of (replies_of self.now.sides text) table) → CanRead told device pool lease → IfSome (page_at pool lease) (IsPageOf (run_of (reply_of (replies_of self.now.sides text) table).run)) → IsReady told device pool result }
    {
        self.half(text).ids(table, lease)
    }

    /// Gives the lease back.
    pub fn end(self) -> Lease
        ensures lease { result ≡ self.hand.writer.lease }
    {
        self.hand.writer.end()
    }
}
