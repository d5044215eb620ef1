//! The replies of two texts.

ghost use Rattle.std.specs.Prelude.{◌≡◌, ◌≤◌, ◌<◌, ◌+◌, ◌*◌, ◌^◌, ◌++◌, ◌∷◌, [], ℕ, Bool, List, Some, true, false, length, map, drop};
ghost use Rattle.ghost_model.specs.core.Channel.{Catalog};
ghost use Rattle.ghost_model.specs.core.Asks.{NumberedAsk};
ghost use Rattle.ghost_model.specs.core.NextMove.{Heard, are_cells, last_identifier};
ghost use Rattle.ghost_model.specs.forms.Catalog.{current_version};
ghost use Rattle.ghost_model.specs.forms.Frames.{payload_in};
ghost use Rattle.ghost_model.specs.forms.Layout as layout;
ghost use Rattle.ghost_model.specs.forms.Runs.{number_in};
ghost use Rattle.ghost_base.specs.Views.{kind_of};
ghost use Rattle.channel_codec.specs.AskViews.{ask_view};
ghost use Rattle.channel_pump.specs.Sessions.{asked_in};
ghost use Rattle.edge_traits.specs.Devices.{Device};
ghost use Rattle.page_pool.specs.Pools.{Pool, IsOut, ChangesPage};
ghost use Rattle.flash_pages.specs.Writers.{waits};
ghost use Rattle.key_session.specs.Fits.{Fits};
ghost use Rattle.key_session.specs.Filling.{FillsPages};
ghost use Rattle.visible_spool.specs.Sides.{is_marked, replies_of};
ghost use Rattle.visible_spool.specs.Spools.{IsSpooling, IsNextRow, HasPushed, is_at, last_of, pages_written};
ghost use Rattle.key_session.specs.Pushing.{CanPush, MayCome, AreNext, Writes, Ends};
ghost use Rattle.key_session.specs.Rows.{cells_at, rows_at};
ghost use Rattle.key_session.specs.Kept.{IsKept, none_heard, half_in, is_lost, lease_of, with_lease};
ghost use Rattle.key_session.specs.Hearing.{Hears, IsSomeHeard, HasHeard, MarkTells, pages_on, pages_tried};

use crate::ask::AskAtHand;
use channel_codec::ask::Ask;
use channel_codec::reading::size_in;
use channel_pump::state::Event;
use edge_traits::flash::Flash;
use page_pool::{Lease, PagePool};
use std::mem;
use tree_schema::{Catalog, Schema};
use visible_spool::{Half, Spool};

/// The replies of the text at hand and of the one before it.
#[derive(Drop)]
pub struct Replies {
    /// The spool that they are in.
    pub spool: Spool,

    /// The ask whose reply was begun last.
    pub hand: AskAtHand,

    /// Whether its reply is at hand.
    pub is_open: bool,
}

/// The payload of the frame at the front of a page, as far as it stands there.
fn payload_of(page: &[u8; 2048]) -> &[u8]
    ensures payload { result.now ≡ payload_in page.now }
    ensures short { length result.now ≤ 2040 }
{
    let (_header, after) = page.split_at(8);
    let size = size_in(page) as usize;
    if size > after.len() {
        return after;
    }
    let (payload, _rest) = after.split_at(size);
    payload
}

impl Replies {
    /// No replies. With any buffer for the rows at hand they are kept, and as yet they have none.
    pub(crate) fn begin(cat: &Catalog) -> Replies
        requires version { cat.now.version ≡ current_version }
        ensures kept { (told : Bool) (device : Device) (pool : Pool) (lease : ℕ) → layout.need cat.now ≤ device.page_count → device.page_count < 2 ^ 32 → IsOut pool lease
            → IsKept told device pool cat.now (none_heard cat.now) 1 0 (with_lease lease result) }
        ensures closed { result.is_open ≡ false }
        ensures unmarked { (text : ℕ) → 0 < text → is_lost result text ≡ false }
    {
        visible_spool::laws::texts_without_rows();
        Replies {
            spool: Spool::begin(cat, Lease::default()),
            hand: AskAtHand::none(),
            is_open: false,
        }
    }

    /// Whether a page of a text's replies could not be written.
    pub(crate) fn is_marked(&self, text: u32) -> bool
        ensures marked { result ≡ is_lost self.now text }
    {
        self.spool.is_marked(text)
    }

    /// The replies of a text that were ended.
    pub(crate) fn half(&self, text: u32) -> Half
        ensures half { result ≡ half_in self.now text }
    {
        self.spool.half(text)
    }

    /// Begins the reply to an ask of a text, unless the reply at hand was begun.
    pub(crate) fn open(&mut self, schema: &Schema, text: u32, ask: &Ask)
        ensures kept { (told : Bool) (device : Device) (pool : Pool) (catalog : Catalog) (heard : Heard) (asked : NumberedAsk) (low top : ℕ) → catalog.schema ≡ schema.now
            → asked_in heard.awaits ≡ Some asked → asked.text ≡ text → asked.ask ≡ ask_view ask.now → top ≤ text → text ≤ low + 1 → Fits catalog heard
            → IsKept told device pool catalog heard low top self.old → IsKept told device pool catalog heard low text self.new }
        ensures at { (told : Bool) (device : Device) (pool : Pool) (catalog : Catalog) (heard : Heard) (asked : NumberedAsk) (low top : ℕ)
            → asked_in heard.awaits ≡ Some asked → asked.text ≡ text → IsKept told device pool catalog heard low top self.old → self.new.hand.text ≡ text }
        ensures open { self.new.is_open ≡ true }
        ensures spool { self.new.spool ≡ self.old.spool }
    {
        if !self.is_open {
            self.hand = AskAtHand::of(schema, text, ask);
            self.is_open = true;
        }
    }

    /// Takes in what an event tells of the reply at hand; rows that came stand in the page. They are written, and once a reply ends
    /// its last page is, if rows wait for it: at most two calls for each page that the event completes, and none else.
    ///
    /// A page that cannot be written marks the text of the ask at hand. Its rows are dropped from then on.
    pub(crate) fn hear<F: Flash>(
        &mut self,
        flash: &mut F,
        pool: &mut PagePool,
        event: Event,
        page: &[u8; 2048],
    )
        requires some { IsSomeHeard F.told (F.state flash.old) pool.old page.now event self.old }
        ensures kept { (catalog : Catalog) (before after : Heard) (low top : ℕ) → Hears F.told (F.state flash.old) pool.old catalog page.now event before after low top self.old
            → IsKept F.told (F.state flash.new) pool.new catalog after low top self.new }
        ensures heard { (catalog : Catalog) (before after : Heard) (low top : ℕ) → Hears F.told (F.state flash.old) pool.old catalog page.now event before after low top self.old
            → HasHeard catalog low self.old.hand.text (F.state flash.old) (F.state flash.new) self.old self.new }
        ensures marks { MarkTells (F.state flash.old) (F.state flash.new) (is_lost self.old self.old.hand.text) (is_lost self.new self.old.hand.text) }
        ensures few { (F.state flash.new).calls ≤ (F.state flash.old).calls + 2 * pages_on event self.old.hand self.old.spool self.new.spool }
        ensures fills { (catalog : Catalog) (before after : Heard) (low top : ℕ) → Hears F.told (F.state flash.old) pool.old catalog page.now event before after low top self.old
            → FillsPages catalog.schema low before after (F.state flash.old) (F.state flash.new) self.new }
        ensures deep_reads { (F.state flash.new).deep_reads ≡ (F.state flash.old).deep_reads }
        ensures unopened_flash { self.old.is_open ≡ false → F.state flash.new ≡ F.state flash.old }
        ensures unopened_spool { self.old.is_open ≡ false → self.new.spool ≡ self.old.spool }
        ensures hand { self.new.hand ≡ self.old.hand }
        ensures lease { lease_of self.new ≡ lease_of self.old }
        ensures buffer { ChangesPage pool.old pool.new (lease_of self.old) }
        ensures out { IsOut pool.new (lease_of self.new) }
    {
        visible_spool::laws::replies_are_kept();
        visible_spool::laws::replies_stay_readable();
        visible_spool::laws::areas_lie_apart();
        visible_spool::laws::texts_without_rows();
        match event {
            Event::Rows(_) => self.push_rows(flash, pool, payload_of(page)),
            Event::Done => self.end_reply(flash, pool),
            Event::Sorry(_) | Event::Welcome => self.is_open = false,
            Event::Part | Event::Invalid { .. } => {}
        }
    }

    /// Pushes the whole rows of a payload.
    fn push_rows<F: Flash>(&mut self, flash: &mut F, pool: &mut PagePool, payload: &[u8])
        requires can { CanPush (F.state flash.old) pool.old self.old.spool self.old.hand }
        requires next { MayCome self.old.spool self.old.hand payload.now }
        ensures can { CanPush (F.state flash.new) pool.new self.new.spool self.new.hand }
        ensures writes { Writes self.old.hand.text self.old.hand.table (F.state flash.old) (F.state flash.new) pool.old pool.new self.old.spool self.new.spool }
        ensures replies { replies_of self.new.spool.sides self.old.hand.text ≡ replies_of self.old.spool.sides self.old.hand.text }
        ensures others { is_at self.new.spool self.old.hand.text self.old.hand.table ≡ false → self.new.spool ≡ self.old.spool }
        ensures last { (last : ℕ) → AreNext self.old.spool self.old.hand payload.now last → last_of self.new.spool self.old.hand.text self.old.hand.table ≤ last_identifier last (cells_at self.old.hand.width payload.now) }
        ensures pushed { (rows : List (List ℕ)) → HasPushed F.told (F.state flash.old).page pool.old self.old.spool self.old.hand.text self.old.hand.table rows → is_marked self.new.spool.sides self.old.hand.text ≡ false
            → HasPushed F.told (F.state flash.new).page pool.new self.new.spool self.old.hand.text self.old.hand.table (rows ++ rows_at self.old.hand.width payload.now) }
        ensures few { (rows : List (List ℕ)) → (is_marked self.old.spool.sides self.old.hand.text ≡ false → HasPushed F.told (F.state flash.old).page pool.old self.old.spool self.old.hand.text self.old.hand.table rows)
            → length payload.now ≤ 2040 → (F.state flash.new).calls ≤ (F.state flash.old).calls + 2 * pages_tried self.old.hand self.old.spool self.new.spool }
        ensures hand { self.new.hand ≡ self.old.hand }
        ensures open { self.new.is_open ≡ self.old.is_open }
    {
        let width = self.hand.width;
        let mut rest = payload;
        'rows: while width <= rest.len() {
            let (row, later) = rest.split_at(width);
            self.push_row(flash, pool, row);
            rest = later;
        }
    }

    /// Pushes a row of the reply at hand.
    fn push_row<F: Flash>(&mut self, flash: &mut F, pool: &mut PagePool, row: &[u8])
        requires can { CanPush (F.state flash.old) pool.old self.old.spool self.old.hand }
        requires width { length row.now ≡ self.old.hand.width }
        requires next { IsNextRow self.old.spool self.old.hand.text self.old.hand.table row.now }
        ensures can { CanPush (F.state flash.new) pool.new self.new.spool self.new.hand }
        ensures writes { Writes self.old.hand.text self.old.hand.table (F.state flash.old) (F.state flash.new) pool.old pool.new self.old.spool self.new.spool }
        ensures replies { replies_of self.new.spool.sides self.old.hand.text ≡ replies_of self.old.spool.sides self.old.hand.text }
        ensures at { is_at self.new.spool self.old.hand.text self.old.hand.table ≡ true }
        ensures last { last_of self.new.spool self.old.hand.text self.old.hand.table ≤ number_in row.now 0 }
        ensures completes { is_marked self.new.spool.sides self.old.hand.text ≡ false → (F.state flash.new).calls + 2 * pages_written self.old.spool self.old.hand.text self.old.hand.table
            ≤ (F.state flash.old).calls + 2 * pages_written self.new.spool self.old.hand.text self.old.hand.table }
        ensures grows { pages_written self.old.spool self.old.hand.text self.old.hand.table ≤ pages_written self.new.spool self.old.hand.text self.old.hand.table }
        ensures at_most { (F.state flash.new).calls ≤ (F.state flash.old).calls + 2 }
        ensures dropped { is_marked self.old.spool.sides self.old.hand.text ≡ true → F.state flash.new ≡ F.state flash.old }
        ensures pushed { (rows : List (List ℕ)) → HasPushed F.told (F.state flash.old).page pool.old self.old.spool self.old.hand.text self.old.hand.table rows
            → are_cells (map kind_of self.old.hand.kinds.items) (drop 4 row.now) ≡ true → is_marked self.new.spool.sides self.old.hand.text ≡ false
            → HasPushed F.told (F.state flash.new).page pool.new self.new.spool self.old.hand.text self.old.hand.table (rows ++ row.now ∷ []) }
        ensures hand { self.new.hand ≡ self.old.hand }
        ensures open { self.new.is_open ≡ self.old.is_open }
    {
        let _pushed = self.spool.push(
            flash,
            pool,
            self.hand.text,
            self.hand.table,
            self.hand.kinds.as_slice(),
            row,
        );
    }

    /// Whether rows of the ask at hand came to the spool.
    fn has_rows(&self) -> bool
        ensures at { result ≡ is_at self.now.spool self.now.hand.text self.now.hand.table }
    {
        self.spool.hand.text == self.hand.text && self.spool.hand.table == self.hand.table
    }

    /// Ends the reply at hand, if there is one: its last page is written, if rows of it wait and its text is not marked.
    fn end_reply<F: Flash>(&mut self, flash: &mut F, pool: &mut PagePool)
        requires spooling { IsSpooling (F.state flash.old) pool.old self.old.spool }
        requires some { self.old.is_open ≡ true → 0 < self.old.hand.text }
        ensures spooling { IsSpooling (F.state flash.new) pool.new self.new.spool }
        ensures ends { self.old.is_open ≡ true → Ends F.told self.old.hand.text self.old.hand.table (F.state flash.old) (F.state flash.new) pool.old self.old.spool self.new.spool }
        ensures writes { Writes self.old.hand.text self.old.hand.table (F.state flash.old) (F.state flash.new) pool.old pool.new self.old.spool self.new.spool }
        ensures few { (F.state flash.new).calls ≤ (F.state flash.old).calls + 2 }
        ensures quiet { waits self.old.spool.hand.writer.filler ≡ false → (F.state flash.new).calls ≡ (F.state flash.old).calls }
        ensures dropped { is_marked self.old.spool.sides self.old.hand.text ≡ true → F.state flash.new ≡ F.state flash.old }
        ensures empty { is_at self.old.spool self.old.hand.text self.old.hand.table ≡ false → F.state flash.new ≡ F.state flash.old }
        ensures unopened_flash { self.old.is_open ≡ false → F.state flash.new ≡ F.state flash.old }
        ensures unopened_spool { self.old.is_open ≡ false → self.new.spool ≡ self.old.spool }
        ensures pool { pool.new ≡ pool.old }
        ensures hand { self.new.hand ≡ self.old.hand }
        ensures closed { self.new.is_open ≡ false }
    {
        if self.is_open {
            self.is_open = false;
            if self.has_rows() {
                let _ended = self
                    .spool
                    .done(flash, pool, self.hand.text, self.hand.table);
            }
        }
    }

    /// Takes the lease of the buffer of the rows at hand.
    pub(crate) fn take(&mut self, lease: Lease)
        ensures taken { self.new ≡ with_lease lease self.old }
    {
        self.spool.hand.writer.lease = lease;
    }

    /// Gives the lease back.
    pub(crate) fn give(&mut self) -> Lease
        ensures lease { result ≡ lease_of self.old }
        ensures given { self.new ≡ with_lease (lease_of self.new) self.old }
    {
        mem::take(&mut self.spool.hand.writer.lease)
    }
}
