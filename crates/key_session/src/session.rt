//! A session, step by step.

ghost use Rattle.std.specs.Prelude.{◌≡◌, ◌≢◌, ◌<◌, ◌≤◌, ◌+◌, ◌*◌, ℕ, List, [], Bool, true, false, None, Some, is_some, min, length, option_map};
ghost use Rattle.ghost_model.specs.core.Asks.{NumberedAsk, asked_of};
ghost use Rattle.ghost_model.specs.core.Causes.{Rose, last_count};
ghost use Rattle.ghost_model.specs.core.Channel as channel;
ghost use Rattle.ghost_model.specs.core.Channel.{Journal};
ghost use Rattle.ghost_model.specs.core.Moves.{taken};
ghost use Rattle.ghost_model.specs.core.NextMove.{heard, standing_after};
ghost use Rattle.ghost_model.specs.core.Texts.{texts_of};
ghost use Rattle.edge_traits.specs.Devices.{Device, ChangesOnly};
ghost use Rattle.ghost_model.specs.forms.Catalog.{current_version};
ghost use Rattle.ghost_model.specs.forms.Layout as layout;
ghost use Rattle.channel_pump.specs.Here.{moves_left};
ghost use Rattle.channel_pump.specs.Marks.{asked_at};
ghost use Rattle.channel_pump.specs.State.{IsAfter, want_of};
ghost use Rattle.channel_pump.specs.Entries.{WentBy};
ghost use Rattle.key_lines.specs.Handing.{Handed, handed};
ghost use Rattle.channel_pump.specs.Sessions as moves;
ghost use Rattle.channel_pump.specs.Sessions.{asked_in};
ghost use Rattle.key_session.specs.declared.teller.Teller as tellers;
ghost use Rattle.session_laws.specs.TextEnds.{heard_in};
ghost use Rattle.key_session.specs.Hearing.{WritesHalf, pages_on};
ghost use Rattle.key_session.specs.Kept.{IsKept, lease_of};
ghost use Rattle.key_session.specs.Fits.{Fits};
ghost use Rattle.key_session.specs.Awaiting.{IsWithin, IsAwaiting};
ghost use Rattle.key_session.specs.Refusing.{first_code};
ghost use Rattle.leakless_plan.specs.declared.plan.Plan.{Plan};
ghost use Rattle.flash_layout.specs.Ranges.{Suffices};
ghost use Rattle.key_exec.specs.Plans.{by_pre};
ghost use Rattle.key_exec.specs.Reading.{KeepsBy};
ghost use Rattle.page_pool.specs.Pools.{Pool, IsIdle, IsOut, ChangesPage, bytes_at};
ghost use Rattle.page_pool.specs.Laws.{KeepsOut};
ghost use Rattle.key_exec.specs.Rows.{PrintsSome, TakesTurn};
ghost use Rattle.key_session.specs.Going.{CanRun, CanStep, CanWork, IsAmid, IsApart, IsLeased, IsLeft, IsLive, IsNear, IsNext, IsMove, IsSomeLive, IsSomeMove, IsSomeStep, IsSomeWork, MovedOn, RunIsSpared, WasMoved, WentOn, MadeStep, due_by_rule, due_in, left_of, steps_left};
ghost use Rattle.key_session.specs.declared.buffers.Buffers.TheVariants as buffers;
ghost use Rattle.key_session.specs.Order.{IsSliced, IsUnpaced, is_closed, is_first};
ghost use Rattle.key_session.specs.Running.{HasRun, is_sink, status_with, blames_flash, is_damaged, spares_flash};
ghost use Rattle.key_session.specs.Spending.{AreCountedBy, CountsStay, SpendsCalls, spent_by};
ghost use Rattle.key_session.specs.Telling.{SessionSide, session_side};

use crate::Replies;
use crate::buffers::Buffers;
use crate::fits::replies_fit;
use crate::laws::{
    kept_halves_are_halves, later_texts_are_unmarked, replies_stay_kept, steps_take_few_calls,
};
use crate::options::Options;
use crate::pace::{Due, Pace, comes_first};
use crate::refusing::first_refusal;
use crate::tally::{Tally, status};
use crate::teller::Teller;
use crate::texts::texts_come_in_order;
use channel_pump::laws::{closed_is_finished, moves_join, sessions_begin};
use channel_pump::state::{Event, Pump, Want};
use edge_traits::flash::Flash;
use edge_traits::link::Link;
use edge_traits::sink::Sink;
use flash_layout::limits::a_catalog_has_a_layout;
use key_exec::laws::{damage_is_never_met, knowledge_is_enough};
use key_lines::printer::pieces_join;
use page_pool::{Lease, PagePool};
use session_laws::honest_sessions::{honest_lines_are_printed, honest_sessions_are_smooth};
use session_laws::text_cases::{texts_are_decided, texts_have_outcomes};
use session_laws::text_ends::{
    asks_are_awaited_in_order, ended_texts_stay, over_texts_are_settled, reasons_stay,
};
use std::mem;
use tree_schema::Catalog;
use tree_schema::catalog_bytes::a_catalog_is_short;

/// A session of the key with a host. It asks what the texts of a script need, move by move, and tells their lines, slice by
/// slice.
#[derive(Drop)]
pub struct Session<'a> {
    /// The catalog of the key.
    pub cat: &'a Catalog,
    /// The address of the host.
    pub at: &'a str,
    /// The key's end of the channel.
    pub pump: Pump<'a>,
    /// The lease of the buffer in which the frame at hand lies.
    pub frame: Lease,
    /// The replies of the texts that were not told.
    pub replies: Replies,
    /// The texts.
    pub teller: Teller<'a>,
    /// How many slices may come before the next move.
    pub pace: Pace<'a>,
    /// The code of the first ask that the host refused.
    pub refusal: Option<u8>,
    /// Where its page buffers are.
    pub buffers: Buffers,
}

impl<'a> Session<'a> {
    /// The session of a script, which has at most 64 texts, before its first step. The catalog is of the version that is made.
    pub fn begin(cat: &'a Catalog, script: &'a [u8], options: &Options<'a>) -> Self
        requires version { cat.now.version ≡ current_version }
        requires few { length (texts_of script.now) ≤ 64 }
        ensures live { (told : Bool) (now : SessionSide) (pool : Pool) → Suffices cat.now now.flash → IsLive options.now.plan told (texts_of script.now) [] now now pool result }
        ensures can { (told : Bool) (device : Device) (pool : Pool) → Suffices cat.now device → IsIdle pool → CanStep told device pool result }
        ensures cat { result.cat.now ≡ cat.now }
        ensures at { result.at.now ≡ options.now.at.now }
        ensures plan { result.teller.plan ≡ options.now.plan }
        ensures fresh { result.teller.printer.failed ≡ false }
        ensures pace { IsUnpaced options.now.pace.now result.pace }
    {
        pieces_join();
        sessions_begin();
        Session {
            cat,
            at: options.at,
            pump: Pump::begin(cat, script),
            frame: Lease::default(),
            replies: Replies::begin(cat),
            teller: Teller::new(script, options.plan),
            pace: Pace::new(options.pace),
            refusal: None,
            buffers: Buffers::Untaken,
        }
    }

    /// What is due: a slice of the text that comes next where its asks are over and the pace still allows one before the next
    /// move, or the next move would send the first ask of a text two behind it at least, or the link is closed. Else a move, and
    /// with the link closed nothing once no text is left.
    pub fn due(&self) -> Due
        ensures rule { (catalog : channel.Catalog) (asks : List NumberedAsk) (journal : Journal) → IsAfter catalog asks journal self.now.pump → result ≡ due_in catalog asks journal self.now }
        ensures by_rule { (by : Plan) (told : Bool) (texts : List (List ℕ)) (journal : Journal) (since now : SessionSide) (pool : Pool) → IsLive by told texts journal since now pool self.now → result ≡ due_by_rule self.now.cat.now texts journal self.now }
        ensures going { result ≡ Due.Move → want_of self.now.pump ≢ Want.Closed }
        ensures left { result ≡ Due.Slice → is_some self.now.teller.ahead ≡ true }
        ensures closed { result ≡ Due.Ended → want_of self.now.pump ≡ Want.Closed }
        ensures none { result ≡ Due.Ended → is_some self.now.teller.ahead ≡ false }
        ensures on { (result ≡ Due.Ended → ⊥) → is_closed (want_of self.now.pump) ≡ true → is_some self.now.teller.ahead ≡ true }
    {
        texts_are_decided();
        over_texts_are_settled();
        texts_come_in_order();
        let is_left = self.teller.ahead.is_some();
        match self.pump.want() {
            Want::Closed => { if is_left { Due::Slice } else { Due::Ended } }
            _ => {
                if is_left && self.is_first() {
                    Due::Slice
                } else {
                    Due::Move
                }
            }
        }
    }

    /// Whether a slice of the text that comes next comes before the next move, while the link is open.
    fn is_first(&self) -> bool
        ensures first { (catalog : channel.Catalog) (asks : List NumberedAsk) (journal : Journal) → IsAfter catalog asks journal self.now.pump
            → result ≡ is_first self.now.pace.owed (self.now.teller.count + 1) (option_map (λ asked. asked.text) (asked_at (heard catalog asks (taken journal)).awaits)) }
    {
        match self.pump.asked() {
            None => false,
            Some((text, _ask)) => comes_first(self.pace.owed, self.teller.count + 1, text),
        }
    }

    /// Makes one step: the move or the slice that is due. The first step takes the two page buffers of the session before it, and the
    /// step after which nothing is due gives them back.
    pub fn step<F: Flash, L: Link, O: Sink>(
        &mut self,
        pool: &mut PagePool,
        flash: &mut F,
        link: &mut L,
        out: &mut O,
    )
        requires going { IsLeft self.old }
        requires can { CanStep F.told (F.state flash.old) pool.old self.old }
        requires some { IsSomeLive F.told (session_side self.old.teller.printer.failed (O.faults out.old) (O.written out.old) (F.state flash.old)) pool.old self.old }
        ensures can { CanStep F.told (F.state flash.new) pool.new self.new }
        ensures live { (by : Plan) (texts : List (List ℕ)) (journal : Journal) (since : SessionSide) → IsLive by F.told texts journal since (session_side self.old.teller.printer.failed (O.faults out.old) (O.written out.old) (F.state flash.old)) pool.old self.old
            → WentOn (due_by_rule self.old.cat.now texts journal self.old) (WentBy (λ more. L.went link.old more link.new) (L.faults link.old) (L.faults link.new)) by F.told texts journal since
            (session_side self.old.teller.printer.failed (O.faults out.old) (O.written out.old) (F.state flash.old)) (session_side self.new.teller.printer.failed (O.faults out.new) (O.written out.new) (F.state flash.new)) pool.new self.old self.new }
        ensures made { (catalog : channel.Catalog) (asks : List NumberedAsk) (journal : Journal) → IsAfter catalog asks journal self.old.pump
            → MadeStep (due_in catalog asks journal self.old) (session_side self.old.teller.printer.failed (O.faults out.old) (O.written out.old) (F.state flash.old)) (session_side self.new.teller.printer.failed (O.faults out.new) (O.written out.new) (F.state flash.new)) self.old self.new }
        ensures plan { self.new.teller.plan ≡ self.old.teller.plan }
        ensures fewer { steps_left self.new < steps_left self.old }
        ensures cat { self.new.cat ≡ self.old.cat }
        ensures at { self.new.at ≡ self.old.at }
        ensures faults { L.faults link.old ≤ L.faults link.new }
    {
        self.take_buffers(pool);
        self.go_on(pool, flash, link, out);
        self.give_back(pool);
    }

    /// Takes the page buffers of the session, unless it has them.
    fn take_buffers(&mut self, pool: &mut PagePool)
        requires going { IsLeft self.old }
        requires can { IsSomeStep pool.old self.old }
        ensures can { (told : Bool) (device : Device) → CanStep told device pool.old self.old → CanWork told device pool.new self.new }
        ensures live { (by : Plan) (told : Bool) (texts : List (List ℕ)) (journal : Journal) (since now : SessionSide) → IsLive by told texts journal since now pool.old self.old → IsLive by told texts journal since now pool.new self.new }
        ensures taken { self.new.buffers ≡ buffers.Taken }
        ensures same { IsLeased self.old self.new }
    {
        if let Buffers::Untaken = self.buffers {
            let Some(lease) = pool.lease() else {
                unreachable!()
            };
            let Some(frame) = pool.lease() else {
                unreachable!()
            };
            self.replies.take(lease);
            self.frame = frame;
            self.buffers = Buffers::Taken;
        }
    }

    /// Gives the page buffers of the session back, where nothing more is due.
    fn give_back(&mut self, pool: &mut PagePool)
        requires taken { self.old.buffers ≡ buffers.Taken }
        requires can { IsSomeWork pool.old self.old }
        ensures can { (told : Bool) (device : Device) → CanWork told device pool.old self.old → CanStep told device pool.new self.new }
        ensures live { (by : Plan) (told : Bool) (texts : List (List ℕ)) (journal : Journal) (since now : SessionSide) → IsLive by told texts journal since now pool.old self.old → IsLive by told texts journal since now pool.new self.new }
        ensures same { IsLeased self.old self.new }
    {
        if let Due::Ended = self.due() {
            pool.give(self.replies.give());
            pool.give(mem::take(&mut self.frame));
            self.buffers = Buffers::GivenBack;
        }
    }

    /// Makes the move or the slice that is due, with its page buffers.
    fn go_on<F: Flash, L: Link, O: Sink>(
        &mut self,
        pool: &mut PagePool,
        flash: &mut F,
        link: &mut L,
        out: &mut O,
    )
        requires going { IsLeft self.old }
        requires taken { self.old.buffers ≡ buffers.Taken }
        requires can { CanWork F.told (F.state flash.old) pool.old self.old }
        requires some { IsSomeLive F.told (session_side self.old.teller.printer.failed (O.faults out.old) (O.written out.old) (F.state flash.old)) pool.old self.old }
        ensures can { CanWork F.told (F.state flash.new) pool.new self.new }
        ensures live { (by : Plan) (texts : List (List ℕ)) (journal : Journal) (since : SessionSide) → IsLive by F.told texts journal since (session_side self.old.teller.printer.failed (O.faults out.old) (O.written out.old) (F.state flash.old)) pool.old self.old
            → WentOn (due_by_rule self.old.cat.now texts journal self.old) (WentBy (λ more. L.went link.old more link.new) (L.faults link.old) (L.faults link.new)) by F.told texts journal since
            (session_side self.old.teller.printer.failed (O.faults out.old) (O.written out.old) (F.state flash.old)) (session_side self.new.teller.printer.failed (O.faults out.new) (O.written out.new) (F.state flash.new)) pool.new self.old self.new }
        ensures made { (catalog : channel.Catalog) (asks : List NumberedAsk) (journal : Journal) → IsAfter catalog asks journal self.old.pump
            → MadeStep (due_in catalog asks journal self.old) (session_side self.old.teller.printer.failed (O.faults out.old) (O.written out.old) (F.state flash.old)) (session_side self.new.teller.printer.failed (O.faults out.new) (O.written out.new) (F.state flash.new)) self.old self.new }
        ensures plan { self.new.teller.plan ≡ self.old.teller.plan }
        ensures fewer { steps_left self.new < steps_left self.old }
        ensures cat { self.new.cat ≡ self.old.cat }
        ensures at { self.new.at ≡ self.old.at }
        ensures taken { self.new.buffers ≡ buffers.Taken }
        ensures faults { L.faults link.old ≤ L.faults link.new }
    {
        a_catalog_is_short(self.cat);
        texts_are_decided();
        texts_have_outcomes();
        over_texts_are_settled();
        texts_come_in_order();
        closed_is_finished();
        moves_join();
        match self.due() {
            Due::Move => self.go(pool, flash, link),
            Due::Slice => self.tell(pool, flash, out),
            Due::Ended => {}
        }
    }

    /// Makes the next move.
    fn go<F: Flash, L: Link>(&mut self, pool: &mut PagePool, flash: &mut F, link: &mut L)
        requires going { want_of self.old.pump ≢ Want.Closed }
        requires taken { self.old.buffers ≡ buffers.Taken }
        requires can { CanWork F.told (F.state flash.old) pool.old self.old }
        requires some { IsMove F.told self.old.cat.now self.old.at.now (F.state flash.old) pool.old self.old.pump self.old.frame self.old.teller self.old.replies }
        ensures can { CanWork F.told (F.state flash.new) pool.new self.new }
        ensures live { (by : Plan) (texts : List (List ℕ)) (journal : Journal) (since : SessionSide) (sink : Handed)
            → IsNear self.old.cat.now texts journal (self.old.teller.count + 2) → IsLive by F.told texts journal since (record { sink = sink; flash = F.state flash.old }) pool.old self.old
            → WasMoved (WentBy (λ more. L.went link.old more link.new) (L.faults link.old) (L.faults link.new)) by F.told texts journal since (record { sink = sink; flash = F.state flash.old }) (record { sink = sink; flash = F.state flash.new }) pool.new self.old self.new }
        ensures writes { WritesHalf self.old.cat.now self.new.replies.hand.text (F.state flash.old) (F.state flash.new) }
        ensures teller { self.new.teller ≡ self.old.teller }
        ensures cat { self.new.cat ≡ self.old.cat }
        ensures at { self.new.at ≡ self.old.at }
        ensures taken { self.new.buffers ≡ buffers.Taken }
        ensures fewer { moves_left self.new.pump < moves_left self.old.pump }
        ensures faults { L.faults link.old ≤ L.faults link.new }
    {
        self.teller.spared();
        let (refusal, event) = make_move(
            self.cat,
            self.at,
            self.refusal,
            &mut self.pump,
            &self.frame,
            &mut self.replies,
            pool,
            flash,
            link,
        );
        self.refusal = refusal;
        self.pace.moved(event);
    }

    /// Makes a slice of the text that comes next.
    fn tell<F: Flash, O: Sink>(&mut self, pool: &mut PagePool, flash: &mut F, out: &mut O)
        requires left { is_some self.old.teller.ahead ≡ true }
        requires taken { self.old.buffers ≡ buffers.Taken }
        requires can { CanWork F.told (F.state flash.old) pool.old self.old }
        requires some { IsSomeLive F.told (session_side self.old.teller.printer.failed (O.faults out.old) (O.written out.old) (F.state flash.old)) pool.old self.old }
        ensures can { CanWork F.told (F.state flash.new) pool.new self.new }
        ensures live { (by : Plan) (texts : List (List ℕ)) (journal : Journal) (since : SessionSide) → IsNext self.old.cat.now texts journal self.old.pump (self.old.teller.count + 1)
            → IsLive by F.told texts journal since (session_side self.old.teller.printer.failed (O.faults out.old) (O.written out.old) (F.state flash.old)) pool.old self.old
            → IsLive by F.told texts journal since (session_side self.new.teller.printer.failed (O.faults out.new) (O.written out.new) (F.state flash.new)) pool.new self.new }
        ensures pump { self.new.pump ≡ self.old.pump }
        ensures frame { self.new.frame ≡ self.old.frame }
        ensures cat { self.new.cat ≡ self.old.cat }
        ensures at { self.new.at ≡ self.old.at }
        ensures taken { self.new.buffers ≡ buffers.Taken }
        ensures turn { TakesTurn (handed self.old.teller.printer.failed (O.faults out.old) (O.written out.old)) (handed self.new.teller.printer.failed (O.faults out.new) (O.written out.new))
            (F.state flash.old).calls (F.state flash.new).calls }
        ensures few { (F.state flash.new).calls ≤ (F.state flash.old).calls + 8 }
        ensures counted { is_some self.new.teller.running ≡ true → AreCountedBy (spent_by self.old.teller.running) (spent_by self.new.teller.running) (F.state flash.old).calls (F.state flash.new).calls }
        ensures kept { KeepsBy self.old.teller.plan self.old.cat.now (F.state flash.old) (F.state flash.new) }
        ensures spends { (texts : List (List ℕ)) (journal : Journal) (since : SessionSide) → IsNext self.old.cat.now texts journal self.old.pump (self.old.teller.count + 1)
            → IsLive by_pre F.told texts journal since (session_side self.old.teller.printer.failed (O.faults out.old) (O.written out.old) (F.state flash.old)) pool.old self.old
            → SpendsCalls F.told since.flash.page self.old.cat.now texts journal (F.state flash.old) (F.state flash.new) self.old.teller self.new.teller }
        ensures counts { CountsStay (F.state flash.old) (F.state flash.new) }
        ensures plan { self.new.teller.plan ≡ self.old.teller.plan }
        ensures fewer { left_of self.new.teller < left_of self.old.teller }
        ensures sliced { IsSliced self.old.pace self.new.pace }
    {
        a_catalog_has_a_layout(self.cat);
        kept_halves_are_halves();
        self.teller.take_up(self.cat, &self.pump, &self.replies);
        self.teller.go_on(pool, flash, out);
        self.pace.sliced();
    }

    /// What it counted, and how it ended.
    pub fn tally(&self) -> Tally
        ensures texts { result.texts ≡ self.now.teller.count }
        ensures refused { result.refused ≡ self.now.teller.counts.refused }
        ensures faulted { result.faulted ≡ self.now.teller.counts.faulted }
        ensures told { result.told ≡ self.now.teller.counts.told }
        ensures sink { is_sink result.status ≡ self.now.teller.printer.failed }
        ensures status { (catalog : channel.Catalog) (asks : List NumberedAsk) (journal : Journal) → IsAfter catalog asks journal self.now.pump
            → self.now.refusal ≡ first_code (standing_after catalog asks journal).heard.ended
            → result.status ≡ status_with self.now.teller.printer.failed (standing_after catalog asks journal) self.now.teller.counts.by_flash self.now.teller.counts.damage }
    {
        Tally {
            texts: self.teller.count,
            refused: self.teller.counts.refused,
            faulted: self.teller.counts.faulted,
            told: self.teller.counts.told,
            status: status(
                self.teller.printer.failed,
                self.pump.cause(),
                self.refusal,
                &self.teller.counts,
            ),
        }
    }
}

/// Makes the next move, and takes in what it led to. Answers the code of the first ask that the host refused till then, and
/// what came.
fn make_move<F: Flash, L: Link>(
    cat: &Catalog,
    at: &str,
    refusal: Option<u8>,
    pump: &mut Pump<'_>,
    frame: &Lease,
    replies: &mut Replies,
    pool: &mut PagePool,
    flash: &mut F,
    link: &mut L,
) -> (Option<u8>, Event)
    requires going { want_of pump.old ≢ Want.Closed }
    requires some { IsSomeMove F.told cat.now at.now (F.state flash.old) pool.old pump.old frame.now replies.old }
    ensures moved { (by : Plan) (texts : List (List ℕ)) (journal : Journal) (since : SessionSide) (sink : Handed) (teller : tellers.Teller)
        → RunIsSpared teller.running → IsNear cat.now texts journal (teller.count + 2)
        → moves.IsLive cat.now at.now (asked_of cat.now.schema texts) journal pump.old (bytes_at pool.old frame.now) → IsAmid by F.told cat.now texts journal since (record { sink = sink; flash = F.state flash.old }) pool.old pump.old teller replies.old
        → refusal ≡ first_code (heard_in cat.now texts journal).ended → CanRun by F.told cat.now (F.state flash.old) pool.old (teller.count + 1) (lease_of replies.old) teller.running → IsApart pool.old frame.now teller replies.old
        → MovedOn (WentBy (λ more. L.went link.old more link.new) (L.faults link.old) (L.faults link.new)) by F.told cat.now at.now texts journal since (F.state flash.old) (record { sink = sink; flash = F.state flash.new }) pool.new result.1 pump.new frame.now teller replies.new result.0 }
    ensures can { (by : Plan) (teller : tellers.Teller) → RunIsSpared teller.running → IsMove F.told cat.now at.now (F.state flash.old) pool.old pump.old frame.now teller replies.old → IsApart pool.old frame.now teller replies.old
        → CanRun by F.told cat.now (F.state flash.old) pool.old (teller.count + 1) (lease_of replies.old) teller.running → CanRun by F.told cat.now (F.state flash.new) pool.new (teller.count + 1) (lease_of replies.old) teller.running }
    ensures writes { WritesHalf cat.now replies.new.hand.text (F.state flash.old) (F.state flash.new) }
    ensures few { (F.state flash.new).calls ≤ (F.state flash.old).calls + 2 * pages_on result.1 replies.new.hand replies.old.spool replies.new.spool }
    ensures never_falls { (F.state flash.old).faults ≤ (F.state flash.new).faults }
    ensures out { KeepsOut pool.old pool.new }
    ensures lease { lease_of replies.new ≡ lease_of replies.old }
    ensures fewer { moves_left pump.new < moves_left pump.old }
    ensures faults { L.faults link.old ≤ L.faults link.new }
{
    a_catalog_is_short(cat);
    replies_fit();
    reasons_stay();
    texts_are_decided();
    texts_have_outcomes();
    ended_texts_stay();
    over_texts_are_settled();
    asks_are_awaited_in_order();
    texts_come_in_order();
    replies_stay_kept();
    let is_awaited = await_reply(cat, pump, replies);
    let event = move_on(pump, at, frame, pool, link);
    let page = *pool.page(frame);
    replies.hear(flash, pool, event, &page);
    (first_refusal(refusal, is_awaited, event), event)
}

/// Makes the next move on the link, and answers what it led to. The frame at hand lies in the buffer of the lease.
fn move_on<L: Link>(
    pump: &mut Pump<'_>,
    at: &str,
    frame: &Lease,
    pool: &mut PagePool,
    link: &mut L,
) -> Event
    requires going { want_of pump.old ≢ Want.Closed }
    requires out { IsOut pool.old frame.now }
    ensures moved { (catalog : channel.Catalog) (asks : List NumberedAsk) (journal : Journal) → moves.IsLive catalog at.now asks journal pump.old (bytes_at pool.old frame.now)
        → moves.Moved (WentBy (λ more. L.went link.old more link.new) (L.faults link.old) (L.faults link.new)) catalog at.now asks journal result pump.new (bytes_at pool.new frame.now) }
    ensures buffer { ChangesPage pool.old pool.new frame.now }
    ensures fewer { moves_left pump.new < moves_left pump.old }
    ensures faults { L.faults link.old ≤ L.faults link.new }
{
    pump.step(at, pool.page_mut(frame), link)
}

/// Begins the reply to the ask at hand, unless it was begun, and answers whether there is one.
fn await_reply(cat: &Catalog, pump: &Pump, replies: &mut Replies) -> bool
    ensures awaited { (asks : List NumberedAsk) (journal : Journal) → IsAfter cat.now asks journal pump.now
        → result ≡ is_some (asked_in (heard cat.now asks (taken journal)).awaits) }
    ensures kept { (told : Bool) (device : Device) (pool : Pool) (asks : List NumberedAsk) (journal : Journal) (low top : ℕ) → IsAfter cat.now asks journal pump.now
        → Fits cat.now (heard cat.now asks (taken journal))
        → ((asked : NumberedAsk) → asked_in (heard cat.now asks (taken journal)).awaits ≡ Some asked → IsWithin low top asked.text)
        → IsKept told device pool cat.now (heard cat.now asks (taken journal)) low top replies.old
        → IsAwaiting told device pool cat.now (heard cat.now asks (taken journal)) low top replies.old replies.new }
    ensures spool { replies.new.spool ≡ replies.old.spool }
{
    match pump.asked() {
        None => false,
        Some((text, ask)) => {
            replies.open(cat.schema(), text, ask);
            true
        }
    }
}

/// Runs the session of a script, which has at most 64 texts, with the host at the options' address, and prints the lines of
/// each text: the replies of the host and the key's own flash answer it. The catalog is of the version that is made.
///
/// Every page that it reads of the flash lies in a buffer of the pool, of which none is out before it and none after it.
/// The replies are written to the spool, behind the files of the hidden part; by the indexes the candidates of a text are gathered
/// behind the spool. No other page is written. After a failed write of a line no further one is printed, but the session goes on to
/// its end.
///
/// Where the flash tells its pages, the slot that the status names as damaged lies, whatever they hold, in a file that the plan reads
/// for the first text which damage ended, in a slot of that file; where it does not, it may also lie in the half of the spool in which
/// the text's replies lie, or by the indexes in scratch. A read of the session gave what was found there.
pub fn run_session<F: Flash, L: Link, O: Sink>(
    cat: &Catalog,
    script: &[u8],
    options: &Options<'_>,
    pool: &mut PagePool,
    flash: &mut F,
    link: &mut L,
    out: &mut O,
) -> Tally
    requires version { cat.now.version ≡ current_version }
    requires few { length (texts_of script.now) ≤ 64 }
    requires suffices { Suffices cat.now (F.state flash.old) }
    requires idle { IsIdle pool.old }
    ensures ran { HasRun (λ journal. L.went link.old journal link.new) (L.faults link.old) (L.faults link.new) options.now.plan F.told cat.now options.now.at.now (texts_of script.now)
        (session_side false (O.faults out.old) (O.written out.old) (F.state flash.old)) (session_side (is_sink result.status) (O.faults out.new) (O.written out.new) (F.state flash.new)) result }
    ensures texts { result.texts ≡ length (texts_of script.now) }
    ensures prints { PrintsSome (handed false (O.faults out.old) (O.written out.old)) (handed (is_sink result.status) (O.faults out.new) (O.written out.new)) }
    ensures sink_rose { is_sink result.status ≡ true → Rose (O.faults out.old) (O.faults out.new) }
    ensures sink_same { is_sink result.status ≡ false → O.faults out.new ≡ O.faults out.old }
    ensures pages { ChangesOnly (layout.static_end cat.now) (layout.scratch_end cat.now) (F.state flash.old) (F.state flash.new) }
    ensures idle { IsIdle pool.new }
    ensures flash_calls { min (F.state flash.old).calls last_count ≤ (F.state flash.new).calls }
    ensures flash_called { blames_flash result.status ≡ true → Rose (F.state flash.old).calls (F.state flash.new).calls }
    ensures damage_called { is_damaged result.status ≡ true → Rose (F.state flash.old).calls (F.state flash.new).calls }
    ensures flash_faults { min (F.state flash.old).faults last_count ≤ (F.state flash.new).faults }
    ensures flash_rose { blames_flash result.status ≡ true → Rose (F.state flash.old).faults (F.state flash.new).faults }
    ensures flash_same { spares_flash result.status ≡ true → (F.state flash.new).faults ≡ (F.state flash.old).faults }
    ensures link_faults { L.faults link.old ≤ L.faults link.new }
{
    texts_have_outcomes();
    closed_is_finished();
    moves_join();
    a_catalog_is_short(cat);
    a_catalog_has_a_layout(cat);
    honest_sessions_are_smooth();
    honest_lines_are_printed();
    later_texts_are_unmarked();
    knowledge_is_enough();
    damage_is_never_met();
    steps_take_few_calls();
    let mut session = Session::begin(cat, script, options);
    'steps: loop {
        match session.due() {
            Due::Ended => return session.tally(),
            Due::Move | Due::Slice => session.step(pool, flash, link, out),
        }
    }
}
