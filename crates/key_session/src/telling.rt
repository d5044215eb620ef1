//! The texts of a session, told one after another, a step at a time.

ghost use Rattle.std.specs.Prelude.{◌≡◌, ◌<◌, ◌≤◌, ◌+◌, ◌%◌, ℕ, List, Bool, true, false, length, is_some};
ghost use Rattle.ghost_model.specs.core.Channel as channel;
ghost use Rattle.ghost_model.specs.core.Channel.{Journal};
ghost use Rattle.channel_pump.specs.declared.state.Pump as pumps;
ghost use Rattle.ghost_model.specs.core.Asks.{asked_of};
ghost use Rattle.ghost_model.specs.core.Moves.{taken};
ghost use Rattle.ghost_model.specs.forms.Catalog.{current_version};
ghost use Rattle.ghost_model.specs.forms.Frames.{AreBytes};
ghost use Rattle.ghost_model.specs.laws.SchemaTrees.{IsTree};
ghost use Rattle.edge_traits.specs.Devices.{Device};
ghost use Rattle.channel_pump.specs.State.{IsAfter};
ghost use Rattle.key_lines.specs.Handing.{handed};
ghost use Rattle.leakless_plan.specs.declared.plan.Plan.{Plan};
ghost use Rattle.flash_layout.specs.Ranges.{Suffices};
ghost use Rattle.key_exec.specs.Plans.{by_pre};
ghost use Rattle.key_exec.specs.Reading.{KeepsBy};
ghost use Rattle.page_pool.specs.Pools.{Pool, KeepsOthers, others_out};
ghost use Rattle.key_exec.specs.Rows.{TakesTurn};
ghost use Rattle.visible_spool.specs.Sparing.{IsHalf};
ghost use Rattle.key_session.specs.Kept.{half_in, lease_of};
ghost use Rattle.key_session.specs.declared.replies.Replies as held;
ghost use Rattle.key_session.specs.Going.{CanRun, IsSomeRun, IsNext, IsAmid, IsBegun, EndsText, RunIsSpared, leases_of, left_of, unbegun};
ghost use Rattle.key_session.specs.Spending.{AreCountedBy, CountsStay, SpendsCalls, spent_by};
ghost use Rattle.key_session.specs.Telling.{SessionSide, session_side};

use crate::Replies;
use crate::laws::{
    kept_are_given, kept_halves_are_halves, later_texts_are_unmarked, low_rises, replies_stay_kept,
};
use crate::teller::{Teller, next_text};
use candidate_rows::laws::whole_replies_are_all;
use channel_pump::state::Pump;
use edge_traits::flash::Flash;
use edge_traits::sink::Sink;
use ghost_laws::selected::replies_are_whole;
use key_exec::laws::{
    damage_is_never_met, knowledge_is_enough, knowledge_stays, whole_replies_are_of_asked,
};
use key_exec::{Telling, Told};
use key_lines::ToldText;
use key_lines::printer::pieces_join;
use page_pool::PagePool;
use session_laws::text_cases::texts_are_decided;
use tree_schema::Catalog;

impl<'a> Teller<'a> {
    /// Begins the text that comes next, unless it was begun: its asks are over.
    pub(crate) fn take_up(&mut self, cat: &Catalog, pump: &Pump, replies: &Replies)
        requires version { cat.now.version ≡ current_version }
        requires left { is_some self.old.ahead ≡ true }
        ensures begun { is_some self.new.running ≡ true }
        ensures can { (told : Bool) (device : Device) (pool : Pool) (lease : ℕ) → Suffices cat.now device → IsHalf told cat.now ((self.old.count + 1) % 2) device (half_in replies.now (self.old.count + 1))
            → CanRun self.old.plan told cat.now device pool (self.old.count + 1) lease self.old.running → CanRun self.old.plan told cat.now device pool (self.new.count + 1) lease self.new.running }
        ensures told { (by : Plan) (told : Bool) (texts : List (List ℕ)) (journal : Journal) (since now : SessionSide) (pool : Pool) → Suffices cat.now now.flash → AreBytes (taken journal)
            → CanRun by told cat.now now.flash pool (self.old.count + 1) (lease_of replies.now) self.old.running
            → IsAfter cat.now (asked_of cat.now.schema texts) journal pump.now → IsNext cat.now texts journal pump.now (self.old.count + 1)
            → IsAmid by told cat.now texts journal since now pool pump.now self.old replies.now → IsBegun by told cat.now texts journal since now pool pump.now self.new replies.now }
        ensures fewer { left_of self.new ≤ left_of self.old }
        ensures count { self.new.count ≡ self.old.count }
        ensures plan { self.new.plan ≡ self.old.plan }
        ensures printer { self.new.printer.failed ≡ self.old.printer.failed }
        ensures left { is_some self.new.ahead ≡ true }
        ensures unspent { spent_by self.new.running ≡ spent_by self.old.running }
    {
        if self.running.is_some() {
            return;
        }
        self.begin_text(cat, pump, replies);
    }

    /// Begins the text that comes next. It is no part of a slice's own code, which needs no room for a job that begins.
    #[inline(never)]
    fn begin_text(&mut self, cat: &Catalog, pump: &Pump, replies: &Replies)
        requires version { cat.now.version ≡ current_version }
        requires left { is_some self.old.ahead ≡ true }
        requires none { is_some self.old.running ≡ false }
        ensures begun { is_some self.new.running ≡ true }
        ensures can { (told : Bool) (device : Device) (pool : Pool) (lease : ℕ) → Suffices cat.now device → IsHalf told cat.now ((self.old.count + 1) % 2) device (half_in replies.now (self.old.count + 1))
            → CanRun self.old.plan told cat.now device pool (self.old.count + 1) lease self.old.running → CanRun self.old.plan told cat.now device pool (self.new.count + 1) lease self.new.running }
        ensures told { (by : Plan) (told : Bool) (texts : List (List ℕ)) (journal : Journal) (since now : SessionSide) (pool : Pool) → Suffices cat.now now.flash → AreBytes (taken journal)
            → CanRun by told cat.now now.flash pool (self.old.count + 1) (lease_of replies.now) self.old.running
            → IsAfter cat.now (asked_of cat.now.schema texts) journal pump.now → IsNext cat.now texts journal pump.now (self.old.count + 1)
            → IsAmid by told cat.now texts journal since now pool pump.now self.old replies.now → IsBegun by told cat.now texts journal since now pool pump.now self.new replies.now }
        ensures fewer { left_of self.new ≤ left_of self.old }
        ensures count { self.new.count ≡ self.old.count }
        ensures plan { self.new.plan ≡ self.old.plan }
        ensures printer { self.new.printer.failed ≡ self.old.printer.failed }
        ensures left { is_some self.new.ahead ≡ true }
        ensures unspent { spent_by self.new.running ≡ spent_by self.old.running }
    {
        texts_are_decided();
        replies_are_whole();
        whole_replies_are_all();
        whole_replies_are_of_asked();
        kept_are_given();
        kept_halves_are_halves();
        let Some(text) = self.ahead else {
            unreachable!()
        };
        let number = self.count + 1;
        let state = pump.reply_state(number);
        let half = replies.half(number);
        let is_marked = replies.is_marked(number);
        self.running = Some(Telling::begin(cat, self.plan, number, text, state, half, is_marked));
    }

    /// Makes a step of the text that was begun.
    pub(crate) fn go_on<F: Flash, O: Sink>(
        &mut self,
        pool: &mut PagePool,
        flash: &mut F,
        out: &mut O,
    )
        requires begun { is_some self.old.running ≡ true }
        requires can { IsSomeRun F.told (F.state flash.old) pool.old (self.old.count + 1) self.old.running }
        ensures can { (by : Plan) (cat : channel.Catalog) (lease : ℕ) → CanRun by F.told cat (F.state flash.old) pool.old (self.old.count + 1) lease self.old.running
            → CanRun by F.told cat (F.state flash.new) pool.new (self.new.count + 1) lease self.new.running }
        ensures told { (by : Plan) (cat : channel.Catalog) (texts : List (List ℕ)) (journal : Journal) (since : SessionSide) (pump : pumps.Pump) (replies : held.Replies)
            → IsTree cat.schema → CanRun by F.told cat (F.state flash.old) pool.old (self.old.count + 1) (lease_of replies) self.old.running
            → IsBegun by F.told cat texts journal since (session_side self.old.printer.failed (O.faults out.old) (O.written out.old) (F.state flash.old)) pool.old pump self.old replies
            → IsAmid by F.told cat texts journal since (session_side self.new.printer.failed (O.faults out.new) (O.written out.new) (F.state flash.new)) pool.new pump self.new replies }
        ensures turn { TakesTurn (handed self.old.printer.failed (O.faults out.old) (O.written out.old)) (handed self.new.printer.failed (O.faults out.new) (O.written out.new))
            (F.state flash.old).calls (F.state flash.new).calls }
        ensures kept { (by : Plan) (cat : channel.Catalog) (lease : ℕ) → CanRun by F.told cat (F.state flash.old) pool.old (self.old.count + 1) lease self.old.running
            → KeepsBy by cat (F.state flash.old) (F.state flash.new) }
        ensures others { KeepsOthers (others_out pool.old (leases_of self.old.running)) pool.old pool.new }
        ensures few { (F.state flash.new).calls ≤ (F.state flash.old).calls + 8 }
        ensures counted { is_some self.new.running ≡ true → AreCountedBy (spent_by self.old.running) (spent_by self.new.running) (F.state flash.old).calls (F.state flash.new).calls }
        ensures spends { (cat : channel.Catalog) (texts : List (List ℕ)) (journal : Journal) (since : SessionSide) (pump : pumps.Pump) (replies : held.Replies)
            → IsTree cat.schema → CanRun by_pre F.told cat (F.state flash.old) pool.old (self.old.count + 1) (lease_of replies) self.old.running
            → IsBegun by_pre F.told cat texts journal since (session_side self.old.printer.failed (O.faults out.old) (O.written out.old) (F.state flash.old)) pool.old pump self.old replies
            → SpendsCalls F.told since.flash.page cat texts journal (F.state flash.old) (F.state flash.new) self.old self.new }
        ensures counts { CountsStay (F.state flash.old) (F.state flash.new) }
        ensures plan { self.new.plan ≡ self.old.plan }
        ensures onward { self.old.count ≤ self.new.count }
        ensures fewer { left_of self.new < left_of self.old }
    {
        pieces_join();
        texts_are_decided();
        knowledge_stays();
        replies_stay_kept();
        later_texts_are_unmarked();
        low_rises();
        knowledge_is_enough();
        damage_is_never_met();
        let Some(telling) = &mut self.running else {
            unreachable!()
        };
        match telling.step(&mut self.printer, out, pool, flash) {
            None => {}
            Some(told) => {
                let one = telling.told();
                self.end(told, one);
            }
        }
    }

    /// A law: the text that is told goes on, and is told, as before where others write only the other half of the spool, and use other
    /// buffers.
    pub(crate) fn spared(&self)
        ensures spared { RunIsSpared self.now.running }
    {
        if let Some(telling) = &self.running {
            telling.spared();
        }
    }

    /// The text ahead was told to its end. It is no part of a slice's own code, which needs no room for a text then.
    #[inline(never)]
    fn end(&mut self, told: Told, one: ToldText)
        requires left { is_some self.old.ahead ≡ true }
        ensures ended { EndsText told one self.old self.new }
        ensures printer { self.new.printer ≡ self.old.printer }
        ensures unbegun { unbegun self.new ≡ length self.old.texts }
    {
        self.running = None;
        self.count += 1;
        self.ahead = next_text(&mut self.texts);
        self.counts.add(told, one);
    }
}
