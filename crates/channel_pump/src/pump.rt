//! The calls of a pump. A session asks what is wanted, does that move and reports its answer.

ghost use Rattle.std.specs.Prelude.{◌≡◌, ℕ, ◌+◌, ◌<◌, ◌≤◌, ◌^◌, ◌++◌, ◌==◌, true, List, [], ◌∷◌, length, take, drop, option_map, Option, Some, None};
ghost use Rattle.std.specs.List.{list_any};
ghost use Rattle.ghost_model.specs.core.Channel as channel;
ghost use Rattle.ghost_model.specs.core.Channel.{Catalog, Journal, Move};
ghost use Rattle.ghost_model.specs.core.Asks.{NumberedAsk, asked, asked_of};
ghost use Rattle.ghost_model.specs.core.Texts.{texts_of};
ghost use Rattle.ghost_model.specs.core.Moves.{taken};
ghost use Rattle.ghost_model.specs.core.NextMove as next;
ghost use Rattle.ghost_model.specs.core.NextMove.{next_with, heard, standing_after};
ghost use Rattle.ghost_model.specs.forms.Frames.{payload_of};
ghost use Rattle.channel_codec.specs.AskViews.{ask_view};
ghost use Rattle.channel_codec.specs.Views.{frame_view};
ghost use Rattle.channel_pump.specs.Here.{moves_left, awaits_at};
ghost use Rattle.channel_pump.specs.Marks.{asked_at, state_of};
ghost use Rattle.channel_pump.specs.State as state;
ghost use Rattle.channel_pump.specs.State.{IsAfter, Keeps, IsWanted, IsTakenBy, FitsPage, want_of, want_at, is_done_by, can_fail, is_take, entry, taken_entry, cause_at, frame_due};
ghost use Rattle.channel_pump.specs.Turning.{event_after};
ghost use Rattle.channel_pump.specs.Progress.{RowsHere, Tells, EndsAs};

use crate::asks::Asks;
use crate::judging::Judged;
use crate::missing::Missing;
use crate::state::{Cause, Event, Outgoing, Phase, Pump, ReplyState, Stage, Want};
use channel_codec::ask::Ask;
use channel_codec::frame::{Frame, put_frame};
use ghost_base::limits::MAX_TEXTS;

impl<'a> Pump<'a> {
    /// A session of the asks of a script, which has at most 64 texts, over a catalog, before its first move. Texts are read
    /// as their asks come due, and the catalog's bytes are made as they are compared.
    pub fn begin(cat: &'a tree_schema::Catalog, script: &'a [u8]) -> Self
        requires texts { length (texts_of script.now) ≤ MAX_TEXTS }
        ensures after { IsAfter cat.now (asked_of cat.now.schema (texts_of script.now)) [] result }
        ensures want { want_of result ≡ Want.Dial }
    {
        Pump {
            generation: cat.generation(),
            missing: Missing::new(cat),
            rest: Asks::new(cat, script),
            phase: Phase::Greeting,
            stage: Stage::Dialling,
            serial: 1,
            count: 0,
            last: 0,
            have: 0,
            lacks: 8,
            before: 0,
            refused: [false; 65],
        }
    }

    /// What is wanted: the next move of the session.
    pub fn want(&self) -> Want
        ensures want { result ≡ want_of self.now }
        ensures next { (catalog : Catalog) (at : List ℕ) (asks : List NumberedAsk) (journal : Journal)
            → IsAfter catalog asks journal self.now → IsWanted at result (next_with catalog at asks journal) }
        ensures page { FitsPage result }
    {
        match self.stage {
            Stage::Dialling => Want::Dial,
            Stage::Sending(_) => Want::Send,
            Stage::Taking => Want::Take {
                at: self.have,
                most: self.lacks,
            },
            Stage::Closing(_) => Want::Close,
            Stage::Closed(_) => Want::Closed,
        }
    }

    /// Why the session ends, if it does.
    pub fn cause(&self) -> Option<Cause>
        ensures cause { result ≡ cause_at self.now.stage }
        ensures ends { (catalog : Catalog) (asks : List NumberedAsk) (journal : Journal)
            → IsAfter catalog asks journal self.now → EndsAs (standing_after catalog asks journal) result }
    {
        match self.stage {
            Stage::Closing(cause) | Stage::Closed(cause) => Some(cause),
            _ => None,
        }
    }

    /// Whether an ask of a text is still to be ended.
    fn awaits_text(&self, text: u32) -> bool
        ensures { result ≡ awaits_at self.now.phase self.now text }
    {
        match self.phase {
            Phase::Greeting => self.rest.has_text(text),
            Phase::Reply => self.rest.has_text(text),
            Phase::Over => false,
        }
    }

    /// In what state the replies to the asks of a text are.
    pub fn reply_state(&self, text: u32) -> ReplyState
        requires { text ≤ 64 }
        ensures { (catalog : Catalog) (asks : List NumberedAsk) (journal : Journal)
            → IsAfter catalog asks journal self.now → result ≡ state_of asks text (standing_after catalog asks journal) }
    {
        if self.refused[text as usize] {
            return ReplyState::Host;
        }
        if !self.awaits_text(text) {
            return ReplyState::Done;
        }
        match self.cause() {
            None => ReplyState::Awaited,
            Some(Cause::Finished) => ReplyState::Awaited,
            Some(Cause::Link) => ReplyState::Link,
            Some(Cause::Protocol { .. }) => ReplyState::Protocol,
        }
    }

    /// The ask whose reply is awaited, also where it is about to be sent, and the number of its text. There is none in the
    /// greeting, and none behind the last ask.
    pub fn asked(&self) -> Option<(u32, &Ask)>
        ensures awaited { (catalog : Catalog) (asks : List NumberedAsk) (journal : Journal)
            → IsAfter catalog asks journal self.now → option_map (λ first. asked first.0 (ask_view first.1.now)) result ≡ asked_at (heard catalog asks (taken journal)).awaits }
    {
        match self.phase {
            Phase::Greeting | Phase::Over => None,
            Phase::Reply => self.rest.asked(),
        }
    }

    /// The frame that is sent.
    fn outgoing(&self, outgoing: Outgoing) -> Frame<'_>
        ensures frame { frame_view result ≡ frame_due self.now outgoing }
        ensures short { length (payload_of (frame_view result)) ≤ 2040 }
    {
        match outgoing {
            Outgoing::Hello => Frame::Hello {
                generation: self.generation,
            },
            Outgoing::Ask => Frame::Ask {
                serial: self.serial,
                payload: self.rest.payload(),
            },
            Outgoing::More => Frame::More {
                serial: self.serial,
            },
            Outgoing::Bye => Frame::Bye,
        }
    }

    /// Writes the frame that is sent over the front of a page, and answers how many bytes it has.
    pub fn frame(&self, page: &mut [u8]) -> usize
        requires sending { want_of self.now ≡ Want.Send }
        requires room { 2048 ≤ length page.old }
        ensures sends { (catalog : Catalog) (at : List ℕ) (asks : List NumberedAsk) (journal : Journal)
            → IsAfter catalog asks journal self.now → next_with catalog at asks journal ≡ Some (channel.Send (take result page.new)) }
        ensures keeps { (catalog : Catalog) (asks : List NumberedAsk) (journal : Journal)
            → IsAfter catalog asks journal self.now → Keeps catalog asks journal page.new }
        ensures most { result ≤ 2048 }
    {
        match self.stage {
            Stage::Sending(outgoing) => put_frame(&self.outgoing(outgoing), page),
            _ => unreachable!(),
        }
    }

    /// The dial, the send or the close that was wanted is done.
    pub fn made(&mut self)
        requires { is_done_by (want_of self.old) ≡ true }
        ensures after { (catalog : Catalog) (at : List ℕ) (asks : List NumberedAsk) (journal : Journal) (move : Move)
            → IsAfter catalog asks journal self.old → next_with catalog at asks journal ≡ Some move
            → IsAfter catalog asks (journal ++ entry move channel.Made ∷ []) self.new }
        ensures fewer { moves_left self.new < moves_left self.old }
    {
        match self.stage {
            Stage::Dialling => self.stage = Stage::Sending(Outgoing::Hello),
            Stage::Sending(Outgoing::Bye) => self.stage = Stage::Closing(Cause::Finished),
            Stage::Sending(_) => {
                self.have = 0;
                self.lacks = 8;
                self.stage = Stage::Taking;
            }
            Stage::Closing(cause) => self.stage = Stage::Closed(cause),
            Stage::Taking | Stage::Closed(_) => unreachable!(),
        }
    }

    /// The dial, the send or the take that was wanted failed.
    pub fn failed(&mut self)
        requires { can_fail (want_of self.old) ≡ true }
        ensures after { (catalog : Catalog) (at : List ℕ) (asks : List NumberedAsk) (journal : Journal) (move : Move)
            → IsAfter catalog asks journal self.old → next_with catalog at asks journal ≡ Some move
            → IsAfter catalog asks (journal ++ entry move channel.Failed ∷ []) self.new }
        ensures fewer { moves_left self.new < moves_left self.old }
    {
        self.stage = Stage::Closing(Cause::Link);
    }

    /// The take that was wanted was answered by the end of the stream.
    pub fn ended(&mut self)
        requires { is_take (want_of self.old) ≡ true }
        ensures after { (catalog : Catalog) (at : List ℕ) (asks : List NumberedAsk) (journal : Journal) (move : Move)
            → IsAfter catalog asks journal self.old → next_with catalog at asks journal ≡ Some move
            → IsAfter catalog asks (journal ++ entry move channel.End ∷ []) self.new }
        ensures fewer { moves_left self.new < moves_left self.old }
    {
        self.stage = Stage::Closing(Cause::Link);
    }

    /// The take that was wanted was answered by `n` bytes, which stand in the page behind the part of the frame at hand.
    pub fn took(&mut self, page: &[u8], n: usize) -> Event
        requires some { 0 < n }
        requires taken { IsTakenBy n (want_of self.old) }
        requires room { 2048 ≤ length page.now }
        ensures after { (catalog : Catalog) (asks : List NumberedAsk) (journal : Journal)
            → IsAfter catalog asks journal self.old → Keeps catalog asks journal page.now
            → IsAfter catalog asks (journal ++ taken_entry self.old page.now n ∷ []) self.new }
        ensures keeps { (catalog : Catalog) (asks : List NumberedAsk) (journal : Journal)
            → IsAfter catalog asks journal self.old → Keeps catalog asks journal page.now
            → Keeps catalog asks (journal ++ taken_entry self.old page.now n ∷ []) page.now }
        ensures event { (catalog : Catalog) (asks : List NumberedAsk) (journal : Journal)
            → IsAfter catalog asks journal self.old → Keeps catalog asks journal page.now
            → result ≡ event_after catalog (heard catalog asks (taken journal)) (take n (drop self.old.have page.now)) }
        ensures tells { (catalog : Catalog) (asks : List NumberedAsk) (journal : Journal)
            → IsAfter catalog asks journal self.old → Keeps catalog asks journal page.now
            → Tells catalog page.now result (heard catalog asks (taken journal)) (heard catalog asks (taken (journal ++ taken_entry self.old page.now n ∷ []))) }
        ensures rows { RowsHere self.old page.now result }
        ensures fewer { moves_left self.new < moves_left self.old }
    {
        let (part, _rest) = page.split_at(self.have + n);
        match self.judge(part) {
            Judged::Short(missing) => {
                self.have += n;
                self.lacks = missing;
                Event::Part
            }
            Judged::Invalid => {
                let kind = part[0];
                let at = self.before;
                self.stage = Stage::Closing(Cause::Protocol { kind, at });
                Event::Invalid { kind, at }
            }
            Judged::Whole(tally) => {
                self.have = 0;
                self.lacks = 8;
                self.before = self.before.saturating_add(part.len() as u64);
                self.hear(part, tally)
            }
        }
    }
}
