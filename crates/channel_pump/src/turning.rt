//! What a whole frame leads to.

ghost use Rattle.std.specs.Prelude.{◌≡◌, ℕ, ◌+◌, ◌-◌, ◌≤◌, ◌<◌, ◌^◌, ◌≢◌, ◌==◌, true, List, ◌∷◌, length, drop, take_while};
ghost use Rattle.ghost_model.specs.core.Channel.{Catalog};
ghost use Rattle.ghost_model.specs.core.Asks.{NumberedAsk};
ghost use Rattle.ghost_model.specs.forms.Frames as frames;
ghost use Rattle.ghost_model.specs.core.NextMove as next;
ghost use Rattle.channel_pump.specs.Asked.{AreAsked};
ghost use Rattle.channel_pump.specs.Here.{Stands, header_at, payload_at, frames_left, frames_for};
ghost use Rattle.channel_pump.specs.State.{IsAwaiting, IsFresh, IsBefore, IsTurned, IsGoing};
ghost use Rattle.channel_pump.specs.Marks.{marked_on};
ghost use Rattle.channel_pump.specs.Forms.{Form};
ghost use Rattle.channel_pump.specs.Turning.{event_of};

use crate::rows::Tally;
use crate::state::{Event, Outgoing, Phase, Pump, Stage};
use channel_codec::frame::HEADER_BYTES;
use channel_codec::reading::{kind_in, size_in};

impl<'a> Pump<'a> {
    /// Sends the first of the asks that are left, or BYE where there is none.
    fn go_on_with(&mut self, serial: u32)
        requires { serial + length self.old.rest < 2 ^ 32 }
        ensures turned { (catalog : Catalog) (asked : List NumberedAsk) → AreAsked catalog self.old.rest asked
            → IsTurned catalog self.new (next.ask_next catalog.schema serial asked) }
        ensures fresh { self.new.phase ≢ Phase.Greeting }
        ensures going { IsGoing self.new.phase self.new.stage }
        ensures frames { frames_left self.new ≡ frames_for self.old.rest }
        ensures have { self.new.have ≡ self.old.have }
        ensures lacks { self.new.lacks ≡ self.old.lacks }
        ensures before { self.new.before ≡ self.old.before }
        ensures generation { self.new.generation ≡ self.old.generation }
        ensures refused { self.new.refused ≡ self.old.refused }
    {
        self.serial = serial;
        if self.rest.is_empty() {
            self.phase = Phase::Over;
            self.stage = Stage::Sending(Outgoing::Bye);
        } else {
            self.count = 0;
            self.last = 0;
            self.phase = Phase::Reply;
            self.stage = Stage::Sending(Outgoing::Ask);
        }
    }

    /// Hears a WELCOME frame.
    fn greeted(&mut self, part: &[u8])
        requires phase { self.old.phase ≡ Phase.Greeting }
        requires whole { 8 + frames.size_in part.now ≤ length part.now }
        requires header { header_at Phase.Greeting self.old part.now ≡ true }
        ensures turned { (catalog : Catalog) (asks : List NumberedAsk) → IsBefore catalog asks self.old
            → IsTurned catalog self.new (next.turn_of_greeting catalog.schema asks self.old.missing (frames.frame_in part.now)) }
        ensures fresh { (catalog : Catalog) (asks : List NumberedAsk) → IsBefore catalog asks self.old → IsFresh catalog asks self.new self.new.phase }
        ensures going { IsGoing self.new.phase self.new.stage }
        ensures frames { frames_left self.new < frames_left self.old }
        ensures have { self.new.have ≡ self.old.have }
        ensures lacks { self.new.lacks ≡ self.old.lacks }
        ensures before { self.new.before ≡ self.old.before }
        ensures generation { self.new.generation ≡ self.old.generation }
        ensures refused { self.new.refused ≡ self.old.refused }
    {
        let size = size_in(part) as usize - 1;
        if size == self.missing.len() {
            self.go_on_with(self.serial);
        } else {
            self.missing.leave_out(size);
            self.stage = Stage::Taking;
        }
    }

    /// The text of the ask whose reply is awaited.
    fn text(&self) -> u32
        requires phase { self.now.phase ≡ Phase.Reply }
        ensures first { (later : List Form) × (form : Form) × (self.now.rest ≡ form ∷ later) × (form.text ≡ result) }
        ensures few { result ≤ 64 }
    {
        match self.rest.first() {
            Some(form) => form.text,
            None => unreachable!(),
        }
    }

    /// Hears a frame of the reply to the first of the asks that are left.
    fn replied(&mut self, part: &[u8], tally: Tally) -> Event
        requires phase { self.old.phase ≡ Phase.Reply }
        requires stands { Stands self.old part.now tally }
        ensures turned { (catalog : Catalog) (asked : NumberedAsk) (serial : ℕ) (later : List NumberedAsk) (count last : ℕ)
            → IsAwaiting catalog self.old Phase.Reply (next.AwaitsReply asked serial later count last)
            → IsTurned catalog self.new (next.turn_of_reply catalog.schema asked serial later count last (frames.frame_in part.now)) }
        ensures fresh { self.new.phase ≢ Phase.Greeting }
        ensures going { IsGoing self.new.phase self.new.stage }
        ensures frames { frames_left self.new < frames_left self.old }
        ensures have { self.new.have ≡ self.old.have }
        ensures lacks { self.new.lacks ≡ self.old.lacks }
        ensures before { self.new.before ≡ self.old.before }
        ensures generation { self.new.generation ≡ self.old.generation }
        ensures refused { self.new.refused ≡ marked_on result self.old.rest self.old.refused }
        ensures event { result ≡ event_of tally.rows (frames.frame_in part.now) }
    {
        match kind_in(part) {
            18 => {
                self.count += tally.rows;
                self.last = tally.last;
                self.stage = Stage::Sending(Outgoing::More);
                Event::Rows(tally.rows)
            }
            19 => {
                self.phase = Phase::Over;
                self.rest.leave_out();
                self.go_on_with(self.serial + 1);
                Event::Done
            }
            _ => {
                let text = self.text();
                self.refused[text as usize] = true;
                self.phase = Phase::Over;
                self.rest.leave_out();
                self.rest.give_up(text);
                self.go_on_with(self.serial + 1);
                Event::Sorry(part[HEADER_BYTES])
            }
        }
    }

    /// Hears a whole frame that may stand here.
    pub(crate) fn hear(&mut self, part: &[u8], tally: Tally) -> Event
        requires stands { Stands self.old part.now tally }
        ensures turned { (catalog : Catalog) (asks : List NumberedAsk) (awaits : next.Awaits)
            → IsAwaiting catalog self.old self.old.phase awaits → IsFresh catalog asks self.old self.old.phase
            → IsTurned catalog self.new (next.after_frame catalog asks awaits (frames.frame_in part.now)) }
        ensures fresh { (catalog : Catalog) (asks : List NumberedAsk) → IsFresh catalog asks self.old self.old.phase
            → IsFresh catalog asks self.new self.new.phase }
        ensures going { IsGoing self.new.phase self.new.stage }
        ensures frames { frames_left self.new < frames_left self.old }
        ensures have { self.new.have ≡ self.old.have }
        ensures lacks { self.new.lacks ≡ self.old.lacks }
        ensures before { self.new.before ≡ self.old.before }
        ensures generation { self.new.generation ≡ self.old.generation }
        ensures refused { self.new.refused ≡ marked_on result self.old.rest self.old.refused }
        ensures event { result ≡ event_of tally.rows (frames.frame_in part.now) }
    {
        match self.phase {
            Phase::Greeting => {
                self.greeted(part);
                Event::Welcome
            }
            Phase::Reply => self.replied(part, tally),
            Phase::Over => unreachable!(),
        }
    }
}
