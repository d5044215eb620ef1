//! An audit of a journal, line by line.

ghost use Rattle.std.specs.Prelude.{◌≡◌, ◌≢◌, ◌≤◌, ℕ, List, [], ◌∷◌, Some, true, false, length, IfSome};
ghost use Rattle.ghost_model.specs.core.Channel as channel;
ghost use Rattle.ghost_model.specs.core.Channel.{Journal};
ghost use Rattle.ghost_model.specs.core.Asks.{NumberedAsk, asked_of};
ghost use Rattle.ghost_model.specs.core.Texts.{texts_of};
ghost use Rattle.ghost_model.specs.core.NextMove.{next_with, standing_after};
ghost use Rattle.channel_pump.specs.State.{want_of};
ghost use Rattle.channel_pump.specs.declared.state.Want.TheVariants as want;
ghost use Rattle.channel_audit.specs.Lines.{entry_of};
ghost use Rattle.channel_audit.specs.Audited.{IsAudited, Judges, FitsPage, kind_of, move_due};

use crate::digits::number_up_to_many;
use crate::hexadecimal::MOST_TOLD;
use crate::line::{Line, read_line};
use crate::replay::Replay;
use channel_pump::laws::sessions_begin;
use channel_pump::pump;
use channel_pump::state::{Pump, Want};
use ghost_base::limits::MAX_TEXTS;
use std::fmt::{Display, Error as FormatError, Formatter, Write};
use tree_schema::Catalog;

/// A move as it is told: its kind, and how long it is.
#[derive(Clone, Copy, Debug, Drop)]
pub enum Due {
    /// The dial.
    Dial,
    /// So many bytes are sent.
    Send(usize),
    /// At most so many bytes are taken; a number that is greater than 100,000 counts as that.
    Take(usize),
    /// The close.
    Close,
    /// No move.
    Nothing,
}

impl Display for Due {
    fn fmt<W: Write>(&self, f: &mut Formatter<W>) -> Result<(), FormatError> {
        match self {
            Due::Dial => write!(f, "a dial"),
            Due::Send(count) => write!(f, "a send of {count} bytes"),
            Due::Take(most) => write!(f, "a take of {most} bytes"),
            Due::Close => write!(f, "the close"),
            Due::Nothing => write!(f, "no move"),
        }
    }
}

/// What an audit says of a line.
#[derive(Clone, Copy)]
pub enum Step {
    /// It tells the next move.
    Fine,
    /// It tells a move that is not the next one, which stands beside it.
    Wrong { told: Due, due: Due },
    /// It is no line of a journal.
    NotALine,
}

/// The audit of a journal for a catalog and a script. It takes no memory.
#[derive(Drop)]
pub struct Audit<'a> {
    pump: Pump<'a>,
    page: [u8; 2048],
}

/// The kind and the length of the move that a line tells.
fn told_by(line: &Line) -> Due
    ensures { result ≡ kind_of (entry_of line.now).move }
{
    match line {
        Line::Dial { .. } => Due::Dial,
        Line::Send { bytes, .. } => Due::Send(bytes.len()),
        Line::Take { digits, .. } => Due::Take(number_up_to_many(digits)),
        Line::Close => Due::Close,
    }
}

/// Whether a line tells the move that is due, whose bytes stand in a page.
fn is_due(line: &Line, due: Due, page: &[u8; 2048]) -> bool
    requires fits { FitsPage due }
    ensures due { result ≡ true → move_due due page.now ≡ Some (entry_of line.now).move }
    ensures other { result ≡ false → move_due due page.now ≡ Some (entry_of line.now).move → ⊥ }
{
    match line {
        Line::Dial { .. } => matches!(due, Due::Dial),
        Line::Send { bytes, .. } => match due {
            Due::Send(count) => {
                let (frame, _rest) = page.split_at(count);
                frame == *bytes
            }
            _ => false,
        },
        Line::Take { digits, .. } => match due {
            Due::Take(most) => number_up_to_many(digits) == most,
            _ => false,
        },
        Line::Close => matches!(due, Due::Close),
    }
}

/// A page has 2,048 bytes.
fn is_a_page(page: &[u8; 2048])
    ensures long { length page.now ≡ 2048 }
{
    let _page = page;
}

impl<'a> Audit<'a> {
    /// An audit of the asks of a script, which has at most 64 texts, over a catalog, before the first line.
    pub fn begin(cat: &'a Catalog, script: &'a [u8]) -> Self
        requires few { length (texts_of script.now) ≤ MAX_TEXTS }
        ensures begun { IsAudited cat.now (asked_of cat.now.schema (texts_of script.now)) [] result }
    {
        sessions_begin();
        Audit {
            pump: Pump::begin(cat, script),
            page: [0; 2048],
        }
    }

    /// The move that is due. Where bytes are sent, they are put into the front of the page.
    fn due(&mut self) -> Due
        ensures fits { FitsPage result }
        ensures next { (catalog : channel.Catalog) (asks : List NumberedAsk) (journal : Journal) → IsAudited catalog asks journal self.old
            → next_with catalog [] asks journal ≡ move_due result self.new.page }
        ensures still { (catalog : channel.Catalog) (asks : List NumberedAsk) (journal : Journal) → IsAudited catalog asks journal self.old
            → IsAudited catalog asks journal self.new }
        ensures closed { want_of self.old.pump ≡ want.Closed → result ≡ Due.Nothing }
        ensures same { self.new.pump ≡ self.old.pump }
    {
        match self.pump.want() {
            Want::Dial => Due::Dial,
            Want::Send => Due::Send(self.pump.frame(&mut self.page)),
            Want::Take { most, .. } => Due::Take(most),
            Want::Close => Due::Close,
            Want::Closed => Due::Nothing,
        }
    }

    /// Judges the next line of the journal, without its LF: it tells the next move, or another, or it is no line.
    ///
    /// After a line that is not fine a call still answers, and nothing is claimed of it.
    pub fn line(&mut self, bytes: &[u8]) -> Step
        ensures judged { (catalog : channel.Catalog) (asks : List NumberedAsk) (journal : Journal) → IsAudited catalog asks journal self.old
            → Judges catalog asks journal bytes.now result self.new }
    {
        let mut room = [0; MOST_TOLD];
        let Some(line) = read_line(bytes, &mut room) else {
            return Step::NotALine;
        };
        let due = self.due();
        is_a_page(&self.page);
        if !is_due(&line, due, &self.page) {
            return Step::Wrong {
                told: told_by(&line),
                due,
            };
        }
        let mut replay = Replay::new(line);
        let _event = self.pump.step("", &mut self.page, &mut replay);
        Step::Fine
    }

    /// Whether the last move was the close.
    pub fn closed(&self) -> bool
        ensures closed { (catalog : channel.Catalog) (asks : List NumberedAsk) (journal : Journal) → IsAudited catalog asks journal self.now
            → result ≡ (standing_after catalog asks journal).closed }
    {
        matches!(self.pump.want(), Want::Closed)
    }
}
