//! The lines of a journal's file.

ghost use Rattle.std.specs.Prelude.{◌≡◌, ◌++◌, ◌≤◌, ℕ, List, codes, length, IfSome, IfNone};
ghost use Rattle.ghost_model.specs.core.Channel.{Answer, Entry};
ghost use Rattle.ghost_model.specs.core.Recorded.{Tells, TellsDial, TellsSend, TellsTake, TellsGiven};
ghost use Rattle.channel_audit.specs.Lines.{IsRead, entry_of, given_as};

use crate::digits::{is_number, number_up_to_many};
use crate::hexadecimal::{MOST_TOLD, read_hex};
use crate::words::{behind, cut, done};

/// The most bytes of a line, its LF not counted.
pub const MAX_LINE: usize = 4_200;

/// What a take was answered.
#[derive(Clone, Copy)]
pub enum Given<'a> {
    /// These bytes.
    Piece(&'a [u8]),
    /// The end of the stream.
    End,
    /// A failure.
    Failed,
}

/// What a line tells: a move, and how it was answered.
#[derive(Clone, Copy)]
pub enum Line<'a> {
    /// The host was dialled, well or not.
    Dial { well: bool },
    /// These bytes were sent, well or not.
    Send { bytes: &'a [u8], well: bool },
    /// At most the number in these digits was asked for.
    Take { digits: &'a [u8], given: Given<'a> },
    /// The channel was closed.
    Close,
}

/// What a line tells behind `dial `.
fn read_dial<'a>(word: &[u8]) -> Option<Line<'a>>
    ensures some { IfSome result (λ line. IsRead (codes "dial " ++ word.now) line) }
    ensures none { IfNone result ((answer : Answer) → TellsDial answer (codes "dial " ++ word.now) → ⊥) }
{
    match done(word) {
        Some(well) => Some(Line::Dial { well }),
        None => None,
    }
}

/// What a line tells behind `send `.
fn read_send<'a>(text: &[u8], room: &'a mut [u8; MOST_TOLD]) -> Option<Line<'a>>
    requires short { length text.now ≤ 4200 }
    ensures some { IfSome result (λ line. IsRead (codes "send " ++ text.now) line) }
    ensures none { IfNone result ((bytes : List ℕ) (answer : Answer) → TellsSend bytes answer (codes "send " ++ text.now) → ⊥) }
{
    let Some((digits, word)) = cut(b' ', text) else {
        return None;
    };
    let Some(well) = done(word) else {
        return None;
    };
    match read_hex(digits, room) {
        Some(bytes) => Some(Line::Send { bytes, well }),
        None => None,
    }
}

/// What the last word of a take of at most so many bytes tells.
fn read_given<'a>(word: &[u8], most: usize, room: &'a mut [u8; MOST_TOLD]) -> Option<Given<'a>>
    requires short { length word.now ≤ 4200 }
    ensures some { IfSome result (λ given. TellsGiven most (given_as given) word.now) }
    ensures none { IfNone result ((answer : Answer) → TellsGiven most answer word.now → ⊥) }
{
    if word == b"end".as_slice() {
        return Some(Given::End);
    }
    if word == b"failed".as_slice() {
        return Some(Given::Failed);
    }
    match read_hex(word, room) {
        None => None,
        Some(bytes) => {
            if bytes.is_empty() {
                return None;
            }
            if bytes.len() > most {
                return None;
            }
            Some(Given::Piece(bytes))
        }
    }
}

/// What a line tells behind `take `.
fn read_take<'a>(text: &'a [u8], room: &'a mut [u8; MOST_TOLD]) -> Option<Line<'a>>
    requires short { length text.now ≤ 4200 }
    ensures some { IfSome result (λ line. IsRead (codes "take " ++ text.now) line) }
    ensures none { IfNone result ((most : ℕ) (answer : Answer) → TellsTake most answer (codes "take " ++ text.now) → ⊥) }
{
    let Some((digits, word)) = cut(b' ', text) else {
        return None;
    };
    if !is_number(digits) {
        return None;
    }
    match read_given(word, number_up_to_many(digits), room) {
        Some(given) => Some(Line::Take { digits, given }),
        None => None,
    }
}

/// What a line tells, without its LF. The bytes that it tells are put into a room.
pub(crate) fn read_line<'a>(text: &'a [u8], room: &'a mut [u8; MOST_TOLD]) -> Option<Line<'a>>
    ensures some { IfSome result (λ line. Tells text.now (entry_of line)) }
    ensures none { IfNone result ((made : Entry) → Tells text.now made → ⊥) }
{
    if text.len() > MAX_LINE {
        return None;
    }
    if text == b"close".as_slice() {
        return Some(Line::Close);
    }
    if let Some(word) = behind(text, b"dial ") {
        return read_dial(word);
    }
    if let Some(rest) = behind(text, b"send ") {
        return read_send(rest, room);
    }
    if let Some(rest) = behind(text, b"take ") {
        return read_take(rest, room);
    }
    None
}
