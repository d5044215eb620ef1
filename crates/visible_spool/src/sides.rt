//! What the two halves of the spool have.

ghost use Rattle.std.specs.Prelude.{◌≡◌, ◌<◌, ℕ, true, false};
ghost use Rattle.visible_spool.specs.Halves.{no_half, reply_of};
ghost use Rattle.visible_spool.specs.Sides.{Changes, IsTakenUp, is_marked, replies_of, side_of};

use crate::half::Half;
use crate::reply::Reply;
use ghost_base::limits::MAX_TABLES;

/// What one half has.
#[derive(Clone, Copy)]
pub struct Side {
    /// The text whose replies it has, by its number, and 0 where it has none.
    pub text: u32,
    /// Whether a page of one of them could not be written.
    pub is_marked: bool,
    /// The replies that were ended.
    pub half: Half,
}

/// What both halves have.
#[derive(Clone, Copy)]
pub struct Sides {
    /// The half of texts with an even number.
    pub even: Side,
    /// The half of texts with an odd number.
    pub odd: Side,
}

impl Side {
    /// No text.
    fn none() -> Side
        ensures text { result.text ≡ 0 }
        ensures mark { result.is_marked ≡ false }
        ensures half { result.half ≡ no_half }
    {
        Side {
            text: 0,
            is_marked: false,
            half: Half::none(),
        }
    }

    /// The half once it is a text's: as it was, or without replies where it was another's.
    fn taken_up(&self, text: u32) -> Side
        ensures taken { IsTakenUp text self.now result }
    {
        if self.text == text {
            *self
        } else {
            Side {
                text,
                is_marked: false,
                half: Half::none(),
            }
        }
    }

    /// The half with a mark.
    fn marked(&self) -> Side
        ensures text { result.text ≡ self.now.text }
        ensures mark { result.is_marked ≡ true }
        ensures half { result.half ≡ self.now.half }
    {
        Side {
            text: self.text,
            is_marked: true,
            half: self.half,
        }
    }

    /// The half with a reply for a table.
    fn keeping(&self, table: usize, reply: Reply) -> Side
        requires there { table < MAX_TABLES }
        ensures text { result.text ≡ self.now.text }
        ensures mark { result.is_marked ≡ self.now.is_marked }
        ensures kept { reply_of result.half table ≡ reply }
        ensures others { (other : ℕ) → (other ≡ table → ⊥) → reply_of result.half other ≡ reply_of self.now.half other }
    {
        let mut half = self.half;
        half.replies[table] = reply;
        Side {
            text: self.text,
            is_marked: self.is_marked,
            half,
        }
    }
}

impl Sides {
    /// No text.
    pub(crate) fn none() -> Sides
        ensures even { result.even.text ≡ 0 }
        ensures odd { result.odd.text ≡ 0 }
    {
        Sides {
            even: Side::none(),
            odd: Side::none(),
        }
    }

    /// The half of a text.
    pub(crate) fn side(&self, text: u32) -> &Side
        ensures side { result.now ≡ side_of self.now text }
    {
        if text % 2 == 0 { &self.even } else { &self.odd }
    }

    /// Whether a page of a text's replies could not be written.
    pub(crate) fn is_marked(&self, text: u32) -> bool
        ensures marked { result ≡ is_marked self.now text }
    {
        let side = self.side(text);
        side.text == text && side.is_marked
    }

    /// The replies of a text that were ended.
    pub(crate) fn replies(&self, text: u32) -> Half
        ensures replies { result ≡ replies_of self.now text }
    {
        let side = self.side(text);
        if side.text == text {
            side.half
        } else {
            Half::none()
        }
    }

    /// Puts something else into the half of a text.
    fn put(&mut self, text: u32, side: Side)
        ensures side { side_of self.new text ≡ side }
        ensures changes { Changes text self.old self.new }
    {
        if text % 2 == 0 {
            self.even = side;
        } else {
            self.odd = side;
        }
    }

    /// Makes its half a text's.
    pub(crate) fn take_up(&mut self, text: u32)
        ensures taken { IsTakenUp text (side_of self.old text) (side_of self.new text) }
        ensures changes { Changes text self.old self.new }
    {
        let side = self.side(text).taken_up(text);
        self.put(text, side);
    }

    /// Marks a text.
    pub(crate) fn mark(&mut self, text: u32)
        requires its_half { (side_of self.old text).text ≡ text }
        ensures marked { is_marked self.new text ≡ true }
        ensures half { (side_of self.new text).half ≡ (side_of self.old text).half }
        ensures text { (side_of self.new text).text ≡ text }
        ensures changes { Changes text self.old self.new }
    {
        let side = self.side(text).marked();
        self.put(text, side);
    }

    /// Keeps a reply of a text for a table.
    pub(crate) fn keep(&mut self, text: u32, table: usize, reply: Reply)
        requires there { table < MAX_TABLES }
        ensures text { (side_of self.new text).text ≡ (side_of self.old text).text }
        ensures mark { (side_of self.new text).is_marked ≡ (side_of self.old text).is_marked }
        ensures kept { reply_of (side_of self.new text).half table ≡ reply }
        ensures others { (other : ℕ) → (other ≡ table → ⊥) → reply_of (side_of self.new text).half other ≡ reply_of (side_of self.old text).half other }
        ensures changes { Changes text self.old self.new }
    {
        let side = self.side(text).keeping(table, reply);
        self.put(text, side);
    }
}
