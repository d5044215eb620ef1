//! The order of work: what a session does next, and how many slices may come between two moves.

ghost use Rattle.std.specs.Prelude.{◌≡◌, ◌≤◌, ◌-◌, get_or};
ghost use Rattle.key_session.specs.Order.{IsPaced, IsSliced, IsUnpaced, is_owed};

use channel_pump::state::Event;

/// What a session does next.
#[derive(Clone, Copy)]
pub enum Due {
    /// A move.
    Move,
    /// A slice of the work on the text that comes next.
    Slice,
    /// Nothing: it has ended.
    Ended,
}

/// How many slices may come between two moves.
#[derive(Clone, Copy)]
pub struct Pace<'a> {
    /// How many are allowed behind each frame of rows, one number after another, and again from the first.
    pub numbers: &'a [u16],
    /// The place of the number behind the next frame of rows.
    pub place: usize,
    /// How many are still allowed before the next move.
    pub owed: u16,
}

/// The number at a place, or 0.
fn number_at(numbers: &[u16], place: usize) -> u16
    ensures number { result ≡ get_or numbers.now place 0 }
{
    match numbers.get(place) {
        Some(number) => *number,
        None => 0,
    }
}

/// Whether a slice of a text comes before the next move, where an ask of another text is at hand.
///
/// It does where the pace still allows one and that text is a later one; and where it is two texts behind at least, whose
/// ask was not sent then.
pub(crate) fn comes_first(owed: u16, text: u32, asked: u32) -> bool
    requires few { text ≤ 65 }
    ensures first { result ≡ is_owed owed text asked }
{
    text + 2 <= asked || (owed > 0 && text < asked)
}

impl<'a> Pace<'a> {
    /// Before the first move no slice is allowed.
    pub(crate) fn new(numbers: &'a [u16]) -> Self
        ensures unpaced { IsUnpaced numbers.now result }
    {
        Pace {
            numbers,
            place: 0,
            owed: 0,
        }
    }

    /// Goes on after a move that led to an event: behind a frame of rows the next number is allowed, and else none.
    pub(crate) fn moved(&mut self, event: Event)
        ensures paced { IsPaced event self.old self.new }
    {
        match event {
            Event::Rows(_) => {
                let place = if self.place < self.numbers.len() {
                    self.place
                } else {
                    0
                };
                self.owed = number_at(self.numbers, place);
                self.place = place + 1;
            }
            Event::Part | Event::Welcome | Event::Done | Event::Sorry(_) | Event::Invalid { .. } =>
                self.owed = 0,
        }
    }

    /// Goes on after a slice.
    pub(crate) fn sliced(&mut self)
        ensures sliced { IsSliced self.old self.new }
    {
        self.owed = self.owed.saturating_sub(1);
    }
}
