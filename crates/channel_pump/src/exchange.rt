//! The moves of a session.

ghost use Rattle.std.specs.Prelude.{◌≡◌, ◌≢◌, ◌+◌, ◌<◌, ◌≤◌, ◌∷◌, List, ℕ, Some, IfOk, [], take};
ghost use Rattle.ghost_model.specs.core.Causes.{HasCause};
ghost use Rattle.ghost_model.specs.core.Channel as channel;
ghost use Rattle.ghost_model.specs.core.Channel.{Catalog, Journal};
ghost use Rattle.ghost_model.specs.core.Asks.{NumberedAsk};
ghost use Rattle.ghost_model.specs.forms.Frames.{AreBytes};
ghost use Rattle.ghost_model.specs.core.NextMove.{next_with};
ghost use Rattle.channel_pump.specs.Here.{moves_left};
ghost use Rattle.channel_pump.specs.State.{IsAfter, want_of};
ghost use Rattle.edge_traits.specs.Links.{entry};
ghost use Rattle.channel_pump.specs.Entries.{WentBy};
ghost use Rattle.channel_pump.specs.Sessions.{IsLive, Moved, gave_at};

use crate::laws::pages_keep_the_part;
use crate::state::{Event, Pump, Want};
use edge_traits::Failed;
use edge_traits::link::Link;

impl<'a> Pump<'a> {
    /// Makes the next move on the link, of a session to the host at the address `at`, and answers what it led to. The page is that in
    /// which the frame at hand lies, and after a frame of rows these rows.
    ///
    /// What is sent and dialled leads to nothing by itself, and neither does the close, a failure or the end of the stream.
    pub fn step<L: Link>(&mut self, at: &str, page: &mut [u8; 2048], link: &mut L) -> Event
        requires going { want_of self.old ≢ Want.Closed }
        ensures moved { (catalog : Catalog) (asks : List NumberedAsk) (journal : Journal) → IsLive catalog at.now asks journal self.old page.old
            → Moved (WentBy (λ more. L.went link.old more link.new) (L.faults link.old) (L.faults link.new)) catalog at.now asks journal result self.new page.new }
        ensures fewer { moves_left self.new < moves_left self.old }
        ensures faults { L.faults link.old ≤ L.faults link.new }
    {
        match self.want() {
            Want::Dial => self.dial(at, page, link),
            Want::Send => self.send(page, link),
            Want::Take { at, most } => self.take(at, most, page, link),
            Want::Close => self.close(page, link),
            Want::Closed => unreachable!(),
        }
    }

    /// Dials the host.
    fn dial<L: Link>(&mut self, at: &str, page: &[u8; 2048], link: &mut L) -> Event
        requires wanted { want_of self.old ≡ Want.Dial }
        ensures moved { (catalog : Catalog) (asks : List NumberedAsk) (journal : Journal) → IsLive catalog at.now asks journal self.old page.now
            → next_with catalog at.now asks journal ≡ Some (channel.Dial at.now)
            → Moved (WentBy (λ more. L.went link.old more link.new) (L.faults link.old) (L.faults link.new)) catalog at.now asks journal result self.new page.now }
        ensures fewer { moves_left self.new < moves_left self.old }
        ensures faults { L.faults link.old ≤ L.faults link.new }
    {
        pages_keep_the_part();
        match link.dial(at) {
            Ok(()) => self.made(),
            Err(_) => self.failed(),
        }
        Event::Part
    }

    /// Sends the frame that is wanted.
    fn send<L: Link>(&mut self, page: &mut [u8; 2048], link: &mut L) -> Event
        requires wanted { want_of self.old ≡ Want.Send }
        ensures moved { (catalog : Catalog) (at : List ℕ) (asks : List NumberedAsk) (journal : Journal) → IsLive catalog at asks journal self.old page.old
            → Moved (WentBy (λ more. L.went link.old more link.new) (L.faults link.old) (L.faults link.new)) catalog at asks journal result self.new page.new }
        ensures fewer { moves_left self.new < moves_left self.old }
        ensures faults { L.faults link.old ≤ L.faults link.new }
    {
        pages_keep_the_part();
        let count = self.frame(page);
        let (bytes, _rest) = page.split_at(count);
        match link.send(bytes) {
            Ok(()) => self.made(),
            Err(_) => self.failed(),
        }
        Event::Part
    }

    /// Takes what is wanted, at most so many bytes, into the page at a place.
    fn take<L: Link>(
        &mut self,
        place: usize,
        most: usize,
        page: &mut [u8; 2048],
        link: &mut L,
    ) -> Event
        requires wanted { want_of self.old ≡ Want.Take place most }
        requires some { 0 < most }
        requires fits { place + most ≤ 2048 }
        ensures moved { (catalog : Catalog) (at : List ℕ) (asks : List NumberedAsk) (journal : Journal) → IsLive catalog at asks journal self.old page.old
            → next_with catalog at asks journal ≡ Some (channel.Take most)
            → Moved (WentBy (λ more. L.went link.old more link.new) (L.faults link.old) (L.faults link.new)) catalog at asks journal result self.new page.new }
        ensures fewer { moves_left self.new < moves_left self.old }
        ensures faults { L.faults link.old ≤ L.faults link.new }
    {
        pages_keep_the_part();
        match take_piece(link, page, place, most) {
            Err(_) => {
                self.failed();
                Event::Part
            }
            Ok(0) => {
                self.ended();
                Event::Part
            }
            Ok(count) => {
                let (_before, rest) = page.split_at(place);
                let (piece, _rest) = rest.split_at(count);
                are_bytes(piece);
                self.took(page, count)
            }
        }
    }

    /// Closes the stream.
    fn close<L: Link>(&mut self, page: &[u8; 2048], link: &mut L) -> Event
        requires wanted { want_of self.old ≡ Want.Close }
        ensures moved { (catalog : Catalog) (at : List ℕ) (asks : List NumberedAsk) (journal : Journal) → IsLive catalog at asks journal self.old page.now
            → next_with catalog at asks journal ≡ Some channel.Close
            → Moved (WentBy (λ more. L.went link.old more link.new) (L.faults link.old) (L.faults link.new)) catalog at asks journal result self.new page.now }
        ensures fewer { moves_left self.new < moves_left self.old }
        ensures faults { L.faults link.old ≤ L.faults link.new }
    {
        pages_keep_the_part();
        link.close();
        self.made();
        Event::Part
    }
}

/// Takes bytes from a link, at most so many, into a page at a place; answers how many came.
fn take_piece<L: Link>(
    link: &mut L,
    page: &mut [u8; 2048],
    at: usize,
    most: usize,
) -> Result<usize, Failed>
    requires some { 0 < most }
    requires fits { at + most ≤ 2048 }
    ensures went { L.went link.old (entry (channel.Take most) (gave_at at result page.new) ∷ []) link.new }
    ensures cause { HasCause (L.faults link.old) (L.faults link.new) result }
    ensures within { IfOk result (λ count. count ≤ most) }
    ensures front { take at page.new ≡ take at page.old }
{
    let (_front, rest) = page.split_at_mut(at);
    let (place, _rest) = rest.split_at_mut(most);
    link.take(place)
}

/// What lies in a slice of bytes are bytes.
fn are_bytes(bytes: &[u8])
    ensures bytes { AreBytes bytes.now }
{
    let _bytes = bytes;
}
