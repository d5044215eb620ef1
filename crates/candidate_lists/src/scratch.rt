//! The areas that a text's candidates and lists are written into.

ghost use Rattle.std.specs.Prelude.{◌≡◌};
ghost use Rattle.candidate_lists.specs.Given.{MayBeFewer, MayExchange, MayGroup, MayTurn};
ghost use Rattle.candidate_lists.specs.Groups.{GivesBack, GroupedIsOutside, HasGrouped, HasGroupTurned};
ghost use Rattle.candidate_lists.specs.Outside.{TurnedIsOutside};
ghost use Rattle.candidate_lists.specs.Scratch.{HasTurned, TurnsAgain, areas_of, exchanged, grouped, turned};

use spill_pass::Areas;

/// The first pages of the scratch areas, each the first of a block.
#[derive(Clone, Copy)]
pub struct Scratch {
    /// The area for candidates: where they stand as a list after they were written.
    pub candidates: u32,
    /// An area that is not written: other candidates may stand there as a list.
    pub spare: u32,
    /// The area for groups, which is not written either: the union of a group stands there as a list, or the candidates before while a
    /// group is gathered.
    pub group: u32,
    /// The first area for lists, in which the union of many lists stands at last.
    pub lists: u32,
    /// The second area for lists. Candidates are written into it next: nothing in hand lies there then.
    pub other_lists: u32,
    /// The first area for places of lists.
    pub places: u32,
    /// The second area for places of lists.
    pub other_places: u32,
}

impl Scratch {
    /// The areas in which the lists of a source are merged into one.
    pub fn areas(&self) -> Areas
        ensures areas { result ≡ areas_of self.now }
    {
        Areas {
            to: self.lists,
            lists: self.lists,
            other_lists: self.other_lists,
            places: self.places,
            other_places: self.other_places,
        }
    }

    /// The areas after candidates were written: where they stand now is the area for candidates, and the one for candidates before is
    /// the second area for lists.
    pub fn turned(self) -> Scratch
        ensures turned { result ≡ turned self }
    {
        Scratch {
            candidates: self.other_lists,
            spare: self.spare,
            group: self.group,
            lists: self.lists,
            other_lists: self.candidates,
            places: self.places,
            other_places: self.other_places,
        }
    }

    /// The areas for other candidates: these may stand in the area that was not written, and the area for candidates is not written.
    pub fn exchanged(self) -> Scratch
        ensures exchanged { result ≡ exchanged self }
    {
        Scratch {
            candidates: self.spare,
            spare: self.candidates,
            group: self.group,
            lists: self.lists,
            other_lists: self.other_lists,
            places: self.places,
            other_places: self.other_places,
        }
    }

    /// The areas for a group's candidates: where those before stand as a list is the area for groups, which is not written, and the area
    /// for groups is the one for candidates. Once the union of the group stands there as a list, the same gives the areas back for the
    /// candidates before: the union's list is in the area for groups then, where nothing is written.
    pub fn grouped(self) -> Scratch
        ensures grouped { result ≡ grouped self }
    {
        Scratch {
            candidates: self.group,
            spare: self.spare,
            group: self.candidates,
            lists: self.lists,
            other_lists: self.other_lists,
            places: self.places,
            other_places: self.other_places,
        }
    }
}

/// A law: the areas are there, and lie outside of a region, after candidates were written too, however often. A run in one of them may be
/// blamed as before, also where the areas for other candidates or for a group's are taken, and for fewer rows and lists.
pub fn turned_areas()
    ensures has { HasTurned }
    ensures outside { TurnedIsOutside }
    ensures again { TurnsAgain }
    ensures may { MayTurn }
    ensures exchanged { MayExchange }
    ensures grouped { MayGroup }
    ensures fewer { MayBeFewer }
{}

/// A law: where the device has the area for groups too, it has the areas for a group's candidates, as it has those before. They lie outside
/// of a region that those before and the area for groups lie outside of. After the group's candidates were written, however often, the areas
/// that are given back are those before, but that the area for groups may be exchanged for the second one for lists.
pub fn grouped_areas()
    ensures has { HasGrouped }
    ensures turned { HasGroupTurned }
    ensures outside { GroupedIsOutside }
    ensures back { GivesBack }
{}
