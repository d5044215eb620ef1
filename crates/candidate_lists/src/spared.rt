//! What stays where others write other areas.

ghost use Rattle.candidate_lists.specs.Given.{CandidatesStayGiven, ClosedStaysGiven, ClosingStaysGiven};
ghost use Rattle.candidate_lists.specs.Spared.{ClosedStays, ClosingSpares, ListsStay, ReduceKeeps, ScratchStays};
ghost use Rattle.candidate_lists.specs.Staying.{BesideStays, ClosedIsKept, ClosingCostsStay, ClosingHasStays, ClosingIsSmall, ClosingLeftStays, ClosingStays, DamageStays, HeldStays, JoinedStays, JoiningStays, OpenedStays, OpeningStays, ReducedStays, ScratchIsOutside, SparesRest};
ghost use Rattle.candidate_lists.specs.Regions.{BesideKeeps, JoiningKeeps, OpeningKeeps, RegionIsKept, RegionKeepsClosed, RegionStaysKept, WritingKeeps};

use id_merge::spared::cursors_are_spared;
use spill_pass::spared::merging_is_spared;

/// A law: candidates that stand as a list stay where nobody writes their area, so while lists are merged into one; and a source that
/// waits stays where candidates are written. The areas are there for as long as the device has as many pages, and for fewer rows and
/// lists too.
pub fn spared()
    ensures closed { ClosedStays }
    ensures lists { ListsStay }
    ensures given { ClosedStaysGiven }
    ensures reduce { ReduceKeeps }
    ensures closing { ClosingSpares }
    ensures scratch { ScratchStays }
{}

/// A law: where others write only pages of a region that the candidates lie outside of, and use other buffers, the lists in hand may
/// still be read and opened, the candidates may still be written, and what was written has what it had. As much is left to do. No
/// slot is damaged of the lists that was not before.
pub fn candidates_are_spared()
    ensures rest { SparesRest }
    ensures held { HeldStays }
    ensures given { CandidatesStayGiven }
    ensures damage { DamageStays }
    ensures opening { OpeningStays }
    ensures opened { OpenedStays }
    ensures closing { ClosingStays }
    ensures closing_given { ClosingStaysGiven }
    ensures closing_has { ClosingHasStays }
    ensures closing_left { ClosingLeftStays }
    ensures closing_costs { ClosingCostsStay }
    ensures closing_small { ClosingIsSmall }
    ensures closed { ClosedIsKept }
    ensures beside { BesideStays }
    ensures reduced { ReducedStays }
    ensures joining { JoiningStays }
    ensures joined { JoinedStays }
    ensures scratch { ScratchIsOutside }
{
    cursors_are_spared();
    merging_is_spared();
}

/// A law: a region of pages stays as it was where candidates are written, lists opened and lists merged beside candidates, and none of
/// the areas shares a page with it. Candidates that stand there as a list stay.
pub fn regions_are_kept()
    ensures same { RegionIsKept }
    ensures stays { RegionStaysKept }
    ensures writing { WritingKeeps }
    ensures opening { OpeningKeeps }
    ensures beside { BesideKeeps }
    ensures joining { JoiningKeeps }
    ensures closed { RegionKeepsClosed }
{}
