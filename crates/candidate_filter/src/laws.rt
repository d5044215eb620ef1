//! Laws of the pass of a filter.

ghost use Rattle.candidate_filter.specs.Laws.{RepliedRowsPass, ListedRowsPass, LedCandidatesPass, PassingListsOpen, ClosedListsAscend, ClosedListsHave, ClosedListsLieOutside, ClosedRowsPass, FillingStays, FillsStay, FillingStaysGiven, SiftingStays, SiftingHasStays, SiftingStaysGiven, SiftingLeftStays, SiftingKeeps, SiftingIsSmall};

use bloom_post::laws::filters_stay;
use id_merge::spared::cursors_are_spared;
use spill_pass::spared::merging_is_spared;

/// A law: each row of a reply passes the filter that stands for it, and so does each candidate that leads to one.
pub fn replied_rows_pass()
    ensures pass { RepliedRowsPass }
    ensures listed { ListedRowsPass }
    ensures candidates { LedCandidatesPass }
{}

/// A law: a sifted list that is opened again has as candidates exactly those that pass.
pub fn passing_lists_open()
    ensures opened { PassingListsOpen }
{}

/// A law: candidates that stand as a list may fill a filter: the list's identifiers ascend, from 1 to the rows, and are exactly those
/// that the candidates' merge had to give, and a filter that stands for them may have each of these. It lies outside of a region of
/// pages where the candidates do.
pub fn closed_lists_fill()
    ensures ascend { ClosedListsAscend }
    ensures have { ClosedListsHave }
    ensures outside { ClosedListsLieOutside }
    ensures pass { ClosedRowsPass }
{}

/// A law: where others write only pages of a region in which no page of the list lies, and use other buffers, the filter may still be
/// filled, and stands for what it stood for; its buffer still has what a read gave.
pub fn filling_is_spared()
    ensures filling { FillingStays }
    ensures fills { FillsStay }
    ensures given { FillingStaysGiven }
{
    filters_stay();
}

/// A law: where others write only pages of a region in which no page of the lists, of the area and of the table lies, and use other
/// buffers, the candidates may still be sifted, their list has what it had, the buffers have what reads gave, and as much is left to do,
/// no more than the pages that a device may have. A step leaves a region as it was that shares no page with the area.
pub fn sifting_is_spared()
    ensures sifting { SiftingStays }
    ensures has { SiftingHasStays }
    ensures given { SiftingStaysGiven }
    ensures left { SiftingLeftStays }
    ensures keeps { SiftingKeeps }
    ensures small { SiftingIsSmall }
{
    cursors_are_spared();
    merging_is_spared();
}
