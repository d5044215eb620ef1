//! Laws of the lists of terms.

ghost use Rattle.candidate_gathering.specs.searching.Gathered.{CandidatesAreGathered};
ghost use Rattle.candidate_gathering.specs.searching.Given.{SearchesBlame};
ghost use Rattle.candidate_gathering.specs.searching.Laws.{ListsHaveTheirRows, RepliesAreLists, DamageOfListsIsOfSlots};
ghost use Rattle.candidate_gathering.specs.searching.Sets.{RightsOfSets, SetsAreReplies};

/// Over pages that have the indexes of a database but for slots that are out of range by themselves, and the rows of a reply, the
/// lists of a term have exactly the rows of the top table that meet it, and cost no more than the term.
pub fn lists_have_their_rows()
    ensures { ListsHaveTheirRows }
{
    entry_lists::laws::entries_have_their_lists();
    entry_lists::laws::replies_have_their_lists();
    condition_lists::laws::groups_ascend();
    condition_lists::laws::lists_are_of_terms();
    condition_lists::laws::lists_come_in_order();
    condition_lists::costs::lists_are_within_costs();
    condition_lists::costs::work_grows();
}

/// The rows of a reply of the top table are one list, which has exactly the rows that meet the term.
pub fn replies_are_lists()
    ensures { RepliesAreLists }
{
    condition_lists::laws::lists_are_of_terms();
}

/// Candidates that stand as a list are the rows of a reply without cells, whose lists have exactly the rows of the top table that lead to
/// one of them.
pub fn sets_are_replies()
    ensures { SetsAreReplies }
{
    lists_have_their_rows();
}

/// Lists of a set that lies where pages are right by themselves are taken by pages that are right there as they are.
pub fn rights_of_sets()
    ensures { RightsOfSets }
{}

/// What is damaged of such lists is a damaged slot of the layout.
pub fn damage_of_lists_is_of_slots()
    ensures { DamageOfListsIsOfSlots }
{
    entry_lists::laws::damage_is_of_slots();
    entry_lists::laws::damage_is_of_id_slots();
}

/// Candidates into which terms are taken one after another are the rows of the top table that meet the terms so far, and at the
/// end those that meet all.
pub fn candidates_are_gathered()
    ensures { CandidatesAreGathered }
{
    condition_lists::laws::lists_are_of_terms();
}

/// What a search blames stood in a slot of the index, as a read gave it.
pub fn searches_blame()
    ensures { SearchesBlame }
{}
