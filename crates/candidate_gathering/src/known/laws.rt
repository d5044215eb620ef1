//! Laws of what is known of the pages.

ghost use Rattle.candidate_gathering.specs.known.Laws.{HeldFilesAreKnown, HeldFilesHaveNoDamage, KnowledgeStays, DamageIsBad, ListsAreRead, BlamedAreFound, BadSlotsAreRead, RunsMay, RepliesHaveNoDamage, RowsWithoutLinesAreLeftOut, CandidatesAreSifted};

/// Pages that hold all files of a database are right pages, and known by themselves.
pub fn held_files_are_known()
    ensures known { HeldFilesAreKnown }
{
    climbing_index::laws::held_indexes_are_whole();
    climbing_index::laws::whole_indexes_are_held_but();
    subtree_keys::laws::held_tables_are_held_but();
    subtree_keys::laws::tables_are_right_but_for_damage();
}

/// None of their slots is damaged.
pub fn held_files_have_no_damage()
    ensures none { HeldFilesHaveNoDamage }
{
    held_files_are_known();
    hidden_columns::laws::columns_give_values();
    subtree_keys::laws::tables_give_rows();
    climbing_index::laws::whole_indexes_have_no_damage();
    ghost_model::layout::layout_is_small();
    ghost_model::flash::hidden_cells_fit();
    ghost_model::flash::hidden_parts_go_with_catalogs();
    ghost_model::flash::records_are_as_wide();
    ghost_model::flash::lists_ascend();
    ghost_model::gaps::level_files_fit();
    ghost_model::runs::numbers_are_read();
}

/// What is known stays known, and bad slots stay bad, where the static pages are as they were.
pub fn knowledge_stays()
    ensures { KnowledgeStays }
{
    ghost_model::layout::files_lie_as_summed();
    ghost_model::layout::files_lie_in_order();
    ghost_model::layout::layout_is_small();
    ghost_model::layout::records_stand_within();
    ghost_model::flash::holdings_are_kept();
    climbing_index::laws::held_indexes_stay();
}

/// What searches, lists and reads of rows can blame is bad: a slot of a file that is read for the query, and pages that hold all files
/// have no such slot.
pub fn damage_is_bad()
    ensures { DamageIsBad }
{
    held_files_have_no_damage();
    ghost_model::layout::files_lie_as_summed();
    climbing_index::laws::broken_codes_are_damaged();
    hidden_columns::laws::files_are_of_columns();
    subtree_keys::laws::tables_are_of_slots();
}

/// What is bad of the lists at the top table is bad for the query, and where cross forms may be taken, so is what is bad of the lists at
/// a table below it with visible groups.
pub fn lists_are_read()
    ensures { ListsAreRead }
{}

/// What is blamed of runs that may be was found in a slot of a file that the query reads by its plan, or, where pages are not told, of a
/// reply or of scratch.
pub fn blamed_slots_are_found()
    ensures found { BlamedAreFound }
{}

/// Where pages are told, a slot that was found so and is bad for some plan is bad for this one.
pub fn bad_slots_are_read()
    ensures read { BadSlotsAreRead }
{
    ghost_model::layout::files_lie_as_summed();
    ghost_model::layout::files_lie_in_order();
    ghost_model::layout::layout_is_small();
    ghost_model::layout::records_stand_within();
}

/// A slot may be blamed of each run that is read for the terms of a query, by the forms that its plan may take, and for those of a set.
pub fn runs_may_be_blamed()
    ensures { RunsMay }
{
    ghost_model::layout::files_lie_in_order();
    ghost_model::layout::levels_are_ancestors();
}

/// Where the pages have the rows of a reply, none of its records is without an identifier of the table's rows.
pub fn replies_have_no_damage()
    ensures none { RepliesHaveNoDamage }
{}

/// Rows of the top table without a line are left out of the answer.
pub fn rows_without_lines_are_left_out()
    ensures left_out { RowsWithoutLinesAreLeftOut }
{}

/// A row along which the groups hold whose rows the indexes have meets those that a plan for candidates does not test, and the plan's
/// subtree key table is known.
pub fn candidates_are_sifted()
    ensures { CandidatesAreSifted }
{}
