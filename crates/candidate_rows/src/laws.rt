//! Laws of the work on rows.

ghost use Rattle.candidate_rows.specs.Laws.{TestsAreThoseOfAnswers, RowsSiftedOutAreNoAnswers, RowsThatStandNotAreNoAnswers, LeftGroupsAddNoRows, WholeRepliesAreOfAsked, WholeRepliesAreAll, WholeRepliesAreToAsks, RecordsAreWanted, FewStepsAreLeft, WorkStaysReady, WorkStillStands};

use visible_spool::laws::{searches_are_short, spared_halves_stay};

/// A row of the top table is in the answer, with the selected values, exactly where it meets all tests of a plan and the groups that
/// are left; for a plan that has no tests of the conditions that the indexes have the rows of, a row that meets these.
pub fn tests_are_those_of_answers()
    ensures same { TestsAreThoseOfAnswers }
{
    ghost_model::query::one_reading();
    ghost_model::meaning::rows_lead_to_rows();
    ghost_laws::followed::accepted_queries_are_followed();
}

/// A row of the top table along which a condition that the indexes have the rows of does not hold, or that does not stand along some
/// table of FROM, is not in the answer, whether or not it meets the groups that are left.
pub fn rows_sifted_out_are_no_answers()
    ensures conditions { RowsSiftedOutAreNoAnswers }
    ensures stands { RowsThatStandNotAreNoAnswers }
    ensures left { LeftGroupsAddNoRows }
{}

/// One reply to each ask of a query is about asked tables alone.
pub fn whole_replies_are_of_asked()
    ensures asked { WholeRepliesAreOfAsked }
{}

/// There is one for each asked table of FROM, and it is a reply to the ask for that table.
pub fn whole_replies_are_all()
    ensures all { WholeRepliesAreAll }
    ensures asks { WholeRepliesAreToAsks }
{}

/// A plan of candidates has the subtree key table of the top table only where a column of another table is selected, or a visible one
/// stands in a group, or any in a group that is left.
pub fn records_are_wanted()
    ensures wanted { RecordsAreWanted }
{}

/// The work on a row goes on for 28,000,116 steps at most.
pub fn few_steps_are_left()
    ensures few { FewStepsAreLeft }
{
    searches_are_short();
}

/// The work on a row goes on as before, and stands for the same, where the static pages and the half of its replies are spared.
pub fn work_is_spared()
    ensures ready { WorkStaysReady }
    ensures stands { WorkStillStands }
{
    spared_halves_stay();
}
