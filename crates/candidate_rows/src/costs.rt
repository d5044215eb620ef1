//! Laws of what rows cost, where the replies are those of an honest host.

ghost use Rattle.candidate_rows.specs.CostLaws.{RowsCostTheirWork, RowsThatMeetAllAreAnswers, HonestAnswersAreWhole};

use ghost_laws::followed::{accepted_queries_are_followed, without_left_is_followed};
use ghost_laws::scans::followed_answers_follow_keys;
use ghost_model::meaning::rows_lead_to_rows;
use ghost_model::query::one_reading;
use spj_parse::laws::joins_count_once;

/// By a plan of candidates a row takes less calls of the flash than the work of a row counts.
pub fn rows_cost_their_work()
    ensures row { RowsCostTheirWork }
{
    one_reading();
    accepted_queries_are_followed();
}

/// A row of the top table is one of the answer, but for the groups that are left, where it meets all groups that the indexes have the
/// rows of, and stands in the replies of all tables with a visible group.
pub fn rows_that_meet_all_are_answers()
    ensures answers { RowsThatMeetAllAreAnswers }
{
    one_reading();
    accepted_queries_are_followed();
    rows_lead_to_rows();
}

/// What the key answers by such replies, but for the groups that are left, is the answer of the query without these.
pub fn honest_answers_are_whole()
    ensures answers { HonestAnswersAreWhole }
{
    one_reading();
    accepted_queries_are_followed();
    without_left_is_followed();
    followed_answers_follow_keys();
    rows_lead_to_rows();
    joins_count_once();
}
