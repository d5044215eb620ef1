//! What a query with each of its joins once has in common with the query that its text means.

ghost use Rattle.spj_parse.specs.Laws.{JoinsCountOnce};

/// A query with each of its joins once has the top table, the asks and the answer of the query that its
/// text means, and the answer of that one without its groups that are left.
pub fn joins_count_once()
    ensures { JoinsCountOnce }
{
    ghost_base::laws::values_are_ordered();
    ghost_model::query::one_reading();
}
