//! Laws of what terms cost.

ghost use Rattle.condition_lists.specs.CostLaws.{WorkGrows, UnionsPay, ListsAreWithinCosts, RowsAreCounted, WorkCountsJoinsOnce, TermsCostTheirWork};

/// More lists, or more identifiers in them, are no less work.
pub fn work_grows()
    ensures { WorkGrows }
{
    ghost_model::query_work::bits_are_least();
}

/// The work of a union is enough for what is read and written of the one list beside its reduction.
pub fn unions_pay()
    ensures { UnionsPay }
{}

/// The lists of a term are as many as its cost counts, with as many identifiers.
pub fn lists_are_within_costs()
    ensures { ListsAreWithinCosts }
{
    crate::laws::lists_are_of_terms();
    crate::laws::bounds_are_of_values();
    ghost_model::meaning::rows_lead_to_rows();
    ghost_model::flash::rows_lead_by_hidden_values();
    ghost_model::flash::hidden_cells_of_databases();
    ghost_model::layout::levels_are_ancestors();
}

/// Rows that meet a term are at most as many as its cost counts.
pub fn rows_are_counted()
    ensures { RowsAreCounted }
{}

/// A query takes the same work with each of its joins once.
pub fn work_counts_joins_once()
    ensures { WorkCountsJoinsOnce }
{
    spj_parse::laws::joins_count_once();
}

/// The terms of an accepted query cost at most the work of its conditions and of its replies.
pub fn terms_cost_their_work()
    ensures { TermsCostTheirWork }
{
    work_grows();
    ghost_model::meaning::rows_lead_to_rows();
    ghost_model::layout::levels_are_ancestors();
    ghost_model::query::one_reading();
    ghost_laws::followed::accepted_queries_are_followed();
}
