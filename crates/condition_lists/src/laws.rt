//! Laws of terms.

ghost use Rattle.condition_lists.specs.Laws.{BoundsAreOfValues, EachTermIsOfTheQuery, EachTableTermIsOfTheQuery, TableTermsAreTermsBy, TermsAreLone, TermsAreThoseOfQueries, TermsSiftRows, AllAreUnited, RowsOutsideRepliesAreNoAnswers, RowsOutsideSetsAreNoAnswers, ListsAreOfTerms, ListsComeInOrder, GroupsAscend};

/// Cells lie between bounds of their kind as their values do, and identifiers as the numbers that they are.
pub fn bounds_are_of_values()
    ensures { BoundsAreOfValues }
{
    ghost_base::laws::cell_order_is_value_order();
}

/// Each term of a query is that of one of its groups whose rows the indexes have, or that of the reply of a FROM table with visible
/// groups.
pub fn each_term_is_of_the_query()
    ensures { EachTermIsOfTheQuery }
{}

/// Each term at a FROM table with visible groups is that of such a group of the query, or that of the table's reply.
pub fn each_table_term_is_of_the_query()
    ensures { EachTableTermIsOfTheQuery }
{}

/// The terms at a FROM table with visible groups are those of an accepted query over that table, where no form unites
/// other replies.
pub fn table_terms_are_terms_by()
    ensures { TableTermsAreTermsBy }
{
    ghost_model::query::one_reading();
    ghost_model::layout::levels_are_ancestors();
    ghost_laws::followed::accepted_queries_are_followed();
}

/// No term of a query says that the next one is of its group, as long as no group of several is a term. So each is a group by itself.
pub fn terms_are_lone()
    ensures { TermsAreLone }
{}

/// A row of the top table meets all terms of an accepted query exactly where all groups whose rows the indexes have hold along it, and
/// it stands along each table with visible groups whose reply is united.
pub fn terms_are_those_of_queries()
    ensures { TermsAreThoseOfQueries }
{
    ghost_model::query::one_reading();
    ghost_model::meaning::rows_lead_to_rows();
    ghost_model::flash::hidden_values_of_databases();
    ghost_model::layout::levels_are_ancestors();
    ghost_laws::followed::accepted_queries_are_followed();
}

/// Along a row of the top table that meets all terms all groups hold whose rows the indexes have, and one that does not meet them has no
/// line in what the key answers, whether or not it meets the groups that are left.
pub fn terms_sift_rows()
    ensures { TermsSiftRows }
{
    terms_are_those_of_queries();
}

/// Where the reply of each table with visible groups is united, the terms of replies are of all these tables. It is
/// where the form of united lists is forced.
pub fn all_are_united()
    ensures { AllAreUnited }
{}

/// A row of the top table that leads to no row of a table's reply has no line in what the key answers.
pub fn rows_outside_replies_are_no_answers()
    ensures { RowsOutsideRepliesAreNoAnswers }
{}

/// A row of the top table that leads to no row of a FROM table which meets all terms at it has no line in what the key answers.
pub fn rows_outside_sets_are_no_answers()
    ensures { RowsOutsideSetsAreNoAnswers }
{
    ghost_model::query::one_reading();
    ghost_model::meaning::rows_lead_to_rows();
    ghost_model::flash::hidden_values_of_databases();
    ghost_model::layout::levels_are_ancestors();
    ghost_laws::followed::accepted_queries_are_followed();
}

/// The second of the groups that searches find by the bounds of an operator and a literal begins behind the first.
pub fn groups_ascend()
    ensures { GroupsAscend }
{
    bounds_are_of_values();
    ghost_base::laws::cell_order_is_value_order();
    ghost_model::flash::hidden_cells_of_databases();
}

/// The lists of a term have exactly the rows of the top table that meet it.
pub fn lists_are_of_terms()
    ensures { ListsAreOfTerms }
{
    bounds_are_of_values();
    ghost_model::meaning::rows_lead_to_rows();
    ghost_model::flash::rows_lead_by_hidden_values();
    ghost_model::flash::hidden_cells_of_databases();
    ghost_model::layout::levels_are_ancestors();
}

/// The lists of entries one after another have what the lists of these entries have.
pub fn lists_come_in_order()
    ensures { ListsComeInOrder }
{}
