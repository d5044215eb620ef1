//! The laws of lists by ranks.

ghost use Rattle.index_lists.specs.Laws.{ValueListsByRanks, IdListsByRanks, LevelsCompose, ListsStandBetween, RowsLeadToThemselves, RowsLeadByKeys, LeadsGoOn, KeyOrdersAreLists, HeadsShowFronts};

use ghost_base::laws::cell_order_is_value_order;

/// The ranks of a column's rows, taken to a level, make the lists of the column's values there.
pub fn value_lists_by_ranks()
    ensures { ValueListsByRanks }
{}

/// The places of the rows themselves make the lists of an id index.
pub fn id_lists_by_ranks()
    ensures { IdListsByRanks }
{}

/// What is taken up two levels is what is taken up by the two at once.
pub fn levels_compose()
    ensures { LevelsCompose }
{}

/// The list of an entry stands between its start and the next one's.
pub fn lists_stand_between()
    ensures { ListsStandBetween }
{}

/// Each row leads to itself.
pub fn rows_lead_to_themselves()
    ensures { RowsLeadToThemselves }
{}

/// The foreign keys of a table are identifiers of rows, to which its rows lead.
pub fn rows_lead_by_keys()
    ensures { RowsLeadByKeys }
{}

/// Rows lead where those lead to which they lead.
pub fn leads_go_on()
    ensures { LeadsGoOn }
{}

/// Rows that stand in the order of their foreign keys are the lists of the rows that these name, one after another.
pub fn key_orders_are_lists()
    ensures { KeyOrdersAreLists }
{
    cell_order_is_value_order();
}

/// Cells with one head begin with the same eight bytes.
pub fn heads_show_fronts()
    ensures { HeadsShowFronts }
{}
