//! Laws of subtree key tables.

ghost use Rattle.subtree_keys.specs.Laws.{TablesGiveRows, HeldTablesAreHeldBut, TablesAreRightButForDamage, TablesAreOfSlots, DamageIsOfSlots};

/// Where pages hold the subtree key tables of a database, the slot of each row has the rows that it leads to.
pub fn tables_give_rows()
    ensures rows { TablesGiveRows }
{
    ghost_model::layout::layout_is_small();
    ghost_model::layout::levels_are_ancestors();
    ghost_model::meaning::rows_lead_to_rows();
    ghost_model::flash::rows_lead_by_hidden_values();
    ghost_model::flash::records_are_as_wide();
    ghost_model::runs::numbers_are_read();
}

/// Pages that hold all subtree key tables hold each of them but for slots that are out of range: there are none.
pub fn held_tables_are_held_but()
    ensures but { HeldTablesAreHeldBut }
{}

/// Where pages hold the subtree key table of a table but for slots that are out of range by themselves, a slot that has rows
/// has those that its row leads to.
pub fn tables_are_right_but_for_damage()
    ensures right { TablesAreRightButForDamage }
{
    ghost_model::layout::layout_is_small();
    ghost_model::layout::levels_are_ancestors();
    ghost_model::meaning::rows_lead_to_rows();
    ghost_model::flash::rows_lead_by_hidden_values();
    ghost_model::flash::records_are_as_wide();
    ghost_model::runs::numbers_are_read();
}

/// The slot of a table is that of the layout.
pub fn tables_are_of_slots()
    ensures same { TablesAreOfSlots }
{}

/// A slot that has no rows is damaged.
pub fn damage_is_of_slots()
    ensures damaged { DamageIsOfSlots }
{}
