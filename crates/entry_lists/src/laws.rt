//! Laws of lists of entries.

ghost use Rattle.entry_lists.specs.Laws.{EntriesHaveValueLists, EntriesHaveIdLists, ValueListsDamageSlots, IdListsDamageSlots};
ghost use Rattle.entry_lists.specs.ReplyLaws.{RepliesHaveIdLists, RepliesDamageSlots};

/// Where right pages hold an index, and the pages have it but for slots that are out of range by themselves, the lists of its
/// entries are those of its values, or of the table's identifiers.
pub fn entries_have_their_lists()
    ensures values { EntriesHaveValueLists }
    ensures identifiers { EntriesHaveIdLists }
{
    climbing_index::laws::lists_are_read();
    ghost_model::layout::layout_is_small();
    ghost_model::layout::files_lie_as_summed();
    ghost_model::layout::files_lie_in_order();
    ghost_model::layout::levels_are_ancestors();
    ghost_model::flash::lists_partition();
    ghost_model::flash::id_lists_partition();
    ghost_model::runs::numbers_are_read();
}

/// What is damaged of such lists is damage.
pub fn damage_is_of_slots()
    ensures values { ValueListsDamageSlots }
    ensures identifiers { IdListsDamageSlots }
{
    climbing_index::laws::damage_is_of_slots();
    climbing_index::laws::broken_codes_are_damaged();
}

/// Where the pages have the rows of a reply besides, its lists are those of the identifiers of its rows.
pub fn replies_have_their_lists()
    ensures identifiers { RepliesHaveIdLists }
{
    climbing_index::laws::lists_are_read();
    ghost_model::layout::layout_is_small();
    ghost_model::layout::files_lie_as_summed();
    ghost_model::layout::files_lie_in_order();
    ghost_model::layout::levels_are_ancestors();
    ghost_model::flash::id_lists_partition();
    ghost_model::runs::numbers_are_read();
}

/// What is damaged of the lists of a reply is damage.
pub fn damage_is_of_id_slots()
    ensures identifiers { RepliesDamageSlots }
{
    climbing_index::laws::damage_is_of_slots();
    climbing_index::laws::broken_codes_are_damaged();
}
