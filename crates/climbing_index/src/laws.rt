//! Laws of indexes.

ghost use Rattle.climbing_index.specs.Laws.{HeldIndexesAreWhole, HeldIdIndexesAreWhole, WholeIndexesAreHeldBut, SearchesFindByValues, ListsAreOfValues, ListsAreOfIdentifiers, ListsAreRead, HeldIndexesStay, ReadingsStay, DamageIsOfSlots, BrokenCodesAreDamaged, WholeIndexesHaveNoDamage};

/// Where pages hold an index of a database, each of its slots has the right record, which is in its range.
pub fn held_indexes_are_whole()
    ensures index { HeldIndexesAreWhole }
    ensures id_index { HeldIdIndexesAreWhole }
{
    ghost_model::layout::layout_is_small();
    ghost_model::layout::files_lie_as_summed();
    ghost_model::layout::files_lie_in_order();
    ghost_model::layout::levels_are_ancestors();
    ghost_model::flash::hidden_cells_fit();
    ghost_model::flash::hidden_parts_go_with_catalogs();
    ghost_model::flash::hidden_values_of_databases();
    ghost_model::flash::records_are_as_wide();
    ghost_model::flash::lists_ascend();
    ghost_model::runs::numbers_are_read();
    ghost_model::gaps::level_lists_have_codes();
    ghost_model::gaps::codes_are_read_from_pages();
    ghost_model::gaps::level_files_fit();
}

/// An index whose slots have the right records is held but for slots that are out of range: there are none.
pub fn whole_indexes_are_held_but()
    ensures but { WholeIndexesAreHeldBut }
{}

/// A search over an index that is held, but for slots that are out of range by themselves, finds by the values of the
/// column.
pub fn searches_find_by_values()
    ensures values { SearchesFindByValues }
{
    ghost_model::flash::hidden_cells_fit();
    ghost_model::layout::layout_is_small();
    ghost_model::layout::files_lie_as_summed();
    ghost_model::runs::numbers_are_read();
}

/// The lists of such an index are those of its values, and those of an id index are those of the table's identifiers.
pub fn lists_are_of_entries()
    ensures values { ListsAreOfValues }
    ensures identifiers { ListsAreOfIdentifiers }
{
    whole_indexes_are_held_but();
    ghost_model::layout::layout_is_small();
    ghost_model::layout::files_lie_as_summed();
    ghost_model::flash::hidden_cells_fit();
    ghost_model::flash::hidden_parts_go_with_catalogs();
    ghost_model::flash::records_are_as_wide();
    ghost_model::flash::lists_ascend();
    ghost_model::runs::numbers_are_read();
    ghost_model::gaps::level_lists_have_codes();
    ghost_model::gaps::lists_begin_at_codes();
    ghost_model::gaps::level_files_fit();
}

/// Reading such a list gets to each of its identifiers by right pages; by others it gets there too, or to no identifier of a row
/// any more.
pub fn lists_are_read()
    ensures read { ListsAreRead }
{
    whole_indexes_are_held_but();
    ghost_model::layout::layout_is_small();
    ghost_model::layout::files_lie_as_summed();
    ghost_model::flash::hidden_cells_fit();
    ghost_model::flash::hidden_parts_go_with_catalogs();
    ghost_model::flash::records_are_as_wide();
    ghost_model::flash::lists_ascend();
    ghost_model::runs::numbers_are_read();
    ghost_model::gaps::level_lists_have_codes();
    ghost_model::gaps::lists_begin_at_codes();
    ghost_model::gaps::level_files_fit();
}

/// What is held of an index, and where reading gets, stays while each slot has what it had.
pub fn held_indexes_stay()
    ensures stay { HeldIndexesStay }
    ensures readings { ReadingsStay }
{
    ghost_model::layout::layout_is_small();
    ghost_model::flash::lists_ascend();
    ghost_model::gaps::level_files_fit();
}

/// What a search or a list blames a slot for is damage.
pub fn damage_is_of_slots()
    ensures damaged { DamageIsOfSlots }
{
    ghost_model::layout::files_lie_as_summed();
}

/// A place that reading a list of an entry gets to, where no identifier of a row is read, is a damaged slot of its level file.
pub fn broken_codes_are_damaged()
    ensures damaged { BrokenCodesAreDamaged }
{
    ghost_model::layout::files_lie_as_summed();
}

/// Where pages have an index whole, nothing is blamed.
pub fn whole_indexes_have_no_damage()
    ensures none { WholeIndexesHaveNoDamage }
{
    whole_indexes_are_held_but();
    ghost_model::layout::layout_is_small();
    ghost_model::layout::files_lie_as_summed();
    ghost_model::flash::hidden_cells_fit();
    ghost_model::flash::hidden_parts_go_with_catalogs();
    ghost_model::flash::records_are_as_wide();
    ghost_model::flash::lists_ascend();
    ghost_model::runs::numbers_are_read();
    ghost_model::gaps::level_lists_have_codes();
    ghost_model::gaps::lists_begin_at_codes();
    ghost_model::gaps::level_files_fit();
}
