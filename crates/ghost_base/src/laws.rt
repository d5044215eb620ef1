//! The laws of cells and of the order of values.

ghost use Rattle.ghost_base.specs.CellLaws.{CellsSpellOneValue, CellOrderIsValueOrder, ValuesAreOrdered};

/// A cell spells the one value that it was made of, and bytes that spell a value are its cell.
pub fn cells_spell_one_value()
    ensures { CellsSpellOneValue }
{}

/// The byte order of two cells of one kind is the order of their values.
pub fn cell_order_is_value_order()
    ensures { CellOrderIsValueOrder }
{}

/// The order of values is a total order, and tells any two different values apart.
pub fn values_are_ordered()
    ensures { ValuesAreOrdered }
{}
