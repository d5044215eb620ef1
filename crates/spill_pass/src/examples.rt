//! Examples of what passes leave, and of what they cost.

ghost use Rattle.spill_pass.specs.Examples.{CallsOfPasses, SpillOfThreeLists};

/// Examples: what two passes over three lists leave on pages.
pub fn spill_of_three_lists()
    ensures { SpillOfThreeLists }
{}

/// Examples: how many calls of the flash a pass makes at most.
pub fn calls_of_passes()
    ensures { CallsOfPasses }
{}
