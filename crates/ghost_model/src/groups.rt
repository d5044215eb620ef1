//! Examples of groups.

ghost use Rattle.ghost_model.specs.examples.Groups.{AsksOfGroups, GroupsOfLists, TruthOfGroups};

/// The groups of some lists, and which of them pass.
pub fn groups_of_lists()
    ensures { GroupsOfLists }
{}

/// Which rows of the clinic and of notes with NULL meet groups of conditions.
pub fn truth_of_groups()
    ensures { TruthOfGroups }
{}

/// What is asked for texts with groups.
pub fn asks_of_groups()
    ensures { AsksOfGroups }
{}
