//! The union of many lists, merged into one.

ghost use Rattle.candidate_lists.specs.Reduced.{ReducedHas, ReducedIsOrdered};

/// A law: the one list that passes over lists leave, from page `low` on, ascends, and has exactly the identifiers of the lists. So
/// `Candidates::take_list` takes their union in.
pub fn reduced()
    ensures ordered { ReducedIsOrdered }
    ensures has { ReducedHas }
{}
