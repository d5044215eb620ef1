//! Laws of lists of candidates that stand.

ghost use Rattle.candidate_gathering.specs.cross_forms.Laws.{StandingListsLieInScratch};

/// Candidates that stand as a list lie in scratch, outside of what lies before it and behind it.
pub fn standing_lists_lie_in_scratch()
    ensures lies { StandingListsLieInScratch }
{}
