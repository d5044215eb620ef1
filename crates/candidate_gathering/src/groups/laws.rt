//! Laws of unions of a group's members.

ghost use Rattle.candidate_gathering.specs.groups.Members.{MembersAreUnited};

/// Candidates with which members are united one after another are the rows of the table that meet some of the members so far.
pub fn members_are_united()
    ensures { MembersAreUnited }
{
    condition_lists::laws::lists_are_of_terms();
}
