//! The groups of a query's members.

ghost use Rattle.std.specs.List.{list_all};
ghost use Rattle.std.specs.Prelude.{not, ◌≡◌, ◌<◌, ◌≤◌, ◌∷◌, ◌++◌, [], IfNone, IfSome, length, map};
ghost use Rattle.ghost_model.specs.core.Query as queries;
ghost use Rattle.ghost_model.specs.refusals.QueryMeaning.{is_of_one_table};
ghost use Rattle.spj_parse.specs.Views.{grouped, is_of_table, member_of, others_after};

use crate::query::Member;

/// The first group of some members, and the members behind it.
#[derive(Clone, Copy)]
pub struct GroupSplit<'a> {
    /// The first member of the group.
    pub first: &'a Member,

    /// The others of the group.
    pub others: &'a [Member],

    /// The members behind the group.
    pub later: &'a [Member],
}

/// How many members are of a group whose first member stands before them.
fn others_after(first: &Member, behind: &[Member]) -> usize
    ensures count { result ≡ others_after first.now.more behind.now }
    ensures few { result ≤ length behind.now }
{
    let mut more = first.more;
    for (place, member) in behind.iter().enumerate() {
        if !more {
            return place;
        }
        more = member.more;
    }
    behind.len()
}

/// The first group of some members, and the members behind it; of no members there is none.
pub fn split_group(members: &[Member]) -> Option<GroupSplit<'_>>
    ensures none { IfNone result (members.now ≡ []) }
    ensures some { IfSome result (λ split. grouped (map member_of members.now) ≡ queries.OneOf (member_of split.first.now).member (map (λ one. (member_of one).member) split.others.now) ∷ grouped (map member_of split.later.now)) }
    ensures all { IfSome result (λ split. members.now ≡ split.first.now ∷ (split.others.now ++ split.later.now)) }
    ensures less { IfSome result (λ split. length split.later.now < length members.now) }
{
    let Some((first, behind)) = members.split_first() else {
        return None;
    };
    let (others, later) = behind.split_at(others_after(first, behind));
    Some(GroupSplit {
        first,
        others,
        later,
    })
}

/// Whether the columns of some members are all of a table.
fn are_of_table(table: u8, members: &[Member]) -> bool
    ensures same { result ≡ list_all (is_of_table table) members.now }
{
    for member in members {
        if member.field.table != table {
            return false;
        }
    }
    true
}

/// Whether the columns of a group are of one table.
fn is_of_one_table(first: &Member, others: &[Member]) -> bool
    ensures same { result ≡ is_of_one_table (queries.OneOf (member_of first.now).member (map (λ one. (member_of one).member) others.now)) }
{
    are_of_table(first.field.table, others)
}

/// Whether a group among these members has columns of several tables.
pub(crate) fn are_mixed(members: &[Member]) -> bool
    ensures mixed { result ≡ not (list_all is_of_one_table (grouped (map member_of members.now))) }
{
    let mut left = members;
    while let Some(split) = split_group(left) {
        if !is_of_one_table(split.first, split.others) {
            return true;
        }
        left = split.later;
    }
    false
}
