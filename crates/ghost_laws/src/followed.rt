//! Laws for loops over the rows of the top table.

ghost use Rattle.ghost_laws.specs.Followed.{AcceptedQueriesAreFollowed, RowsComeOneByOne, WithoutLeftIsFollowed};

/// The FROM tables of an accepted query are its top table and tables below it, each with its parent in FROM, and its
/// columns are theirs.
pub fn accepted_queries_are_followed()
    ensures { AcceptedQueriesAreFollowed }
{}

/// What a loop may rely on of a query it may rely on without the groups that are left.
pub fn without_left_is_followed()
    ensures { WithoutLeftIsFollowed }
{}

/// Rows by identifier, for one identifier more, are the rows so far and those of that identifier.
pub fn rows_come_one_by_one()
    ensures { RowsComeOneByOne }
{}
