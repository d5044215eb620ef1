//! Laws of whole sessions, each of the key and its host together.

ghost use Rattle.ghost_model.specs.laws.SessionLaws.{OneLocalJournal, ThisHostIsHonest, WholeRepliesAnswer, HonestRepliesAnswer};

/// Where the host is in the key's own process, one journal is possible: two finished proper journals for the same
/// catalog, address and texts that the same holding served throughout are equal.
pub fn one_local_journal()
    ensures { OneLocalJournal }
{}

/// Where nothing broke off and the key took the beginning of what this host sends for the key's bytes, the journal is one
/// with an honest host.
pub fn this_host_is_honest()
    ensures { ThisHostIsHonest }
{}

/// From the hidden part of a database, and for each ask of an accepted text all rows of the public part that meet it,
/// follows the text's answer.
pub fn whole_replies_answer()
    ensures { WholeRepliesAnswer }
{}

/// Where the host was honest and every ask of an accepted text was ended by DONE, what its replies answer is the meaning
/// of the text.
pub fn honest_replies_answer()
    ensures { HonestRepliesAnswer }
{}
