//! Laws of answers found along the foreign keys.

ghost use Rattle.ghost_laws.specs.Scans.{AnswersFollowKeys, FollowedAnswersFollowKeys, FollowedKnownAnswersFollowKeys, KnownAnswersFollowKeys};
ghost use Rattle.ghost_laws.specs.examples.Scans.{ClinicAlongKeys};

/// The answer of an accepted query is found along the foreign keys, row by row of its top table.
pub fn answers_follow_keys()
    ensures { AnswersFollowKeys }
{}

/// So is what the key answers by the replies, whatever they are.
pub fn known_answers_follow_keys()
    ensures { KnownAnswersFollowKeys }
{}

/// So is the answer of any query that is followed as an accepted one is.
pub fn followed_answers_follow_keys()
    ensures { FollowedAnswersFollowKeys }
{}

/// So is what the key answers by the replies to it.
pub fn followed_known_answers_follow_keys()
    ensures { FollowedKnownAnswersFollowKeys }
{}

/// The clinic's visits with their doctors, found both ways.
pub fn clinic_along_keys()
    ensures { ClinicAlongKeys }
{}
