//! Laws of sessions with an honest host that holds the public part of a database, over any link.

ghost use Rattle.session_laws.specs.HonestSessions.{HonestSessionsAreSmooth, HonestAsksAreDone, HonestLinesArePrinted, HonestAsksAreRepliedWhole, HonestTextsAreRepliedWhole};

/// No frame that comes from an honest host is invalid, and it refuses no ask.
pub fn honest_sessions_are_smooth()
    ensures { HonestSessionsAreSmooth }
{}

/// Once the session is finished, every ask of an accepted text was ended by DONE.
pub fn honest_asks_are_done()
    ensures { HonestAsksAreDone }
{}

/// Then the lines that the session may give, where the key's own flash is sound, are those that the texts print over the
/// database.
pub fn honest_lines_are_printed()
    ensures { HonestLinesArePrinted }
{}

/// The asks that were ended by any point of the session are the first ones, each with its whole reply; so a text all of whose
/// asks were ended has whole replies.
pub fn honest_replies_are_whole()
    ensures asks { HonestAsksAreRepliedWhole }
    ensures texts { HonestTextsAreRepliedWhole }
{}
