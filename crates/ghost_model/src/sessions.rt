//! Examples of whole sessions.

ghost use Rattle.ghost_model.specs.examples.Sessions.{HonestSession, LyingSession, RefusingSession, BrokenSessions, LinesOfEndings, LinesOfAnswers, SameJournal, EmptyTable, LinesOfThreeTexts, JournalOfThreeTexts};

/// An honest host: what the replies answer is the plain meaning.
pub fn honest_session()
    ensures { HonestSession }
{}

/// A host that tells wrong rows in good form.
pub fn lying_session()
    ensures { LyingSession }
{}

/// A host that refuses the ask.
pub fn refusing_session()
    ensures { RefusingSession }
{}

/// A stream that ends within a frame, and an invalid frame.
pub fn broken_sessions()
    ensures { BrokenSessions }
{}

/// The lines of a text that is refused, and of one whose asks were broken off.
pub fn lines_of_endings()
    ensures { LinesOfEndings }
{}

/// The lines of a text that is answered, and of one whose rows the key's own fault cut.
pub fn lines_of_answers()
    ensures { LinesOfAnswers }
{}

/// One journal for two hidden parts, whose lines differ.
pub fn same_journal()
    ensures { SameJournal }
{}

/// An ask that gets no row of an empty table.
pub fn empty_table()
    ensures { EmptyTable }
{}

/// The lines of three texts, of which the flash cuts the first.
pub fn lines_of_three_texts()
    ensures { LinesOfThreeTexts }
{}

/// The journal of three texts with two asks.
pub fn journal_of_three_texts()
    ensures { JournalOfThreeTexts }
{}
