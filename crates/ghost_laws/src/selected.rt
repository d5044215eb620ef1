//! Laws of the values in the rows of an answer, and of the length of their lines.

ghost use Rattle.ghost_laws.specs.Selected.{AnswersHaveSelected, KnownAnswersHaveSelected, RepliesAreWhole, LinesAreShort};

/// Each row of an accepted query's answer has one value for each selected column, of its kind.
pub fn answers_have_selected()
    ensures { AnswersHaveSelected }
{}

/// So has what the key answers by one reply to each ask, whatever values their cells spell.
pub fn known_answers_have_selected()
    ensures { KnownAnswersHaveSelected }
{}

/// The replies to a text whose asks were all ended by DONE are one for each ask, in order, and their rows have one value for each
/// asked column, of its kind, whatever host sent them.
pub fn replies_are_whole()
    ensures { RepliesAreWhole }
{}

/// The line of a row with one value for each selected column has at most 2,082 bytes.
pub fn lines_are_short()
    ensures { LinesAreShort }
{}
