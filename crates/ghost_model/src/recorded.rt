//! Laws and examples of a journal's file, and of what an audit finds in it.

ghost use Rattle.ghost_model.specs.laws.RecordedLaws.{LinesHaveNoEnd, LinesTellOneMove, FilesHaveOneFinding, ProperFilesAreFound};
ghost use Rattle.ghost_model.specs.examples.Recorded.{FindingsOfTheClinic};

/// No line has an LF before its end, so a file is cut into lines in one way.
pub fn lines_have_no_end()
    ensures no_end { LinesHaveNoEnd }
{}

/// A line tells one move with one answer.
pub fn lines_tell_one_move()
    ensures one { LinesTellOneMove }
{}

/// An audit finds one thing in a file.
pub fn files_have_one_finding()
    ensures one { FilesHaveOneFinding }
{}

/// An audit finds the moves of a proper journal in the file of its lines.
pub fn proper_files_are_found()
    ensures found { ProperFilesAreFound }
{}

/// What an audit finds in the file of a session over the clinic, and in parts of it.
pub fn findings_of_the_clinic()
    ensures { FindingsOfTheClinic }
{}
