//! What holds of any file that is audited.

ghost use Rattle.channel_audit.specs.Laws.{EachFileHasAFinding, LinesArePassed};

/// Whatever a file holds, an audit finds something in it: it is proper, or its first bad line tells a wrong move or none.
pub fn each_file_has_a_finding()
    ensures each { EachFileHasAFinding }
{}

/// What each kind of line does to an audit that stands in a file behind the lines of proper moves.
pub fn lines_are_passed()
    ensures passed { LinesArePassed }
{}
