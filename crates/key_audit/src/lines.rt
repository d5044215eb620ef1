//! The lines of a file.

ghost use Rattle.std.specs.Prelude.{◌≡◌, ℕ, ◌+◌, ◌≤◌, ◌^◌, List, true, length, IfOk, is_ok};
ghost use Rattle.ghost_model.specs.core.Causes.{HasCause};
ghost use Rattle.key_audit.specs.Parts.{TakesPart, ReadsFront};
ghost use Rattle.key_audit.specs.Windows.{ahead, StandsBehind};

use crate::window::Window;
use arrayvec::ArrayVec;
use channel_audit::line::MAX_LINE;
use channel_audit::words::cut;
use edge_traits::Failed;
use edge_traits::depot::Depot;

/// The bytes of a line, its LF not counted.
pub(crate) type LineBytes = ArrayVec<u8, MAX_LINE>;

/// What stands behind the bytes of a file that were passed.
#[derive(Clone, Copy)]
pub(crate) enum Front {
    /// A line, which was passed with its LF.
    Line,
    /// The end of the file.
    End,
    /// Some bytes, and no LF within 4,201 of them.
    NoLine,
}

/// What comes of a part of a line.
#[derive(Clone, Copy)]
enum Part {
    /// Its LF was passed.
    Ended,
    /// There is no LF in what was read.
    More,
    /// There is more of it than a line may have.
    TooLong,
}

/// Puts what is ahead of a line at the end of what was read of it, up to its LF.
fn take_part(window: &mut Window, line: &mut LineBytes) -> Part
    requires near { window.old.passed + 65_536 ≤ 2 ^ 33 }
    ensures part { TakesPart result line.old.items (ahead window.old) line.new.items (ahead window.new) }
    ensures passed { window.new.passed + length (ahead window.new) ≡ window.old.passed + length (ahead window.old) }
{
    match cut(b'\n', window.ahead()) {
        Some((first, _later)) => {
            let count = first.len();
            if line.try_extend_from_slice(first).is_err() {
                return Part::TooLong;
            }
            window.pass(count + 1);
            Part::Ended
        }
        None => {
            let ahead = window.ahead();
            let count = ahead.len();
            if line.try_extend_from_slice(ahead).is_err() {
                return Part::TooLong;
            }
            window.pass(count);
            Part::More
        }
    }
}

/// Reads and passes the next line of a file.
pub(crate) fn read_line<D: Depot>(
    window: &mut Window,
    depot: &mut D,
    name: &str,
    line: &mut LineBytes,
) -> Result<Front, Failed>
    requires near { window.old.passed ≤ 2 ^ 32 }
    ensures cause { HasCause (D.faults depot.old) (D.faults depot.new) result }
    ensures appends { D.append_faults depot.new ≡ D.append_faults depot.old }
    ensures same { D.contents depot.new ≡ D.contents depot.old }
    ensures goes_well { D.sure depot.old name.now → is_ok result ≡ true }
    ensures stays_sure { (other : List ℕ) → D.sure depot.old other → D.sure depot.new other }
    ensures front { (passed : List ℕ) → StandsBehind (D.contents depot.old) name.now passed window.old
        → IfOk result (λ front. ReadsFront (D.contents depot.old) name.now passed line.new.items window.new front) }
{
    line.clear();
    'parts: loop {
        if !window.has_more(depot, name)? {
            return Ok(if line.is_empty() {
                Front::End
            } else {
                Front::NoLine
            });
        }
        match take_part(window, line) {
            Part::Ended => return Ok(Front::Line),
            Part::TooLong => return Ok(Front::NoLine),
            Part::More => {}
        }
    }
}
