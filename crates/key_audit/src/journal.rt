//! The audit of a journal's file.

ghost use Rattle.std.specs.Prelude.{◌≡◌, ℕ, ◌+◌, ◌≤◌, List, true, length, Err};
ghost use Rattle.ghost_model.specs.core.Asks.{NumberedAsk, asked_of};
ghost use Rattle.ghost_model.specs.core.Channel as channel;
ghost use Rattle.ghost_model.specs.core.Recorded.{lacks};
ghost use Rattle.ghost_model.specs.core.Texts.{texts_of};
ghost use Rattle.key_inputs.specs.Outside.{IsTold};
ghost use Rattle.key_audit.specs.Journals.{HasPassed, JudgesLine, EndsJournal};
ghost use Rattle.key_audit.specs.Results.{told_by};
ghost use Rattle.key_audit.specs.declared.failures.AuditFailure.TheVariants as failure;

use crate::failures::{AuditFailure, Audited};
use crate::lines::{Front, LineBytes, read_line};
use crate::window::Window;
use channel_audit::laws::lines_are_passed;
use channel_audit::{Audit, Step};
use edge_traits::depot::Depot;
use ghost_base::limits::MAX_TEXTS;
use tree_schema::Catalog;

/// The most bytes of a journal's file.
const MOST_JOURNAL: u64 = 4_294_967_296;

/// Judges a line, which was passed: so many bytes were passed with it, and so many moves before it.
fn judge_line(audit: &mut Audit<'_>, line: &[u8], passed: u64, moves: u32) -> Option<AuditFailure>
    requires few { moves ≤ 2_147_483_648 }
    requires lacking { lacks 10 line.now ≡ true }
    ensures judged { (catalog : channel.Catalog) (asks : List NumberedAsk) (before : List ℕ) → HasPassed catalog asks before audit.old moves
        → passed ≡ length before + (length line.now + 1) → JudgesLine catalog asks before line.now moves result audit.new }
{
    lines_are_passed();
    let number = moves + 1;
    if passed > MOST_JOURNAL {
        return Some(AuditFailure::BadJournal { line: number });
    }
    match audit.line(line) {
        Step::Fine => None,
        Step::Wrong { told, due } => Some(AuditFailure::Wrong {
            at: number,
            told,
            due,
        }),
        Step::NotALine => Some(AuditFailure::BadJournal { line: number }),
    }
}

/// Audits the file of a journal, line by line, over a catalog and a script, which has at most 64 texts. What is kept does not
/// grow with the file.
pub(crate) fn audit_journal<D: Depot>(
    depot: &mut D,
    name: &str,
    cat: &Catalog,
    script: &[u8],
) -> Result<Audited, AuditFailure>
    requires few { length (texts_of script.now) ≤ MAX_TEXTS }
    ensures ends { EndsJournal (D.contents depot.old) name.now cat.now (asked_of cat.now.schema (texts_of script.now)) result }
    ensures cause { IsTold (told_by result).depot (D.faults depot.old) (D.faults depot.new) }
    ensures appends { D.append_faults depot.new ≡ D.append_faults depot.old }
    ensures same { D.contents depot.new ≡ D.contents depot.old }
    ensures goes_well { D.sure depot.old name.now → result ≡ Err failure.Depot → ⊥ }
    ensures stays_sure { (other : List ℕ) → D.sure depot.old other → D.sure depot.new other }
{
    lines_are_passed();
    let mut audit = Audit::begin(cat, script);
    let mut window = Window::new();
    let mut line = LineBytes::new();
    let mut moves = 0;
    'lines: loop {
        match read_line(&mut window, depot, name, &mut line) {
            Err(_) => return Err(AuditFailure::Depot),
            Ok(Front::End) => {
                return Ok(Audited {
                    moves,
                    closed: audit.closed(),
                });
            }
            Ok(Front::NoLine) => return Err(AuditFailure::BadJournal { line: moves + 1 }),
            Ok(Front::Line) => {}
        }
        if let Some(failure) = judge_line(&mut audit, line.as_slice(), window.passed, moves) {
            return Err(failure);
        }
        moves += 1;
    }
}
