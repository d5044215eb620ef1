//! The command.

ghost use Rattle.std.specs.Prelude.{◌≡◌, Some, Err};
ghost use Rattle.edge_traits.specs.Devices.{Device};
ghost use Rattle.edge_traits.specs.Files.{Files, AreSure};
ghost use Rattle.key_words.specs.Views.{audit_view};
ghost use Rattle.key_inputs.specs.Outside.{outside};
ghost use Rattle.key_audit.specs.Doing.{AuditDid, IsUndecided};
ghost use Rattle.key_audit.specs.declared.failures.AuditFailure.TheVariants as failure;

use crate::failures::{AuditFailure, Audited};
use crate::judging::judge;
use crate::telling::print_line;
use edge_traits::depot::Depot;
use edge_traits::sink::Sink;
use ghost_model::catalogs::catalogs_have_one_spelling;
use ghost_model::recorded::files_have_one_finding;
use key_words::AuditWords;
use std::alloc::Global;

/// Does the command `audit`: reads the head of the visible file, whose catalog may be of either version, the script and then
/// the journal, and prints `= proper m closed` or `= proper m open`, or `! wrong i` where move i is not the one that was due.
/// Of what is no line of a journal it prints nothing; a line that reaches past byte 4,294,967,296 of the file is none.
///
/// What is met first decides. The files are left as they are, and no memory is taken but for the script.
pub fn audit<D: Depot, O: Sink>(
    alloc: Global,
    words: &AuditWords<'_>,
    depot: &mut D,
    out: &mut O,
) -> Result<Audited, AuditFailure>
    ensures did { (device : Device) → AuditDid result
        (outside (D.contents depot.old) (D.faults depot.old) (D.append_faults depot.old) device (O.written out.old) (O.faults out.old))
        (outside (D.contents depot.new) (D.faults depot.new) (D.append_faults depot.new) device (O.written out.new) (O.faults out.new)) (audit_view words.now) }
    ensures undecided { (files : Files) → D.contents depot.old ≡ Some files → AreSure files (D.sure depot.old) → result ≡ Err failure.Depot
        → IsUndecided files (audit_view words.now) }
{
    catalogs_have_one_spelling();
    files_have_one_finding();
    let outcome = judge(alloc, words, depot);
    match print_line(&outcome, out) {
        Ok(()) => outcome,
        Err(_) => Err(AuditFailure::Sink),
    }
}
