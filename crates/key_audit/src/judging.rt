//! The audit of the files that the words name.

ghost use Rattle.std.specs.Prelude.{◌≡◌, Some, Err};
ghost use Rattle.edge_traits.specs.Files.{Files, AreSure};
ghost use Rattle.key_words.specs.Views.{audit_view};
ghost use Rattle.key_inputs.specs.Outside.{IsTold};
ghost use Rattle.key_audit.specs.Doing.{IsUndecided};
ghost use Rattle.key_audit.specs.Judgings.{Judges};
ghost use Rattle.key_audit.specs.Results.{told_by};
ghost use Rattle.key_audit.specs.declared.failures.AuditFailure.TheVariants as failure;

use crate::failures::{AuditFailure, Audited, failure_of};
use crate::head::read_head;
use crate::journal::audit_journal;
use edge_traits::depot::Depot;
use key_inputs::open_script;
use key_words::AuditWords;
use std::alloc::Global;

/// Reads the head of the visible file, then the script, then the journal, and says what is met first that decides.
pub(crate) fn judge<D: Depot>(
    alloc: Global,
    words: &AuditWords<'_>,
    depot: &mut D,
) -> Result<Audited, AuditFailure>
    ensures judges { Judges (D.contents depot.old) (audit_view words.now) result }
    ensures cause { IsTold (told_by result).depot (D.faults depot.old) (D.faults depot.new) }
    ensures appends { D.append_faults depot.new ≡ D.append_faults depot.old }
    ensures same { D.contents depot.new ≡ D.contents depot.old }
    ensures undecided { (files : Files) → D.contents depot.old ≡ Some files → AreSure files (D.sure depot.old) → result ≡ Err failure.Depot
        → IsUndecided files (audit_view words.now) }
{
    let cat = match read_head(depot, words.visible) {
        Ok(Some(cat)) => cat,
        Ok(None) => return Err(AuditFailure::NotTheFile),
        Err(_) => return Err(AuditFailure::Depot),
    };
    let script = match open_script(alloc, words.script, depot) {
        Ok(script) => script,
        Err(fault) => return Err(failure_of(fault)),
    };
    audit_journal(depot, words.journal, &cat, &script)
}
