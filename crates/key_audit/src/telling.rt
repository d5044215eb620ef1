//! The line of an audit.

ghost use Rattle.std.specs.Prelude.{◌≡◌, true, false, Ok, OnOk, OnErr};
ghost use Rattle.ghost_model.specs.core.Causes.{HasCause};
ghost use Rattle.edge_traits.specs.Written.{grown, GrowsByFront};
ghost use Rattle.key_audit.specs.Telling.{has_line, line_of};
ghost use Rattle.key_audit.specs.Verdicts.{proper_line, wrong_line};

use crate::failures::{AuditFailure, Audited};
use edge_traits::Failed;
use edge_traits::sink::Sink;
use edge_traits::writing::write_all;
use key_lines::line::{Line, put, put_number};

/// The line of a proper journal.
fn proper_line(audited: Audited) -> Line
    ensures line { result.items ≡ proper_line audited.moves audited.closed }
{
    let mut line = Line::new();
    put(&mut line, b"= proper ");
    put_number(&mut line, u64::from(audited.moves));
    put(
        &mut line,
        if audited.closed {
            b" closed\n"
        } else {
            b" open\n"
        },
    );
    line
}

/// The line of a wrong move.
fn wrong_line(at: u32) -> Line
    ensures line { result.items ≡ wrong_line at }
{
    let mut line = Line::new();
    put(&mut line, b"! wrong ");
    put_number(&mut line, u64::from(at));
    put(&mut line, b"\n");
    line
}

/// Prints the line of what an audit ended with, where that has one.
pub(crate) fn print_line<O: Sink>(
    outcome: &Result<Audited, AuditFailure>,
    out: &mut O,
) -> Result<(), Failed>
    ensures cause { HasCause (O.faults out.old) (O.faults out.new) result }
    ensures printed { has_line outcome.now ≡ true → OnOk result (O.written out.new ≡ grown (O.written out.old) (line_of outcome.now)) }
    ensures failed { OnErr result (GrowsByFront (O.written out.old) (line_of outcome.now) (O.written out.new)) }
    ensures other { has_line outcome.now ≡ false → result ≡ Ok tt }
    ensures nothing { has_line outcome.now ≡ false → O.written out.new ≡ O.written out.old }
{
    match outcome {
        Ok(audited) => write_all(out, proper_line(*audited).as_slice()),
        Err(AuditFailure::Wrong { at, .. }) => write_all(out, wrong_line(*at).as_slice()),
        Err(_) => Ok(()),
    }
}
