//! A law of the lines of a session with a host in the key's own process.

ghost use Rattle.key_commands.specs.local.Lines.{ToldTextsAreGiven};

use session_laws::local::{local_asks_are_done, local_sessions_answer};

/// What a finished session told of its texts are lines of their meaning, or fronts of them where the flash failed.
pub(crate) fn told_texts_are_given()
    ensures given { ToldTextsAreGiven }
{
    local_asks_are_done();
    local_sessions_answer();
}
