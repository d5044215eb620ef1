//! What is wrong with words that `clap` refuses.

ghost use Rattle.std.specs.Prelude.{◌≡◌, true, false, Some};
ghost use Rattle.key_words.specs.Refusals.{is_told, told_kind};

use crate::shown::ShownWord;
use crate::words::UsageFault;
use clap::error::ErrorKind;

/// What a refusal of this kind, with this message, tells of the words.
pub(crate) fn refusal(kind: ErrorKind, message: &str) -> UsageFault
    ensures told { is_told kind ≡ true → told_kind result ≡ Some kind }
    ensures other { is_told kind ≡ false → result ≡ UsageFault.Words }
{
    match kind {
        ErrorKind::MissingSubcommand => UsageFault::NoCommand,
        ErrorKind::InvalidSubcommand => UsageFault::NotACommand(ShownWord::of(quoted(message))),
        ErrorKind::UnknownArgument => UsageFault::NotAnOption(ShownWord::of(quoted(message))),
        ErrorKind::MissingRequiredArgument => UsageFault::Missing(ShownWord::of(first_listed(
            message,
        ))),
        ErrorKind::ArgumentConflict => UsageFault::Twice(ShownWord::of(first_word(quoted(
            message,
        )))),
        ErrorKind::InvalidValue => UsageFault::NoValue(ShownWord::of(first_word(quoted(message)))),
        _ => UsageFault::Words,
    }
}

/// What stands between the first two quotes of a message.
fn quoted(message: &str) -> &str {
    message.split('\'').nth(1).unwrap_or("")
}

/// The first word of the second line, where a message lists what is missing.
fn first_listed(message: &str) -> &str {
    first_word(message.lines().nth(1).unwrap_or("").trim_start())
}

/// What stands before the first blank.
fn first_word(text: &str) -> &str {
    text.split(' ').next().unwrap_or("")
}
