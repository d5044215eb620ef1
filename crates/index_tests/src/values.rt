//! Bounds of values, as words.

ghost use Rattle.std.specs.Prelude.{◌≡◌, true, Some, IfSome};
ghost use Rattle.ghost_base.specs.Views.{value_of};
ghost use Rattle.climbing_index.specs.Searches.{IsOfKind, fits_kind};

use climbing_index::Bound;
use ghost_base::{Kind, Text64, Value, is_of_kind};

/// The text of a word, where it is short enough.
fn text_of(word: &str) -> Option<Text64> {
    let bytes = word.as_bytes();
    if bytes.len() > 64 {
        return None;
    }
    Some(Text64::of(bytes))
}

/// The value of a kind that a word spells.
fn value_spelled(kind: Kind, word: &str) -> Option<Value>
    ensures kind { IfSome result (λ value. fits_kind (Some kind) (value_of value) ≡ true) }
{
    let value = match kind {
        Kind::Integer | Kind::IntegerOrNull => Value::Int(word.parse().ok()?),
        Kind::Chars(_) | Kind::CharsOrNull(_) => Value::Chars(text_of(word)?),
    };
    if is_of_kind(kind, &value) {
        return Some(value);
    }
    None
}

/// A bound of a kind: `[` and a value that is included, or `(` and one that is not. Another word is no bound.
pub(crate) fn bound_of(kind: Option<Kind>, word: &str) -> Option<Bound>
    ensures kind { IsOfKind kind result }
{
    let kind = kind?;
    let (text, included) = match word.strip_prefix('[') {
        Some(text) => (text, true),
        None => (word.strip_prefix('(')?, false),
    };
    let value = value_spelled(kind, text)?;
    Some(Bound { value, included })
}
