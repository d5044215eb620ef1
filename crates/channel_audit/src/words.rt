//! The words of a line.

ghost use Rattle.std.specs.Prelude.{◌≡◌, ℕ, List, ◌++◌, true, MatchOption, IfSome, IfNone};
ghost use Rattle.ghost_model.specs.core.Channel.{Answer};
ghost use Rattle.ghost_model.specs.core.Recorded.{TellsDone, lacks};
ghost use Rattle.channel_audit.specs.Lines.{done_as, Cuts};

use memchr::memchr;

/// The bytes behind a front of a text.
pub(crate) fn behind<'a>(text: &'a [u8], front: &[u8]) -> Option<&'a [u8]>
    ensures some { IfSome result (λ rest. text.now ≡ front.now ++ rest.now) }
    ensures none { IfNone result ((rest : List ℕ) → text.now ≡ front.now ++ rest → ⊥) }
{
    text.strip_prefix(front)
}

/// What stands before the first byte of this value in a text, and what stands behind it.
pub fn cut(byte: u8, text: &[u8]) -> Option<(&[u8], &[u8])>
    ensures cut { MatchOption result (lacks byte text.now ≡ true) (λ parts. Cuts byte text.now parts.0.now parts.1.now) }
{
    match memchr(byte, text) {
        None => None,
        Some(at) => {
            let (first, rest) = text.split_at(at);
            let (_byte, later) = rest.split_at(1);
            Some((first, later))
        }
    }
}

/// Whether a word tells that a move was done, or that it failed.
pub(crate) fn done(word: &[u8]) -> Option<bool>
    ensures some { IfSome result (λ well. TellsDone (done_as well) word.now) }
    ensures none { IfNone result ((answer : Answer) → TellsDone answer word.now → ⊥) }
{
    if word == b"ok".as_slice() {
        return Some(true);
    }
    if word == b"failed".as_slice() {
        return Some(false);
    }
    None
}
