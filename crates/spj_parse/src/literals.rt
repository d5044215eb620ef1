//! The values of literals.

ghost use Rattle.std.specs.Prelude.{◌≡◌, ℕ, ◌+◌, ◌<◌, ◌^◌, ◌≤◌, ◌∷◌, ◌++◌, [], IfNone, IfSome, List, MatchOption, false, take, true};
ghost use Rattle.ghost_model.specs.refusals.QueryMeaning as meaning;
ghost use Rattle.ghost_model.specs.refusals.Tokens as tokens;
ghost use Rattle.ghost_model.specs.refusals.Tokens.{number_of};
ghost use Rattle.tree_schema.specs.Marks as marks;
ghost use Rattle.spj_parse.specs.Drafts.{sign_of};
ghost use Rattle.spj_parse.specs.Literals.{Keeps, is_out, read_on};

use crate::drafts::Sign;
use arrayvec::ArrayVec;
use ghost_base::limits::MAX_CHARS;

/// The number that digits write, `None` where it takes more than 64 bits.
fn number_in(digits: &[u8]) -> Option<u64>
    ensures number { IfSome result (λ number. number ≡ number_of digits.now) }
    ensures large { IfNone result (2 ^ 64 ≤ number_of digits.now) }
{
    let mut number: u64 = 0;
    for digit in digits {
        let Some(tens) = number.checked_mul(10) else {
            return None;
        };
        let Some(more) = tens.checked_add(digit.saturating_sub(b'0') as u64) else {
            return None;
        };
        number = more;
    }
    Some(number)
}

/// A number with a sign, `None` where it is outside 64 bits.
fn with_sign(sign: Sign, number: u64) -> Option<i64>
    ensures integer { MatchOption result (is_out (meaning.with_sign (sign_of sign) number) ≡ true) (λ integer. (integer ≡ meaning.with_sign (sign_of sign) number) × (is_out integer ≡ false)) }
{
    match sign {
        Sign::Positive => {
            if number < 1 << 63 {
                Some(number as i64)
            } else {
                None
            }
        }
        Sign::Negative => {
            if number == 0 {
                Some(0)
            } else if number <= 1 << 63 {
                Some(-1 - (number - 1) as i64)
            } else {
                None
            }
        }
    }
}

/// The integer that a sign and digits write, `None` where it is outside 64 bits.
pub(crate) fn integer_in(sign: Sign, digits: &[u8]) -> Option<i64>
    ensures integer { MatchOption result (is_out (meaning.with_sign (sign_of sign) (number_of digits.now)) ≡ true) (λ integer. (integer ≡ meaning.with_sign (sign_of sign) (number_of digits.now)) × (is_out integer ≡ false)) }
{
    match number_in(digits) {
        None => None,
        Some(number) => with_sign(sign, number),
    }
}

/// What a byte does in a text literal behind its first `'`: the literal has ended before it, it breaks the literal, it
/// closes it unless another `'` follows, or it gives a character.
#[derive(Clone, Copy)]
enum InText {
    Ends,
    Breaks,
    Closes,
    Gives,
}

/// What a byte does in a text literal, where the byte before closed it or not.
#[tactic(auto, unfolding(ghost_model::specs::refusals::Tokens::quoted_from))]
fn step_in_text(ended: bool, byte: u8) -> InText
    ensures step { (value : List ℕ) (count : ℕ) (rest : List ℕ) → tokens.quoted_from ended value count (byte ∷ rest) ≡ read_on result byte value count rest }
{
    if byte == b'\'' {
        if ended { InText::Gives } else { InText::Closes }
    } else if ended {
        InText::Ends
    } else if b' ' <= byte && byte <= b'~' {
        InText::Gives
    } else {
        InText::Breaks
    }
}

/// The length of a text, and its first 64 bytes.
#[derive(Drop)]
pub(crate) struct TextDraft {
    pub len: usize,
    pub front: ArrayVec<u8, MAX_CHARS>,
}

/// One more byte of a text, unless 64 are kept.
fn keep(front: &mut ArrayVec<u8, MAX_CHARS>, byte: u8)
    ensures kept { (value : List ℕ) → front.old.items ≡ take 64 value → front.new.items ≡ take 64 (value ++ byte ∷ []) }
{
    if front.is_full() {
        return;
    }
    front.push(byte);
}

impl TextDraft {
    /// No text.
    fn empty() -> Self
        ensures text { Keeps result [] }
    {
        TextDraft {
            len: 0,
            front: ArrayVec::new(),
        }
    }

    /// One more byte.
    fn push(&mut self, byte: u8)
        requires room { self.old.len + 1 < 2 ^ 64 }
        ensures text { (value : List ℕ) → Keeps self.old value → Keeps self.new (value ++ byte ∷ []) }
    {
        keep(&mut self.front, byte);
        self.len += 1;
    }
}

/// The text that stands behind the first `'` of a literal; where the literal is broken, it is empty.
fn text_behind(inside: &[u8]) -> TextDraft
    ensures text { Keeps result (marks.value_in (tokens.quoted_from false [] 1 inside.now).symbol) }
{
    let mut text = TextDraft::empty();
    let mut ended = false;
    for byte in inside {
        match step_in_text(ended, *byte) {
            InText::Ends => return text,
            InText::Breaks => return TextDraft::empty(),
            InText::Closes => ended = true,
            InText::Gives => {
                ended = false;
                text.push(*byte);
            }
        }
    }
    if ended { text } else { TextDraft::empty() }
}

/// The value of a text literal.
pub(crate) fn text_in(literal: &[u8]) -> TextDraft
    ensures text { Keeps result (marks.literal_of literal.now) }
{
    let Some((_, inside)) = literal.split_first() else {
        return TextDraft::empty();
    };
    text_behind(inside)
}
