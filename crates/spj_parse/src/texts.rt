//! The texts of a script, one after another.

ghost use Rattle.std.specs.Prelude.{◌≡◌, ◌&&◌, ◌==◌, ◌∷◌, [], IfNone, IfSome, length};
ghost use Rattle.ghost_model.specs.core.Texts as texts;
ghost use Rattle.ghost_model.specs.refusals.Tokens as tokens;
ghost use Rattle.spj_parse.specs.Parts.{CutsAt, even_after, parts_left, texts_left};

use std::marker::Model;

/// The parts of a script that were not given yet.
#[derive(Drop)]
struct Parts<'a> {
    rest: &'a [u8],
    ended: bool,
}

/// The texts of a script that were not given yet.
#[derive(Drop)]
pub struct Texts<'a> {
    parts: Parts<'a>,
}

impl<'a> Model for Texts<'a> {
    ghost use Rattle.std.specs.Prelude.{ℕ, List};

    ghost Value = { List (List ℕ) };

    ghost use Rattle.spj_parse.specs.Parts.{texts_left};

    ghost view = { λ texts. texts_left texts.parts };
}

/// Whether a byte is white space.
fn is_space(byte: u8) -> bool
    ensures space { result ≡ tokens.is_space byte }
{
    byte == b' ' || byte == b'\t' || byte == b'\n' || byte == b'\r'
}

/// Whether a part is white space alone.
fn is_blank(part: &[u8]) -> bool
    ensures blank { result ≡ texts.is_blank part.now }
{
    part.iter().all(|byte| is_space(*byte))
}

/// The number of `'` is even after this byte, where it was before or was not.
fn is_even_after(even: bool, byte: u8) -> bool
    ensures even { result ≡ even_after even byte }
{
    if byte == b'\'' { !even } else { even }
}

/// Whether a byte cuts a script: a `;` with an even number of `'` before it.
fn is_cut(even: bool, byte: u8) -> bool
    ensures cut { result ≡ (even && byte == 59) }
{
    even && byte == b';'
}

/// The length of the part that begins a script, before its first `;` that has an even number of `'` before it.
fn part_len(script: &[u8]) -> usize
    ensures cuts { CutsAt script.now result }
{
    let mut even = true;
    for (i, byte) in script.iter().enumerate() {
        if is_cut(even, *byte) {
            return i;
        }
        even = is_even_after(even, *byte);
    }
    script.len()
}

/// The next part.
fn next_part<'a>(parts: &mut Parts<'a>) -> Option<&'a [u8]>
    ensures taken { IfSome result (λ part. parts_left parts.old ≡ part.now ∷ parts_left parts.new) }
    ensures none { IfNone result ((parts_left parts.old ≡ []) × (parts_left parts.new ≡ [])) }
{
    if parts.ended {
        return None;
    }
    let len = part_len(parts.rest);
    let (part, behind) = parts.rest.split_at(len);
    match behind.split_first() {
        None => {
            parts.ended = true;
            Some(part)
        }
        Some((_, rest)) => {
            parts.rest = rest;
            Some(part)
        }
    }
}

/// The next part that is a text.
fn next_text<'a>(parts: &mut Parts<'a>) -> Option<&'a [u8]>
    ensures taken { IfSome result (λ text. texts_left parts.old ≡ text.now ∷ texts_left parts.new) }
    ensures none { IfNone result ((texts_left parts.old ≡ []) × (texts_left parts.new ≡ [])) }
{
    loop {
        let Some(part) = next_part(parts) else {
            return None;
        };
        if !is_blank(part) {
            return Some(part);
        }
    }
}

impl<'a> Texts<'a> {
    /// All texts of a script.
    pub fn new(script: &'a [u8]) -> Self
        ensures all { result ≡ texts.texts_of script.now }
    {
        Texts {
            parts: Parts {
                rest: script,
                ended: false,
            },
        }
    }

    /// The next text, and `None` where all were given.
    pub fn next(&mut self) -> Option<&'a [u8]>
        ensures taken { IfSome result (λ text. self.old ≡ text.now ∷ self.new) }
        ensures none { IfNone result ((self.old ≡ []) × (self.new ≡ [])) }
    {
        next_text(&mut self.parts)
    }

    /// The same texts, to be given again.
    pub fn again(&self) -> Texts<'a>
        ensures same { result ≡ self.now }
    {
        Texts {
            parts: Parts {
                rest: self.parts.rest,
                ended: self.parts.ended,
            },
        }
    }
}

/// The number of texts of a script.
pub fn text_count(script: &[u8]) -> usize
    ensures count { result ≡ length (texts.texts_of script.now) }
{
    let mut texts = Texts::new(script);
    for count in 0..script.len() {
        let Some(_) = texts.next() else {
            return count;
        };
    }
    script.len()
}
