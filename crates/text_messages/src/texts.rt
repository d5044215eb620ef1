//! The texts of a script by their numbers.

ghost use Rattle.std.specs.Prelude.{◌≡◌, ◌-◌, Some, IfSome, true, drop, length, slice_get, take};
ghost use Rattle.ghost_model.specs.core.Texts.{texts_of};

use spj_parse::Texts;

/// A text of a script.
#[derive(Clone, Copy)]
pub(crate) struct TextAt<'a> {
    /// Its bytes.
    pub(crate) text: &'a [u8],

    /// Where it begins in the script.
    pub(crate) at: usize,
}

/// The text of a number, and where it begins.
pub(crate) fn text_of(script: &[u8], number: u32) -> Option<TextAt<'_>>
    ensures text { IfSome result (λ found. slice_get (texts_of script.now) (number - 1) ≡ Some found.text.now) }
    ensures place { IfSome result (λ found. take (length found.text.now) (drop found.at script.now) ≡ found.text.now) }
{
    let mut texts = Texts::new(script);
    let mut from = 0;
    for _ in 1..number {
        let earlier = texts.next()?;
        from = found_from(script, earlier, from)?.saturating_add(earlier.len());
    }
    let text = texts.next()?;
    let at = found_from(script, text, from)?;
    Some(TextAt { text, at })
}

/// Where a text stands first from a place on. Between two texts there are only white space and `;`, so it is that text.
fn found_from(script: &[u8], text: &[u8], from: usize) -> Option<usize>
    ensures place { IfSome result (λ at. take (length text.now) (drop at script.now) ≡ text.now) }
{
    for at in from..script.len() {
        if stands_at(script, text, at) {
            return Some(at);
        }
    }
    None
}

/// Whether a text stands at a place.
fn stands_at(script: &[u8], text: &[u8], at: usize) -> bool
    ensures place { result ≡ true → take (length text.now) (drop at script.now) ≡ text.now }
{
    if at > script.len() || text.len() > script.len() - at {
        return false;
    }
    let (_, rest) = script.split_at(at);
    let (front, _) = rest.split_at(text.len());
    front == text
}
