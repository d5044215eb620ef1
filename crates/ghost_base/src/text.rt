//! Texts of at most 64 bytes, which lie in the value itself.

ghost use Rattle.std.specs.Prelude.{◌≡◌, ℕ, ◌≤◌, ◌==◌, List, [], length, replicate, nat_eq, ⊤};
ghost use Rattle.std.specs.Cmp.Lexicographic.{pointwise, lists_per, lists_equiv, lists_ties, texts_po};
ghost use Rattle.std.specs.Cmp.{nat_eq_equiv, partial_equiv_from_equiv, unsigned_ties};
ghost use Rattle.std.specs.Ordering.{as_partial_cmp, nat_cmp};
ghost use Rattle.std.proofs.Common.{refl};
ghost use Rattle.std.proofs.lemmas.Cmp.{nat_list_cmp_total};
ghost use Rattle.ghost_model.specs.forms.Cells.{padded};
ghost use Rattle.ghost_base.specs.CellLaws.{byte_order};

use std::cmp::Ordering;
use std::marker::Model;

/// A text of at most 64 bytes, which a clause sees as the list of its bytes.
#[derive(Clone, Copy)]
pub struct Text64 {
    bytes: [u8; 64],
    len: usize,
}

impl Model for Text64 {
    ghost use Rattle.std.specs.Prelude.{ℕ, List, take};

    ghost Value = { List ℕ };

    ghost use Rattle.ghost_base.specs.Texts.{IsPadded, fields_of, fields_are};

    ghost view = { λ text. take text.len text.bytes };

    ghost invariant = { IsPadded };

    ghost inverse = { fields_of };

    ghost inverse_ok = { fields_are };
}

impl Text64 {
    /// The text of these bytes.
    pub fn of(bytes: &[u8]) -> Self
        requires { length bytes.now ≤ 64 }
        ensures { result ≡ bytes.now }
    {
        let mut places = [0; 64];
        put_before_zeros(bytes, &mut places);
        Text64 {
            bytes: places,
            len: bytes.len(),
        }
    }

    /// The bytes of the text.
    pub fn as_bytes(&self) -> &[u8]
        ensures value { result.now ≡ self.now }
        ensures short { length result.now ≤ 64 }
    {
        &self.bytes[..self.len]
    }

    /// The number of the text's bytes.
    pub fn len(&self) -> usize
        ensures value { result ≡ length self.now }
        ensures short { result ≤ 64 }
    {
        self.len
    }

    /// Whether the text has no bytes.
    pub fn is_empty(&self) -> bool
        ensures { result ≡ (length self.now == 0) }
    {
        self.len == 0
    }
}

/// Writes a text over the first of as many zero bytes as a text has places.
fn put_before_zeros(text: &[u8], places: &mut [u8; 64])
    requires short { length text.now ≤ 64 }
    requires zeros { places.old ≡ replicate 64 0 }
    ensures places { places.new ≡ padded 64 text.now }
{
    places[..text.len()].copy_from_slice(text);
}

/// Writes a text and zero bytes after it.
pub(crate) fn put_padded(text: &[u8], out: &mut [u8])
    requires { length text.now ≤ length out.old }
    ensures { out.new ≡ padded (length out.old) text.now }
{
    let (front, back) = out.split_at_mut(text.len());
    front.copy_from_slice(text);
    back.fill(0);
}

impl Default for Text64 {
    ghost is_default = { λ text. text ≡ [] };

    fn default() -> Self {
        Text64::of(&[])
    }
}

impl PartialEq for Text64 {
    ghost eq = { pointwise nat_eq };

    ghost laws = { partial_equiv_from_equiv (lists_equiv nat_eq_equiv) };

    fn eq(&self, other: &Self) -> bool {
        self.as_bytes() == other.as_bytes()
    }
}

impl Eq for Text64 {
    ghost laws = { lists_equiv nat_eq_equiv };
}

/// Texts are ordered by their bytes, a prefix before the longer text.
impl PartialOrd for Text64 {
    ghost partial_cmp = { as_partial_cmp byte_order };

    ghost laws = { texts_po };

    fn partial_cmp(&self, other: &Self) -> Option<Ordering> {
        Some(self.cmp(other))
    }
}

impl Ord for Text64 {
    ghost cmp = { byte_order };

    ghost total = { nat_list_cmp_total };

    ghost matches_partial_cmp = { λ _ _. refl };

    ghost matches_eq = { lists_ties nat_cmp unsigned_ties };

    fn cmp(&self, other: &Self) -> Ordering {
        self.as_bytes().cmp(&other.as_bytes())
    }
}
