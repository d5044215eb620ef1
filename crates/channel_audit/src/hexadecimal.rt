//! Bytes of a line, which stand in hexadecimal.

ghost use Rattle.std.specs.Prelude.{◌≡◌, ◌≤◌, ◌*◌, ℕ, List, true, false, length, IfSome, IfNone};
ghost use Rattle.hex.specs.Hex.{encode_lower};
ghost use Rattle.ghost_model.specs.forms.Frames.{AreBytes};

/// The most bytes that a line tells: half of its own.
pub(crate) const MOST_TOLD: usize = 2_100;

/// The bytes that a text in lower case spells, put into a room.
pub(crate) fn read_hex<'a>(text: &[u8], room: &'a mut [u8; MOST_TOLD]) -> Option<&'a [u8]>
    requires short { length text.now ≤ 4200 }
    ensures spelled { IfSome result (λ bytes. encode_lower bytes.now ≡ text.now) }
    ensures bytes { IfSome result (λ bytes. AreBytes bytes.now) }
    ensures none { IfNone result ((bytes : List ℕ) → AreBytes bytes → encode_lower bytes ≡ text.now → ⊥) }
{
    let (place, _rest) = room.split_at_mut(text.len() / 2);
    if hex::decode_to_slice(text, place).is_err() {
        return None;
    }
    if spells(place, text) {
        Some(place)
    } else {
        None
    }
}

/// Whether these bytes are spelled so in lower case.
fn spells(bytes: &[u8], text: &[u8]) -> bool
    requires short { length bytes.now ≤ 2100 }
    ensures same { result ≡ true → encode_lower bytes.now ≡ text.now }
    ensures other { result ≡ false → encode_lower bytes.now ≡ text.now → ⊥ }
{
    let mut digits = [0; 2 * MOST_TOLD];
    let (lower, _rest) = digits.split_at_mut(2 * bytes.len());
    let _fits = hex::encode_to_slice(bytes, lower);
    &*lower == text
}
