//! Codes: numbers in one to three bytes of a page.

ghost use Rattle.std.specs.Prelude.{◌≡◌, ◌-◌, ◌<◌, ◌≤◌, drop, IfSome};
ghost use Rattle.ghost_model.specs.forms.Gaps.{code_in, code_second, code_third};
ghost use Rattle.flash_pages.specs.Codes.{IsCode, read_of};

/// A code as it was read.
#[derive(Clone, Copy)]
pub struct Code {
    /// The number, 1 to 2,097,151.
    pub number: u32,
    /// How many bytes it has, 1 to 3.
    pub length: u32,
}

/// The code at a place of a page: one to three bytes of seven bits, the most significant first, with the top bit set in all but
/// the last. None for 0, and where no whole or no shortest one stands.
#[inline]
pub fn code_at(bytes: &[u8; 2048], at: u32) -> Option<Code>
    requires inside { at < 2048 }
    ensures read { read_of result ≡ code_in (drop at bytes.now) }
    ensures is_code { IfSome result (IsCode at) }
{
    let first = bytes[at as usize] as u32;
    if first < 128 {
        if first == 0 {
            return None;
        }
        return Some(Code {
            number: first,
            length: 1,
        });
    }
    if first == 128 {
        return None;
    }
    second_at(bytes, at as usize + 1, first - 128)
}

/// The code of two or three bytes whose second byte stands at a place, by the bits before.
fn second_at(bytes: &[u8; 2048], at: usize, high: u32) -> Option<Code>
    requires inside { at ≤ 2048 }
    requires begun { 0 < at }
    requires some { 0 < high }
    requires small { high < 128 }
    ensures read { read_of result ≡ code_second high (drop at bytes.now) }
    ensures is_code { IfSome result (IsCode (at - 1)) }
{
    if at >= 2048 {
        return None;
    }
    let second = bytes[at] as u32;
    if second >= 128 {
        return third_at(bytes, at + 1, high, second - 128);
    }
    Some(Code {
        number: high * 128 + second,
        length: 2,
    })
}

/// The code of three bytes whose last byte stands at a place, by the bits before.
fn third_at(bytes: &[u8; 2048], at: usize, high: u32, middle: u32) -> Option<Code>
    requires inside { at ≤ 2048 }
    requires begun { 1 < at }
    requires some { 0 < high }
    requires small { high < 128 }
    requires seven { middle < 128 }
    ensures read { read_of result ≡ code_third high middle (drop at bytes.now) }
    ensures is_code { IfSome result (IsCode (at - 2)) }
{
    if at >= 2048 {
        return None;
    }
    let third = bytes[at] as u32;
    if third >= 128 {
        return None;
    }
    Some(Code {
        number: (high * 128 + middle) * 128 + third,
        length: 3,
    })
}
