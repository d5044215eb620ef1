//! Numbers of a line.

ghost use Rattle.std.specs.Prelude.{◌≡◌, min};
ghost use Rattle.std.specs.List.{list_all};
ghost use Rattle.ghost_model.specs.core.Recorded as audits;
ghost use Rattle.ghost_model.specs.core.Recorded.{is_digit, number};

/// A number that is greater than any length of bytes in a line, and than any that a key asks for.
pub(crate) const MANY: usize = 100_000;

/// Whether all of these bytes are decimal digits.
fn are_digits(bytes: &[u8]) -> bool
    ensures { result ≡ list_all is_digit bytes.now }
{
    let mut rest = bytes;
    while let Some((byte, later)) = rest.split_first() {
        if *byte < b'0' || *byte > b'9' {
            return false;
        }
        rest = later;
    }
    true
}

/// Whether bytes are a number in decimal, without leading zeros.
pub(crate) fn is_number(bytes: &[u8]) -> bool
    ensures { result ≡ audits.is_number bytes.now }
{
    match bytes.split_first() {
        None => false,
        Some((first, later)) => {
            if later.is_empty() {
                return *first >= b'0' && *first <= b'9';
            }
            *first >= b'1' && *first <= b'9' && are_digits(later)
        }
    }
}

/// The number that digits spell, or `MANY` where it is greater.
pub(crate) fn number_up_to_many(digits: &[u8]) -> usize
    ensures number { result ≡ min (number digits.now) 100000 }
{
    let mut value = 0usize;
    let mut rest = digits;
    while let Some((digit, later)) = rest.split_first() {
        value = (value * 10 + usize::from(digit.saturating_sub(b'0'))).min(MANY);
        rest = later;
    }
    value
}
