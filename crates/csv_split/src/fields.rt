//! The fields of a CSV record: integers, and texts of printable characters.

ghost use Rattle.std.specs.Prelude.{◌≡◌, ◌≤◌, ◌+◌, ◌-◌, ◌^◌, IfNone, IfSome, length, pos, neg_ℤ, true};
ghost use Rattle.csv_split.specs.Numbers.{number_within};
ghost use Rattle.std.specs.List.{list_all};
ghost use Rattle.ghost_model.specs.refusals.Tokens.{is_digit};
ghost use Rattle.ghost_model.specs.core.Database as database;
ghost use Rattle.ghost_model.specs.refusals.LoadFaults as faults;

use ghost_base::is_printable_text;

/// The integer that a field spells: an optional sign and one or more digits, in 64 bits.
pub fn integer_of(field: &[u8]) -> Option<i64>
    ensures { result ≡ database.integer_of field.now }
{
    let Some((first, digits)) = field.split_first() else {
        return None;
    };
    if *first == b'-' {
        below_zero(digits)
    } else if *first == b'+' {
        from_zero(digits)
    } else {
        from_zero(field)
    }
}

/// Whether a field is a text of at most so many characters.
pub fn is_text(most: usize, field: &[u8]) -> bool
    ensures { result ≡ database.is_text most field.now }
{
    field.len() <= most && is_printable_text(field)
}

/// Whether a field spells a row's number.
pub fn is_number(number: usize, field: &[u8]) -> bool
    requires { number ≤ faults.most_rows + 1 }
    ensures { result ≡ faults.is_number number (database.integer_of field.now) }
{
    match integer_of(field) {
        Some(other) => other == number as i64,
        None => false,
    }
}

/// The number of these digits, which has no sign.
fn from_zero(digits: &[u8]) -> Option<i64>
    ensures { result ≡ database.signed_within (2 ^ 63 - 1) pos digits.now }
{
    let Some(number) = number_within((1 << 63) - 1, digits) else {
        return None;
    };
    Some(number as i64)
}

/// The number of these digits, below zero.
fn below_zero(digits: &[u8]) -> Option<i64>
    ensures { result ≡ database.signed_within (2 ^ 63) (λ number. neg_ℤ (pos number)) digits.now }
{
    let Some(number) = number_within(1 << 63, digits) else {
        return None;
    };
    if number == 0 {
        return Some(0);
    }
    Some(-((number - 1) as i64) - 1)
}

/// The number of one or more digits, where it is not above the greatest.
fn number_within(greatest: u64, digits: &[u8]) -> Option<u64>
    ensures { result ≡ number_within greatest digits.now }
{
    if !is_numeral(digits) {
        return None;
    }
    let Some(number) = number_of(digits) else {
        return None;
    };
    if number > greatest {
        return None;
    }
    Some(number)
}

/// Whether there are digits alone, and at least one.
fn is_numeral(field: &[u8]) -> bool
    ensures { result ≡ database.is_numeral field.now }
{
    match field.split_first() {
        Some(_) => are_digits(field),
        None => false,
    }
}

/// Whether there are digits alone.
fn are_digits(field: &[u8]) -> bool
    ensures { result ≡ list_all is_digit field.now }
{
    field.iter().all(|&byte| b'0' <= byte && byte <= b'9')
}

/// The number of digits, where it has 64 bits.
#[tactic(auto, using(crate::proofs::Numerals::next_digit, crate::proofs::Numerals::too_large))]
fn number_of(digits: &[u8]) -> Option<u64>
    requires { list_all is_digit digits.now ≡ true }
    ensures found { IfSome result (λ number. number ≡ database.number_of digits.now) }
    ensures large { IfNone result (2 ^ 64 ≤ database.number_of digits.now) }
{
    let mut number: u64 = 0;
    for digit in digits {
        let Some(shifted) = number.checked_mul(10) else {
            return None;
        };
        let Some(sum) = shifted.checked_add((*digit - b'0') as u64) else {
            return None;
        };
        number = sum;
    }
    Some(number)
}
