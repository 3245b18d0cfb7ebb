// Numbers in decimal digits.
ghost use Rattle.std.specs.Prelude.{◌≡◌};
ghost use Rattle.std.specs.Str.{all_ascii_digits};
ghost use Rattle.lucy_fields.specs.Numbers.{number_of, negative_of, positive_of, int_of};

use std::str;

// Whether all bytes are digits.
fn are_digits(bytes: &[u8]) -> bool
    ensures { result ≡ all_ascii_digits bytes.now }
{
    'each: for byte in bytes {
        if !byte.is_ascii_digit() {
            return false;
        }
    }
    true
}

/// The number that bytes spell in decimal digits, of which there is one at least and at most so many, where it lies between these;
/// leading zeros are fine.
pub fn number(bytes: &[u8], digits: usize, least: u64, most: u64) -> Option<u64>
    ensures { result ≡ number_of digits least most bytes.now }
{
    if bytes.is_empty() || bytes.len() > digits || !are_digits(bytes) {
        return None;
    }
    let Ok(text) = str::from_utf8(bytes) else {
        return None;
    };
    let Ok(number) = text.parse::<u64>() else {
        return None;
    };
    if number < least || number > most {
        return None;
    }
    Some(number)
}

// The number that digits spell behind a `-`.
fn negative(digits: &[u8]) -> Option<i64>
    ensures { result ≡ negative_of digits.now }
{
    0i64.checked_sub_unsigned(number(digits, digits.len(), 0, 1 << 63)?)
}

// The number that digits spell.
fn positive(digits: &[u8]) -> Option<i64>
    ensures { result ≡ positive_of digits.now }
{
    Some(number(digits, digits.len(), 0, (1 << 63) - 1)? as i64)
}

/// The number of 64 bits that bytes spell: an optional `-`, and digits, of which there is one at least; leading zeros are fine.
pub fn int(bytes: &[u8]) -> Option<i64>
    ensures { result ≡ int_of bytes.now }
{
    match bytes.strip_prefix(b"-") {
        Some(digits) => negative(digits),
        None => positive(bytes),
    }
}
