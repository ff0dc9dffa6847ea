//! Reads numbers of up to 20 digits.

ghost use Rattle.std.specs.Prelude.{◌≡◌, ◌≤◌, ◌∷◌, length, IfSome};
ghost use Rattle.text_defs.specs.Numbers.{number, within};
ghost use Rattle.long_numbers.specs.Width.{last_number, most_digits};

use texts::read_number;

/// The least number of 20 digits of which the first isn't 0.
const TWENTY_DIGITS: u64 = 10_000_000_000_000_000_000;

/// A number of 1 to 20 decimal digits, of which the first may be 0, from `low` to `high`.
pub fn read_long_number(bytes: &[u8], low: u64, high: u64) -> Option<u64>
    ensures value { result ≡ number most_digits low high bytes.now }
    ensures range { IfSome result (λ n. n ≤ high) }
{
    within(number_of(bytes)?, low, high)
}

/// A value that is in the range, its ends included.
fn within(value: u64, low: u64, high: u64) -> Option<u64>
    ensures value { result ≡ within low high value }
    ensures range { IfSome result (λ n. n ≤ high) }
{
    if value < low || value > high {
        return None;
    }
    Some(value)
}

/// The number of 64 bits that 1 to 20 digits write.
fn number_of(digits: &[u8]) -> Option<u64>
    ensures { result ≡ number most_digits 0 last_number digits.now }
{
    if digits.len() < 20 {
        return read_number(digits, 19, 0, u64::MAX);
    }
    let (first, others) = digits.split_first()?;
    number_behind(*first, others)
}

/// The same of the first digit and of at least 19 others.
fn number_behind(first: u8, others: &[u8]) -> Option<u64>
    requires { 19 ≤ length others.now }
    ensures { result ≡ number most_digits 0 last_number (first ∷ others.now) }
{
    match first {
        b'0' => read_number(others, 19, 0, u64::MAX),
        b'1' => number_behind_one(others),
        _ => None,
    }
}

/// The same behind the digit 1.
fn number_behind_one(others: &[u8]) -> Option<u64>
    requires { 19 ≤ length others.now }
    ensures { result ≡ number most_digits 0 last_number (49 ∷ others.now) }
{
    let rest = read_number(others, 19, 0, u64::MAX - TWENTY_DIGITS)?;
    Some(TWENTY_DIGITS + rest)
}
