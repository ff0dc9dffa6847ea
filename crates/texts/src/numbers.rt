//! Numbers of decimal digits.

ghost use Rattle.std.specs.Prelude.{◌≡◌, ◌≤◌, ◌<◌, ◌^◌, length, IfSome};
ghost use Rattle.text_defs.specs.Numbers.{digits_after, number};

/// The number of at most 19 decimal digits, which fits.
pub(crate) fn digits_of(bytes: &[u8]) -> Option<u64>
    requires { length bytes.now ≤ 19 }
    ensures value { result ≡ digits_after 0 bytes.now }
    ensures small { IfSome result (λ n. n < 10 ^ length bytes.now) }
{
    let mut value: u64 = 0;
    for byte in bytes {
        if !byte.is_ascii_digit() {
            return None;
        }
        value = value * 10 + u64::from(*byte - b'0');
    }
    Some(value)
}

/// A number of 1 to `most` decimal digits, of which the first may be 0, from `low` to `high`.
#[tactic(auto, unfolding(text_defs::specs::Numbers::number))]
pub fn read_number(bytes: &[u8], most: usize, low: u64, high: u64) -> Option<u64>
    requires { most ≤ 19 }
    ensures value { result ≡ number most low high bytes.now }
    ensures range { IfSome result (λ n. n ≤ high) }
{
    if bytes.is_empty() || bytes.len() > most {
        return None;
    }
    let value = digits_of(bytes)?;
    if value < low || value > high {
        return None;
    }
    Some(value)
}
