//! Times of a service day.

ghost use Rattle.std.specs.Prelude.{◌≡◌, ◌<◌, [], ◌∷◌, IfSome};
ghost use Rattle.text_defs.specs.Numbers.{digits};
ghost use Rattle.text_defs.specs.Times.{clock_of, sixtieth, time_in};

use crate::numbers::digits_of;

/// Two digits, below 60.
fn read_sixtieth(tens: u8, ones: u8) -> Option<u32>
    ensures value { result ≡ sixtieth (tens ∷ ones ∷ []) }
    ensures small { IfSome result (λ n. n < 60) }
{
    if !tens.is_ascii_digit() || !ones.is_ascii_digit() {
        return None;
    }
    let value = u32::from(tens - b'0') * 10 + u32::from(ones - b'0');
    if value < 60 { Some(value) } else { None }
}

/// One to three digits of hours.
fn read_hours(bytes: &[u8]) -> Option<u32>
    ensures value { result ≡ digits 1 3 bytes.now }
    ensures small { IfSome result (λ n. n < 1000) }
{
    if bytes.is_empty() || bytes.len() > 3 {
        return None;
    }
    let hours = digits_of(bytes)?;
    Some(hours as u32)
}

/// The seconds of the hours and of what stands behind them.
fn read_clock(hours: &[u8], behind: &[u8]) -> Option<u32>
    ensures { result ≡ clock_of hours.now behind.now }
{
    let [colon, a, b, second_colon, c, d] = behind else {
        return None;
    };
    if *colon != b':' || *second_colon != b':' {
        return None;
    }
    let hours = read_hours(hours)?;
    let minutes = read_sixtieth(*a, *b)?;
    let seconds = read_sixtieth(*c, *d)?;
    Some(hours * 3600 + minutes * 60 + seconds)
}

/// A time H:MM:SS, HH:MM:SS or HHH:MM:SS in seconds, of which the hours may pass a day (GTFS
/// Schedule, "Field Types", Time).
#[tactic(auto, unfolding(text_defs::specs::Times::time_in))]
pub fn read_time(bytes: &[u8]) -> Option<u32>
    ensures { result ≡ time_in bytes.now }
{
    let (hours, behind) = bytes.split_at(bytes.len().saturating_sub(6));
    read_clock(hours, behind)
}
