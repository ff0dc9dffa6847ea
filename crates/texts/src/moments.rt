//! Which numbers are moments.

ghost use Rattle.std.specs.Prelude.{◌≡◌};
ghost use Rattle.text_defs.specs.Moments.{is_stamp, is_instant};

use crate::LAST_MOMENT;

/// Whether a stamp is a moment, in seconds since 1970: from the first second on, up to the end of
/// the year 9999.
pub fn is_stamp(stamp: u64) -> bool
    ensures { result ≡ is_stamp stamp }
{
    1 <= stamp && stamp <= LAST_MOMENT
}

/// The same of a time that may be negative.
pub fn is_instant(time: i64) -> bool
    ensures { result ≡ is_instant time }
{
    1 <= time && time <= LAST_MOMENT as i64
}
