//! How long something may take.
ghost use Rattle.std.specs.Prelude.{◌≡◌, ◌≤◌, IfSome};
ghost use Rattle.hub_outside.specs.Decisions.{milliseconds_of, time_left};

use std::time::Duration;
use std::{io, rt};

/// The moment of a clock that never goes back, in milliseconds since a start of its own; or none,
/// where it can't be read.
pub(crate) fn moment<C: rt::Clock>(clock: &C) -> Option<u64> {
    milliseconds_of(clock.monotonic())
}

/// The whole milliseconds of a reading.
fn milliseconds_of(reading: io::Result<Duration>) -> Option<u64>
    ensures { result ≡ milliseconds_of reading }
{
    match reading {
        Ok(time) => Some(time.as_millis().min(u128::from(u64::MAX)) as u64),
        Err(_) => None,
    }
}

/// How many milliseconds are left of a limit that began at a moment; or none, once it has passed. A
/// moment that is still to come has used none of it.
pub(crate) fn time_left(limit: u64, since: u64, now: u64) -> Option<u64>
    ensures left { result ≡ time_left limit since now }
    ensures some { IfSome result (λ left. 1 ≤ left) }
{
    let passed = now.saturating_sub(since);
    if limit <= passed {
        None
    } else {
        Some(limit - passed)
    }
}
