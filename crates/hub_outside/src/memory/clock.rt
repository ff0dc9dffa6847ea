//! A clock of given readings.
ghost use Rattle.std.specs.Prelude.{◌≡◌, ◌<◌, ◌≤◌, All, Some, length, slice_get, vec_len};
ghost use Rattle.text_defs.specs.Moments.{last_moment};
ghost use Rattle.hub_outside.specs.Clock.{after_reading};

use crate::clocks::Clock;
use std::marker::Model;

/// A clock that shows given readings in order, and the last of them ever after. Contracts see it as
/// the readings ahead.
#[derive(Drop)]
pub struct FixedClock {
    readings: Vec<u64>,
    at: usize,
}

impl Model for FixedClock {
    ghost use Rattle.std.specs.Prelude.{ℕ, List, ◌<◌, ◌≤◌, All, drop, vec_len};
    ghost use Rattle.text_defs.specs.Moments.{last_moment};

    ghost Value = { List ℕ };

    ghost view = { λ c. drop c.at c.readings.items };

    ghost invariant = { λ c. (c.at < vec_len c.readings)
        × All (λ r. r ≤ last_moment) c.readings.items };
}

impl FixedClock {
    /// A clock of these readings, in seconds since 1970. It takes no memory.
    pub fn new(readings: Vec<u64>) -> FixedClock
        requires some { 0 < vec_len readings }
        requires range { All (λ reading. reading ≤ last_moment) readings.items }
        ensures { result ≡ readings.items }
    {
        FixedClock { readings, at: 0 }
    }
}

impl Clock for FixedClock {
    ghost ahead = { λ readings. Some readings };

    fn now(&mut self) -> u64
        ensures range { result ≤ last_moment }
        ensures reading { slice_get self.old 0 ≡ Some result }
        ensures ahead { self.new ≡ after_reading self.old }
    {
        let reading = self.readings[self.at];
        if self.at + 1 < self.readings.len() {
            self.at += 1;
        }
        reading
    }
}
