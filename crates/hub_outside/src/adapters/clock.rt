//! The system's clock.
ghost use Rattle.std.specs.Prelude.{◌≡◌, None};
ghost use Rattle.hub_outside.specs.Adapters.{clock_system};
ghost use Rattle.hub_outside.specs.Decisions.{moment_of};

use crate::clocks::Clock;
use std::time::Duration;
use std::{io, rt};
use texts::LAST_MOMENT;

/// The system's wall clock. A clock that cannot be read, or stands before 1970, shows 0, and one
/// past [`LAST_MOMENT`] shows that.
#[derive(Drop)]
pub struct SystemClock<C> {
    system: C,
}

impl<C: rt::Clock> SystemClock<C> {
    /// The clock of this runtime.
    pub fn new(system: C) -> SystemClock<C>
        ensures { clock_system result ≡ system }
    {
        SystemClock { system }
    }
}

impl<C: rt::Clock> Clock for SystemClock<C> {
    ghost ahead = { λ _. None };

    fn now(&mut self) -> u64 {
        moment_of(self.system.since_1970())
    }
}

/// The moment of a reading.
fn moment_of(reading: io::Result<Duration>) -> u64
    ensures { result ≡ moment_of reading }
{
    match reading {
        Ok(time) => time.as_secs().min(LAST_MOMENT),
        Err(_) => 0,
    }
}
