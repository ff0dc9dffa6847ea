//! How often something is told.

ghost use Rattle.std.specs.Prelude.{◌≡◌};
ghost use Rattle.hub_outside.specs.Count.{one_more};
ghost use Rattle.hub_ports.specs.Pacing.{new_pace, is_due, due_at, pace_after, told_at, rest_of, pace_at_rest, seconds_of};

use std::io;
use std::time::Duration;

/// For how many seconds nothing more is told, once something was.
const PAUSE: u64 = 60;

/// How often something happens that is told at once the first time, and from there on once a minute
/// at most. Moments are in seconds, of a clock that never goes back.
#[derive(Clone, Copy, Debug, PartialEq, Eq)]
pub struct Pace {
    told: Option<u64>,
    untold: u64,
}

impl Pace {
    /// It has not happened yet.
    pub fn new() -> Pace
        ensures { result ≡ new_pace }
    {
        Pace {
            told: None,
            untold: 0,
        }
    }

    /// It happens once more, at that moment. Where it is to be told now: how often it has happened
    /// since it was told last.
    pub fn count(&mut self, now: u64) -> Option<u64>
        ensures due { result ≡ due_at self.old now }
        ensures after { self.new ≡ pace_after self.old now }
    {
        let count = self.untold.saturating_add(1);
        if is_due(self.told, now) {
            self.told = Some(now);
            self.untold = 0;
            Some(count)
        } else {
            self.untold = count;
            None
        }
    }

    /// It happens once more, and is told at that moment, whatever was told before: how often it has
    /// happened since it was told last.
    pub fn count_at_once(&mut self, now: u64) -> u64
        ensures count { result ≡ one_more self.old.untold }
        ensures after { self.new ≡ told_at now }
    {
        let count = self.untold.saturating_add(1);
        self.told = Some(now);
        self.untold = 0;
        count
    }

    /// How often it has happened since it was told last, where it has. From here on that is told.
    pub fn rest(&mut self) -> Option<u64>
        ensures rest { result ≡ rest_of self.old }
        ensures after { self.new ≡ pace_at_rest self.old }
    {
        let count = self.untold;
        self.untold = 0;
        if count == 0 { None } else { Some(count) }
    }
}

/// Whether something may be told at a moment, that was told last at another.
fn is_due(told: Option<u64>, now: u64) -> bool
    ensures { result ≡ is_due told now }
{
    match told {
        Some(told) => now.saturating_sub(told) >= PAUSE,
        None => true,
    }
}

/// The whole seconds of a reading, and 0 where the clock can't be read.
pub(crate) fn seconds_of(reading: io::Result<Duration>) -> u64
    ensures { result ≡ seconds_of reading }
{
    match reading {
        Ok(time) => time.as_secs(),
        Err(_) => 0,
    }
}
