//! A departure of a run.

ghost use Rattle.std.specs.Prelude.{◌≡◌};
ghost use Rattle.stop_index.specs.Slots.{slot_cmp};

use sched_types::Run;
use std::cmp::Ordering;

/// A departure of a run from a place of its trip.
#[derive(Clone, Copy, Debug, PartialEq, Eq)]
pub struct Slot {
    /// When it leaves by the timetable, in seconds of the Unix epoch.
    pub at: i64,
    /// The run.
    pub run: Run,
    /// The number of the place in order of `stop_sequence`, from 0.
    pub place: u32,
}

impl Slot {
    /// By the instant, the trip, the day and the place.
    pub fn order(&self, other: &Slot) -> Ordering
        ensures { result ≡ slot_cmp self.now other.now }
    {
        self.at
            .cmp(&other.at)
            .then(self.run.trip.cmp(&other.run.trip))
            .then(self.run.day.cmp(&other.run.day))
            .then(self.place.cmp(&other.place))
    }
}
