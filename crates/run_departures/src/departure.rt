//! A departure of a run.

ghost use Rattle.std.specs.Prelude.{◌≡◌};
ghost use Rattle.run_departures.specs.Departures.{departure_cmp};

use board_defs::RowState;
use sched_types::Run;
use std::cmp::Ordering;

/// A departure from a place of a run, with the number of the stop at which it leaves. Instants are
/// in seconds since 1970, delays in seconds.
#[derive(Clone, Copy)]
pub struct Departure {
    /// When it is expected to leave.
    pub expected: i64,
    /// The run.
    pub run: Run,
    /// The number of the place in order of `stop_sequence`, from 0.
    pub place: u32,
    /// The number of the stop.
    pub stop: u32,
    /// When it leaves by the timetable.
    pub scheduled: i64,
    /// How late it is, where that is known; negative where it is early.
    pub delay: Option<i64>,
    /// What is known of it.
    pub state: RowState,
}

impl Departure {
    /// By the expected instant, the trip, the day and the place. Numbers of trips and of days stand
    /// as the texts of their ids and dates, so this is the order of the rows.
    pub fn order(&self, other: &Departure) -> Ordering
        ensures { result ≡ departure_cmp self.now other.now }
    {
        self.expected
            .cmp(&other.expected)
            .then(self.run.trip.cmp(&other.run.trip))
            .then(self.run.day.cmp(&other.run.day))
            .then(self.place.cmp(&other.place))
    }
}
