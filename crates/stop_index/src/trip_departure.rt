//! A departure of a trip, on whatever day the trip runs.

ghost use Rattle.std.specs.Prelude.{◌≡◌, pos, ◌+ℤ◌};
ghost use Rattle.sched_types.specs.Timetable.{IsSmall};
ghost use Rattle.stop_index.specs.Left as rule;

use crate::slot::Slot;
use sched_types::Run;

/// A departure of a trip from one of its places. Those of a stop go by time, trip and place.
#[derive(Clone, Copy, Debug, PartialEq, Eq, PartialOrd, Ord, Drop)]
pub(crate) struct TripDeparture {
    /// When, in seconds from the base of the day.
    pub(crate) seconds: u32,
    /// The number of the trip.
    pub(crate) trip: u32,
    /// The number of the place in order of `stop_sequence`, from 0.
    pub(crate) place: u32,
}

/// The same on a day whose times are counted from `base`.
pub(crate) fn slot_at(base: i64, day: u32, departure: TripDeparture) -> Slot
    requires { IsSmall base }
    ensures { result ≡ rule.slot_at base day departure }
{
    Slot {
        at: base + i64::from(departure.seconds),
        run: Run {
            trip: departure.trip,
            day,
        },
        place: departure.place,
    }
}
