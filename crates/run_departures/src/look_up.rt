//! What a timetable says of a place of a run.

ghost use Rattle.std.specs.Prelude.{◌≡◌, slice_get, ◌+ℤ◌, pos};
ghost use Rattle.sched_types.specs.Timetable.{IsSmall, places_of};
ghost use Rattle.sched_types.specs.Timetable as times;
ghost use Rattle.board_defs.specs.Rows as rule;

use sched_types::{Place, Plan, Run};

/// The place of a run of that number, if there is one.
pub(crate) fn place_of(plan: &Plan, run: Run, number: u32) -> Option<Place>
    ensures { result ≡ slice_get (places_of plan.now run.trip) number }
{
    plan.sound();
    if run.trip < plan.trips() {
        plan.stop_times(run.trip).get(number as usize).copied()
    } else {
        None
    }
}

/// Whether passengers may board at a place (GTFS Schedule, stop_times.txt, pickup_type: 1 is no
/// pickup).
pub(crate) fn may_board(place: Place) -> bool
    ensures { result ≡ rule.may_board place }
{
    place.pickup != 1
}

/// The instant from which the times of a day are counted, in seconds since 1970; 0 past the last
/// day.
fn base_of(plan: &Plan, day: u32) -> i64
    ensures value { result ≡ times.base_of plan.now day }
    ensures small { IsSmall result }
{
    if day < plan.days() { plan.base(day) } else { 0 }
}

/// When a place is left by the timetable, on a day that begins at `base`.
fn left_at(base: i64, place: Place) -> i64
    requires { IsSmall base }
    ensures { result ≡ base +ℤ pos place.departure }
{
    base + i64::from(place.departure)
}

/// When a place of a run is left by the timetable, in seconds since 1970.
pub(crate) fn scheduled_at(plan: &Plan, run: Run, place: Place) -> i64
    ensures { result ≡ rule.scheduled_at plan.now run place }
{
    left_at(base_of(plan, run.day), place)
}
