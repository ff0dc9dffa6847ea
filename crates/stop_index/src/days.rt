//! On which days departures may still come.

ghost use Rattle.std.specs.Prelude.{◌≡◌, ℕ, ◌<◌, ◌≤◌, IsTrue, pos, ◌+ℤ◌, ◌<ℤ◌, int_le, int_lt, ◌&&◌, length};
ghost use Rattle.std.specs.List.{All};
ghost use Rattle.std.specs.List.Sorted.{IsSorted};
ghost use Rattle.sched_types.specs.Timetable.{base_of};
ghost use Rattle.stop_index.specs.Index.{departure_cmp, days_are_rising};
ghost use Rattle.stop_index.specs.Left.{IsOver, instant_of};

use crate::reached::Reached;
use crate::trip_departure::TripDeparture;
use sched_types::Plan;

/// Whether the base of each day of the window is no later than that of the next.
pub(crate) fn days_rise(plan: &Plan) -> bool
    ensures { result ≡ days_are_rising plan.now }
{
    for day in 1..plan.days() {
        if plan.base(day) < plan.base(day - 1) {
            return false;
        }
    }
    true
}

/// The latest time of some departures, in seconds from the base of a day.
fn longest(departures: &[TripDeparture]) -> u32
    requires { IsSorted departure_cmp departures.now }
    ensures { All (λ departure. departure.seconds ≤ result) departures.now }
{
    match departures.last() {
        Some(last) => last.seconds,
        None => 0,
    }
}

/// Whether a day ends before an instant, where its last time is `longest`.
fn ends_before(plan: &Plan, day: u32, longest: u32, instant: i64) -> bool
    requires { day < length plan.now.bases }
    ensures { result ≡ int_lt (base_of plan.now day +ℤ pos longest) instant }
{
    plan.base(day) + i64::from(longest) < instant
}

/// How many days end before an instant, where the last time of each is `longest`.
fn days_before(plan: &Plan, longest: u32, instant: i64) -> u32
    requires { IsTrue (days_are_rising plan.now) }
    ensures within { result ≤ length plan.now.bases }
    ensures before { (day : ℕ) → day < result → (base_of plan.now day +ℤ pos longest) <ℤ instant }
{
    let mut low = 0;
    let mut high = plan.days();
    while low < high {
        let middle = low + (high - low) / 2;
        if ends_before(plan, middle, longest, instant) {
            low = middle + 1;
        } else {
            high = middle;
        }
    }
    low
}

/// A day before which no departure is to come: the given one, or a later one where that one is
/// over.
pub(crate) fn first_day_left(
    plan: &Plan,
    departures: &[TripDeparture],
    days_rise: bool,
    day: u32,
    reached: &Reached,
) -> u32
    requires sorted { IsSorted departure_cmp departures.now }
    requires rise { days_rise ≡ days_are_rising plan.now }
    requires over { IsOver plan.now departures.now reached.now day }
    ensures { IsOver plan.now departures.now reached.now result }
{
    let longest = longest(departures);
    let instant = reached.instant();
    if days_rise && day < plan.days() && ends_before(plan, day, longest, instant) {
        days_before(plan, longest, instant)
    } else {
        day
    }
}

/// Whether no day from that one on begins before an instant.
pub(crate) fn begin_after(plan: &Plan, days_rise: bool, day: u32, instant: i64) -> bool
    requires { day < length plan.now.bases }
    ensures { result ≡ (days_rise && int_le instant (base_of plan.now day)) }
{
    days_rise && instant <= plan.base(day)
}
