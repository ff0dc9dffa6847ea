// The run on the near day whose span lies nearest to an instant.
ghost use Rattle.std.specs.Prelude.{◌≡◌, ◌<◌, ◌||◌, Some, None, pos, ◌+ℤ◌, ◌≤ℤ◌, length, slice_get, if◌then◌else◌, IfSome};
ghost use Rattle.sched_types.specs.Timetable.{IsSmall, places_of};
ghost use Rattle.trip_match_defs.specs.Matching as rule;
ghost use Rattle.trip_match_defs.specs.Matching.{is_near, is_near_noon, runs_near};

use sched_types::{Plan, Run};
use trip_match_defs::{Found, Near, Why};

/// Noon, in seconds from the base of a day.
const NOON: i64 = 43_200;

/// How long before and behind its noon a day is near: a day and a half.
const REACH: i64 = 129_600;

/// The instant, if the day with that base is near it.
fn near_instant(base: i64, stamp: u64) -> Option<i64>
    requires { IsSmall base }
    ensures value { result
        ≡ (if is_near_noon (base +ℤ pos 43200) (pos stamp) then Some (pos stamp) else None) }
    ensures positive { IfSome result (λ instant. pos 0 ≤ℤ instant) }
    ensures early { IfSome result (λ instant. instant ≤ℤ pos 2_000_000_000_000) }
{
    match i64::try_from(stamp) {
        Ok(instant) => {
            let noon = base + NOON;
            if noon - REACH <= instant && instant < noon + REACH {
                Some(instant)
            } else {
                None
            }
        }
        Err(_) => None,
    }
}

/// How far an instant lies outside of the span from one time of a day to another.
fn gap(base: i64, first: u32, last: u32, instant: i64) -> i64
    requires small { IsSmall base }
    requires positive { pos 0 ≤ℤ instant }
    requires early { instant ≤ℤ pos 2_000_000_000_000 }
    ensures { result ≡ rule.seconds_outside (base +ℤ pos first) (base +ℤ pos last) instant }
{
    let first = base + i64::from(first);
    let last = base + i64::from(last);
    if instant < first {
        first - instant
    } else if last < instant {
        instant - last
    } else {
        0
    }
}

/// How far an instant lies outside of a run, on a day with that base.
fn near_at(plan: &Plan, run: Run, base: i64, instant: i64) -> Near
    requires trip { run.trip < length plan.now.trips }
    requires many { 1 < length (places_of plan.now run.trip) }
    requires base { slice_get plan.now.bases run.day ≡ Some base }
    requires small { IsSmall base }
    requires positive { pos 0 ≤ℤ instant }
    requires early { instant ≤ℤ pos 2_000_000_000_000 }
    ensures { result ≡ rule.near_at plan.now run.trip instant run.day }
{
    let places = plan.stop_times(run.trip);
    let first = places[0];
    let last = places[places.len() - 1];
    Near {
        day: run.day,
        gap: gap(base, first.departure, last.arrival, instant),
    }
}

/// The nearer of two; where both are as near, the earlier one.
fn nearer(best: Option<Near>, near: Near) -> Option<Near>
    ensures { result ≡ rule.nearer best near }
{
    match best {
        Some(best) if near.gap < best.gap => Some(near),
        Some(best) => Some(best),
        None => Some(near),
    }
}

/// What is known after some days of the window.
#[derive(Clone, Copy)]
struct Seen {
    /// One of them is near.
    any_near: bool,
    /// The nearest of those that are near and on which the trip runs.
    best: Option<Near>,
}

/// The same after one day more.
fn look(plan: &Plan, trip: u32, stamp: u64, day: u32, seen: Seen) -> Seen
    requires trip { trip < length plan.now.trips }
    requires day { day < length plan.now.bases }
    ensures any { result.any_near ≡ (seen.any_near || is_near plan.now (pos stamp) day) }
    ensures best { result.best
        ≡ (if runs_near plan.now trip (pos stamp) day
        then rule.nearer seen.best (rule.near_at plan.now trip (pos stamp) day)
        else seen.best) }
{
    let base = plan.base(day);
    match near_instant(base, stamp) {
        Some(instant) => {
            let run = Run { trip, day };
            let best = if plan.runs(run) {
                nearer(seen.best, near_at(plan, run, base, instant))
            } else {
                seen.best
            };
            Seen {
                any_near: true,
                best,
            }
        }
        None => seen,
    }
}

/// The run of the trip on the near day whose span lies nearest to the instant.
pub(crate) fn by_near(plan: &Plan, trip: u32, stamp: u64) -> Found
    requires { trip < length plan.now.trips }
    ensures { result ≡ rule.by_near plan.now (pos stamp) trip }
{
    let mut seen = Seen {
        any_near: false,
        best: None,
    };
    for day in 0..plan.days() {
        seen = look(plan, trip, stamp, day, seen);
    }
    if seen.any_near {
        match seen.best {
            Some(near) => Found::Run(Run {
                trip,
                day: near.day,
            }),
            None => Found::NoMatch(Why::NotActive),
        }
    } else {
        Found::NoMatch(Why::NoDay)
    }
}
