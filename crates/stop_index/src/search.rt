//! The first of the departures that are left.

ghost use Rattle.std.specs.Prelude.{◌≡◌, ◌∷◌, ◌<◌, ◌<ℤ◌, filter, length, slice_get, option_map, IfSome};
ghost use Rattle.std.specs.List.Sorted.{IsSorted};
ghost use Rattle.sched_types.specs.Timetable.{IsSmall};
ghost use Rattle.stop_index.specs.Index.{departure_cmp};
ghost use Rattle.stop_index.specs.Left.{is_ahead, is_left, slot_at, slots_from, slots_on, others_on, others_before, IsReady};
ghost use Rattle.stop_index.specs.First.{IsFirst, earlier_of, soonest, until_of};

use crate::days::begin_after;
use crate::reached::Reached;
use crate::slot::Slot;
use crate::trip_departure::{TripDeparture, slot_at};
use sched_types::Plan;

/// Those departures that are still to come on a day whose times are counted from `base`.
pub(crate) fn ahead_on<'a>(
    departures: &'a [TripDeparture],
    base: i64,
    day: u32,
    reached: &Reached,
) -> &'a [TripDeparture]
    requires sorted { IsSorted departure_cmp departures.now }
    requires small { IsSmall base }
    ensures { result.now
        ≡ filter (λ departure. is_ahead reached.now (slot_at base day departure)) departures.now }
{
    let first = departures.partition_point(|departure| !reached.is_before(&slot_at(
        base, day, *departure,
    )));
    &departures[first..]
}

/// The first departure of a run of the day, and those after it; none if it doesn't leave before
/// `end`.
pub(crate) fn first_run<'a>(
    plan: &Plan,
    departures: &'a [TripDeparture],
    base: i64,
    day: u32,
    end: i64,
) -> Option<(Slot, &'a [TripDeparture])>
    requires sorted { IsSorted departure_cmp departures.now }
    requires small { IsSmall base }
    ensures first { option_map (λ found. found.0) result
        ≡ soonest plan.now base day end departures.now }
    ensures rest { IfSome result (λ found. slots_from plan.now base day departures.now
        ≡ found.0 ∷ slots_from plan.now base day found.1.now) }
    ensures in_order { IfSome result (λ found. IsSorted departure_cmp found.1.now) }
{
    for (i, departure) in departures.iter().enumerate() {
        let slot = slot_at(base, day, *departure);
        if slot.at >= end {
            return None;
        }
        if plan.runs(slot.run) {
            return Some((slot, &departures[i + 1..]));
        }
    }
    None
}

/// The first departure of a run that is left on a day, before `end`.
fn first_on(
    plan: &Plan,
    departures: &[TripDeparture],
    day: u32,
    reached: &Reached,
    end: i64,
) -> Option<Slot>
    requires sorted { IsSorted departure_cmp departures.now }
    requires day { day < length plan.now.bases }
    ensures { result
        ≡ slice_get (filter (is_left reached.now end) (slots_on plan.now departures.now day)) 0 }
{
    let base = plan.base(day);
    let ahead = ahead_on(departures, base, day, reached);
    match first_run(plan, ahead, base, day, end) {
        Some((slot, _)) => Some(slot),
        None => None,
    }
}

/// The same, and none on the day that is set apart.
fn first_on_other(
    plan: &Plan,
    departures: &[TripDeparture],
    apart: u32,
    day: u32,
    reached: &Reached,
    end: i64,
) -> Option<Slot>
    requires sorted { IsSorted departure_cmp departures.now }
    requires day { day < length plan.now.bases }
    ensures { result
        ≡ slice_get (filter (is_left reached.now end)
        (others_on plan.now departures.now apart day)) 0 }
{
    if day == apart {
        None
    } else {
        first_on(plan, departures, day, reached, end)
    }
}

/// The earlier of two departures, if there are such.
fn earlier(best: Option<Slot>, found: Option<Slot>) -> Option<Slot>
    ensures { result ≡ earlier_of best found }
{
    match (best, found) {
        (Some(best), Some(found)) => {
            if found.order(&best).is_lt() {
                Some(found)
            } else {
                Some(best)
            }
        }
        (Some(best), None) => Some(best),
        (None, found) => found,
    }
}

/// Before which instant a departure has to leave to be the first of all: one that leaves after the
/// best so far is none.
pub(crate) fn until(best: &Option<Slot>, end: i64) -> i64
    requires { IfSome best.now (λ slot. slot.at <ℤ end) }
    ensures { result ≡ until_of best.now end }
{
    match best {
        Some(slot) => slot.at + 1,
        None => end,
    }
}

/// The first departure that is left on any day but the one that is set apart.
pub(crate) fn first_of_others(
    plan: &Plan,
    departures: &[TripDeparture],
    days_rise: bool,
    first_day: u32,
    apart: u32,
    reached: &Reached,
    end: i64,
) -> Option<Slot>
    requires { IsReady plan.now departures.now days_rise reached.now first_day }
    ensures { IsFirst (is_left reached.now end)
        (others_before plan.now departures.now apart (length plan.now.bases)) result }
{
    let mut best = None;
    for day in first_day..plan.days() {
        let until = until(&best, end);
        if begin_after(plan, days_rise, day, until) {
            break;
        }
        best = earlier(
            best,
            first_on_other(plan, departures, apart, day, reached, until),
        );
    }
    best
}
