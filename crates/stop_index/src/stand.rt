//! Where an iterator over the departures of a stop stands.

ghost use Rattle.std.specs.Prelude.{◌≡◌, ◌∷◌, ◌<ℤ◌, true, false, Some, IfNone, IfSome};
ghost use Rattle.std.specs.List.Sorted.{IsSorted};
ghost use Rattle.sched_types.specs.Timetable.{IsSmall};
ghost use Rattle.stop_index.specs.Index.{departure_cmp};
ghost use Rattle.stop_index.specs.Left.{slots_from, IsOver, IsReady};
ghost use Rattle.stop_index.specs.First.{goes_before, soonest, until_of};
ghost use Rattle.stop_index.specs.Stand.{IsAhead, Stands};

use crate::days::first_day_left;
use crate::reached::Reached;
use crate::search::{ahead_on, first_of_others, first_run, until};
use crate::slot::Slot;
use crate::trip_departure::TripDeparture;
use sched_types::Plan;

/// Where an iterator over departures stands: at one day, next to all others.
#[derive(Drop)]
pub(crate) struct Stand<'a> {
    pub(crate) reached: Reached,
    /// On no day before this one is a departure left.
    pub(crate) first_day: u32,
    /// The day at which it stands; the number of days, where it stands at none.
    pub(crate) day: u32,
    /// From when the times of that day are counted, in seconds of the Unix epoch.
    pub(crate) base: i64,
    /// The departures that are still to come on that day.
    pub(crate) ahead: &'a [TripDeparture],
    /// The first departure that is left on all other days.
    pub(crate) other: Option<Slot>,
}

/// The departures that are still to come on a day, and from when its times are counted; none past
/// the last day.
fn day_ahead<'a>(
    plan: &Plan,
    departures: &'a [TripDeparture],
    day: u32,
    reached: &Reached,
) -> (i64, &'a [TripDeparture])
    requires { IsSorted departure_cmp departures.now }
    ensures { IsAhead plan.now departures.now reached.now day result.0 result.1.now }
{
    if day < plan.days() {
        let base = plan.base(day);
        (base, ahead_on(departures, base, day, reached))
    } else {
        (0, &[])
    }
}

/// Where an iterator stands that came so far, and stands at that day.
pub(crate) fn stand_at<'a>(
    plan: &Plan,
    departures: &'a [TripDeparture],
    days_rise: bool,
    first_day: u32,
    day: u32,
    reached: Reached,
    end: i64,
) -> Stand<'a>
    requires { IsReady plan.now departures.now days_rise reached first_day }
    ensures reached { result.reached ≡ reached }
    ensures over { IsOver plan.now departures.now reached result.first_day }
    ensures stands { Stands plan.now departures.now reached end
        result.day result.base result.ahead.now result.other }
{
    let first_day = first_day_left(plan, departures, days_rise, first_day, &reached);
    let other = first_of_others(plan, departures, days_rise, first_day, day, &reached, end);
    let (base, ahead) = day_ahead(plan, departures, day, &reached);
    Stand {
        reached,
        first_day,
        day,
        base,
        ahead,
        other,
    }
}

/// Whether a departure goes before another one, if there is one.
fn is_earlier(slot: &Slot, other: &Option<Slot>) -> bool
    ensures { result ≡ goes_before slot.now other.now }
{
    match other {
        Some(other) => slot.order(other).is_lt(),
        None => true,
    }
}

/// The first departure of the day at which an iterator stands, and those after it, where it goes
/// before those of all other days.
pub(crate) fn first_here<'a>(
    plan: &Plan,
    stand: &Stand<'a>,
    end: i64,
) -> Option<(Slot, &'a [TripDeparture])>
    requires small { IsSmall stand.now.base }
    requires sorted { IsSorted departure_cmp stand.now.ahead.now }
    requires other { IfSome stand.now.other (λ slot. slot.at <ℤ end) }
    ensures found { IfSome result (λ found. soonest plan.now stand.now.base stand.now.day
        (until_of stand.now.other end) stand.now.ahead.now ≡ Some found.0) }
    ensures earlier { IfSome result (λ found. goes_before found.0 stand.now.other ≡ true) }
    ensures rest { IfSome result (λ found.
        slots_from plan.now stand.now.base stand.now.day stand.now.ahead.now
        ≡ found.0 ∷ slots_from plan.now stand.now.base stand.now.day found.1.now) }
    ensures in_order { IfSome result (λ found. IsSorted departure_cmp found.1.now) }
    ensures none { IfNone result (IfSome (soonest plan.now stand.now.base stand.now.day
        (until_of stand.now.other end) stand.now.ahead.now)
        (λ slot. goes_before slot stand.now.other ≡ false)) }
{
    let until = until(&stand.other, end);
    let found = first_run(plan, stand.ahead, stand.base, stand.day, until)?;
    if is_earlier(&found.0, &stand.other) {
        Some(found)
    } else {
        None
    }
}
