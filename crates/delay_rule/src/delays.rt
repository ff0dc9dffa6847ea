// What an update tells of the place that it takes.
ghost use Rattle.std.specs.Prelude.{◌≡◌, true, pos, ◌+ℤ◌, ◌-ℤ◌, IfSome};
ghost use Rattle.text_defs.specs.Moments.{is_instant};
ghost use Rattle.sched_types.specs.Timetable.{IsSmall};
ghost use Rattle.delay_rule_defs.specs.Delays as rule;
ghost use Rattle.delay_rule_defs.specs.Delays.{assigned_stop, relation_of, state_by};
ghost use Rattle.delay_rule.specs.Near.{IsNear, IsNearState};
ghost use Rattle.delay_rule.specs.Pass.{told_by};

use crate::places::assigned_stop;
use delay_rule_defs::StopState;
use rt_types::{Event, StopRelation, StopUpdate};
use sched_types::{Place, Plan};
use texts::is_instant;

/// How far a time that counts lies behind what is scheduled so many seconds after `base`.
fn seconds_behind(time: i64, base: i64, seconds: u32) -> i64
    requires counts { is_instant time ≡ true }
    requires small { IsSmall base }
    ensures value { result ≡ time -ℤ (base +ℤ pos seconds) }
    ensures near { IsNear result }
{
    time - (base + i64::from(seconds))
}

/// An event's own delay, or that of a whole trip update, as states have it.
pub(crate) fn widened(delay: Option<i32>) -> Option<i64>
    ensures value { result ≡ delay }
    ensures near { IfSome result IsNear }
{
    match delay {
        Some(delay) => Some(i64::from(delay)),
        None => None,
    }
}

/// The delay that an event tells, if it tells one, of what is scheduled so many seconds after
/// `base`.
fn event_delay(event: &Option<Event>, base: i64, seconds: u32) -> Option<i64>
    requires { IsSmall base }
    ensures value { result ≡ rule.event_delay (base +ℤ pos seconds) event.now }
    ensures near { IfSome result IsNear }
{
    match event {
        Some(event) => match event.time {
            Some(time) if is_instant(time) => Some(seconds_behind(time, base, seconds)),
            _ => widened(event.delay),
        },
        None => None,
    }
}

/// A place of which no update says anything.
pub(crate) fn plain(carry: Option<i64>) -> StopState
    ensures { result ≡ rule.plain carry }
{
    StopState {
        skipped: false,
        arrival: carry,
        departure: carry,
        stop: None,
    }
}

/// The state of a place that an update takes, with the delay that is carried to it. The departure's
/// delay is what is carried on.
pub(crate) fn state_of(
    plan: &Plan,
    update: &StopUpdate,
    place: Place,
    base: i64,
    carry: Option<i64>,
) -> StopState
    requires small { IsSmall base }
    requires carry { IfSome carry IsNear }
    ensures value { result
        ≡ state_by (relation_of update.now) (told_by base place update.now)
        (assigned_stop plan.now update.now) carry }
    ensures near { IsNearState result }
{
    match update.relation.unwrap_or(StopRelation::Scheduled) {
        StopRelation::Skipped => StopState {
            skipped: true,
            arrival: carry,
            departure: carry,
            stop: None,
        },
        StopRelation::NoData | StopRelation::Unscheduled => plain(None),
        StopRelation::Scheduled => {
            let arrival = event_delay(&update.arrival, base, place.arrival).or(carry);
            let departure = event_delay(&update.departure, base, place.departure).or(arrival);
            StopState {
                skipped: false,
                arrival,
                departure,
                stop: assigned_stop(plan, update),
            }
        }
    }
}
