//! At which stops an added trip calls, and when.

ghost use Rattle.std.specs.Prelude.{◌≡◌, ◌<◌, IfOk, IfSome};
ghost use Rattle.std.specs.List.{All};
ghost use Rattle.delay_rule_defs.specs.Delays.{relation_of};
ghost use Rattle.board_defs.specs.Rows as rule;
ghost use Rattle.board_added.specs.Added.{IsCall};

use crate::NoMemory;
use board_defs::Call;
use board_parts::stop_named;
use rt_types::{Event, StopRelation, StopUpdate, TripUpdate};
use sched_types::Plan;
use std::alloc::Global;
use texts::is_instant;

/// The time that an event tells, where it is a moment, in seconds since 1970.
fn moment_of(event: &Option<Event>) -> Option<i64>
    ensures { result ≡ rule.moment_of event.now }
{
    match event {
        Some(event) => match event.time {
            Some(time) if is_instant(time) => Some(time),
            _ => None,
        },
        None => None,
    }
}

/// When a call leaves: the time of its departure, or else of its arrival.
fn leaves_at(update: &StopUpdate) -> Option<i64>
    ensures { result ≡ rule.leaves_at update.now }
{
    match moment_of(&update.departure) {
        Some(time) => Some(time),
        None => moment_of(&update.arrival),
    }
}

/// Whether the vehicle stops there, and its times are told.
fn is_served(update: &StopUpdate) -> bool
    ensures { result ≡ rule.is_served (relation_of update.now) }
{
    match update.relation.unwrap_or(StopRelation::Scheduled) {
        StopRelation::Scheduled => true,
        StopRelation::Skipped | StopRelation::NoData | StopRelation::Unscheduled => false,
    }
}

/// The call that is told by a stop and a time, where both are there.
fn call_at(stop: Option<u32>, leaves: Option<i64>) -> Option<Call>
    ensures { result ≡ rule.call_at stop leaves }
{
    match (stop, leaves) {
        (Some(stop), Some(leaves)) => Some(Call { stop, leaves }),
        _ => None,
    }
}

/// The call that a stop time update tells, if it tells one.
fn call_of(plan: &Plan, update: &StopUpdate) -> Option<Call>
    ensures value { result ≡ rule.call_of plan.now update.now }
    ensures within { IfSome result (IsCall plan.now) }
{
    if is_served(update) {
        call_at(stop_named(plan, &update.stop_id), leaves_at(update))
    } else {
        None
    }
}

/// The calls of an added trip, in their order; or want of memory.
pub(crate) fn calls_of(
    alloc: Global,
    plan: &Plan,
    update: &TripUpdate,
) -> Result<Vec<Call>, NoMemory>
    ensures value { IfOk result (λ calls. calls.items ≡ rule.calls_of plan.now update.now) }
    ensures within { IfOk result (λ calls. All (IsCall plan.now) calls.items) }
{
    let mut calls = Vec::new(alloc);
    for stop_update in update.stop_time_update.as_slice() {
        if let Some(call) = call_of(plan, stop_update) {
            calls.push(call)?;
        }
    }
    Ok(calls)
}
