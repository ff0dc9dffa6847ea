//! How many departures an index hands out.

ghost use Rattle.std.specs.Prelude.{◌≡◌, ◌≤◌};
ghost use Rattle.stop_index.specs.Index.{index_of};

use crate::Tally;
use crate::words::Departures;
use hub_load::{HubFault, load_plans};
use hub_outside::Files;
use sched_types::Plan;
use std::alloc::Global;
use stop_index::StopIndex;

/// The departures at all stops between two instants, so often.
fn handed_out(index: &StopIndex, plan: &Plan, start: i64, end: i64, times: u64) -> u64
    requires { index.now ≡ index_of plan.now }
{
    let mut all: u64 = 0;
    for _ in 0..times {
        all = all.saturating_add(at_each_stop(index, plan, start, end));
    }
    all
}

/// The departures at a stop between two instants.
fn at_stop(index: &StopIndex, plan: &Plan, stop: u32, start: i64, end: i64) -> u64
    requires { index.now ≡ index_of plan.now }
{
    let mut all: u64 = 0;
    for _departure in index.between(plan, stop, start, end) {
        all = all.saturating_add(1);
    }
    all
}

/// The departures at all stops between two instants.
fn at_each_stop(index: &StopIndex, plan: &Plan, start: i64, end: i64) -> u64
    requires { index.now ≡ index_of plan.now }
{
    let mut all: u64 = 0;
    for stop in 0..plan.counts().stops {
        all = all.saturating_add(at_stop(index, plan, stop, start, end));
    }
    all
}

/// Makes the index of the first timetable, and counts the departures that are asked for.
pub fn counted<F: Files>(
    alloc: Global,
    files: &mut F,
    asked: &Departures,
) -> Result<Tally, HubFault>
    requires start { asked.now.start ≤ 10000000000 }
    requires span { asked.now.span ≤ 10000000000 }
{
    let plans = load_plans(alloc, files, asked.conf.as_str())?;
    let Some(named) = plans.plans().first() else {
        return Err(HubFault::FileFault);
    };
    let Ok(index) = StopIndex::build(alloc, &named.plan) else {
        return Err(HubFault::NoMemory);
    };
    let start = asked.start as i64;
    let end = start + asked.span as i64;
    let looks = handed_out(&index, &named.plan, start, end, asked.times);
    Ok(Tally { looks, accepted: 0 })
}
