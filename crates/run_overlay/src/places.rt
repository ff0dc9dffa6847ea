//! The departures of a run, by the update that counts for it.

ghost use Rattle.std.specs.Prelude.{◌≡◌, ◌+◌, ◌<◌, ◌++◌, length, unwrap_or, pos, ◌+ℤ◌, IfOk, IfSome, IsTrue, OnOk};
ghost use Rattle.std.specs.List.{All, filter_map};
ghost use Rattle.std.specs.Option.{option_to_list};
ghost use Rattle.sched_types.specs.Timetable.{IsSmall, is_run, places_of};
ghost use Rattle.delay_rule.specs.Near.{IsNear, IsNearState};
ghost use Rattle.board_defs.specs.Rows as boards;
ghost use Rattle.sched_types.specs.Runs.{departures_of};
ghost use Rattle.run_overlay.specs.Live as rule;
ghost use Rattle.run_overlay.specs.Turning.{place_by, rows_with};

use crate::NoMemory;
use crate::row::LiveRow;
use crate::shown::{Sign, by_relation, state_at};
use crate::slot::LiveSlot;
use delay_rule::{Steps, StopState, walk};
use rt_types::{TripRelation, TripUpdate};
use sched_types::{Place, Plan, Run};
use std::alloc::Global;
use std::sync::ledger::Ledger;

/// Whether passengers may board at a place (GTFS Schedule, stop_times.txt, pickup_type: 1 is no
/// pickup).
fn may_board(place: Place) -> bool
    ensures { result ≡ boards.may_board place }
{
    place.pickup != 1
}

/// When a place is expected to be left, on a day that begins at `base`.
fn expected_at(base: i64, place: Place, delay: Option<i64>) -> i64
    requires small { IsSmall base }
    requires near { IfSome delay IsNear }
    ensures { result ≡ (base +ℤ pos place.departure) +ℤ unwrap_or delay (pos 0) }
{
    base + i64::from(place.departure) + delay.unwrap_or(0)
}

/// The departure from a place, by what is known of it.
fn live_row(plan: &Plan, run: Run, number: u32, place: Place, sign: Sign) -> LiveRow
    requires day { run.day < length plan.now.bases }
    requires near { IfSome sign.delay IsNear }
    ensures { result ≡ rule.live_row plan.now run (number, place) sign }
{
    let base = plan.base(run.day);
    LiveRow {
        stop: sign.stop.unwrap_or(place.stop),
        slot: LiveSlot {
            at: expected_at(base, place, sign.delay),
            run,
            place: number,
            state: sign.state,
            delay: sign.delay,
        },
    }
}

/// The departure from a place of a run, if there is one, by the relation of its update and the
/// states of its places.
fn place_row(
    plan: &Plan,
    run: Run,
    relation: TripRelation,
    states: &[StopState],
    number: u32,
    place: Place,
) -> Option<LiveRow>
    requires day { run.day < length plan.now.bases }
    requires near { All IsNearState states.now }
    ensures { result ≡ place_by plan.now run relation states.now (number, place) }
{
    if !may_board(place) {
        return None;
    }
    match by_relation(relation, state_at(states, number as usize)) {
        Some(sign) => Some(live_row(plan, run, number, place, sign)),
        None => None,
    }
}

/// Appends a departure, if there is one.
fn push_some(rows: &mut Vec<LiveRow>, row: Option<LiveRow>) -> Result<(), NoMemory>
    ensures { OnOk result (rows.new.items ≡ rows.old.items ++ option_to_list row) }
{
    if let Some(row) = row {
        rows.push(row)?;
    }
    Ok(())
}

/// The departures of a run; or out of memory. Nobody boards at the last place. Within a caller its
/// loop would lack registers.
#[inline(never)]
fn place_rows(
    alloc: Global,
    plan: &Plan,
    run: Run,
    relation: TripRelation,
    states: &[StopState],
) -> Result<Vec<LiveRow>, NoMemory>
    requires trip { run.trip < length plan.now.trips }
    requires day { run.day < length plan.now.bases }
    requires many { 1 < length (places_of plan.now run.trip) }
    requires near { All IsNearState states.now }
    ensures { IfOk result (λ rows. rows.items
        ≡ filter_map (place_by plan.now run relation states.now)
        (departures_of plan.now run.trip)) }
{
    let places = plan.stop_times(run.trip);
    let places = &places[..places.len() - 1];
    let mut rows = Vec::with_capacity(alloc, places.len())?;
    for (i, place) in places.iter().enumerate() {
        let row = place_row(plan, run, relation, states, i as u32, *place);
        push_some(&mut rows, row)?;
    }
    Ok(rows)
}

/// The departures of a run by an update about it, in order of places; or out of memory. It is one
/// walk, whose states are written over what the list had, so that runs one after another need no
/// list each.
pub(crate) fn rows_of_run<L: Ledger>(
    alloc: Global,
    plan: &Plan,
    run: Run,
    update: &TripUpdate,
    states: &mut Vec<StopState>,
    steps: &mut Steps<L>,
) -> Result<Vec<LiveRow>, NoMemory>
    requires { IsTrue (is_run plan.now run) }
    ensures rows { IfOk result (λ rows. rows.items ≡ rows_with plan.now run update.now) }
    ensures counted { steps.new ≡ steps.old + 1 }
{
    states.clear();
    walk(plan, run, update, states, steps)?;
    let relation = update.trip.relation.unwrap_or(TripRelation::Scheduled);
    place_rows(alloc, plan, run, relation, states.as_slice())
}
