//! The states of a trip of twenty places, which is left at 08:00:00, 08:01:00 and so on, and of one
//! of the small city.

ghost use Rattle.std.specs.Prelude.{◌≡◌, ◌<◌, map, IfOk};
ghost use Rattle.std.specs.List.{range_with_len};
ghost use Rattle.delay_rule_defs.specs.Line as example;
ghost use Rattle.delay_rule_defs.specs.Line.{line_place};

use delay_rule::{NoMemory, Steps, StopState, walk};
use rt_types::{
    Bytes, Event, Items, StopProps, StopRelation, StopUpdate, Text, TripRef, TripUpdate,
};
use sample_city::city;
use sched_types::{Place, Plan, PlanName, PlanParts, Route, Run, Stop, Trip};
use std::alloc::Global;
use std::marker::Brand;
use std::sync::ledger::{Blank, Ledger};
use std::test::Fail;

const RUN: Run = Run { trip: 0, day: 0 };

/// T1 of the city on 30 March 2025: by the stops S1, S3, S2 and S4, whose numbers are 0, 2, 1 and
/// 3, with the sequences 1, 2, 5 and 9.
const CITY_RUN: Run = Run { trip: 1, day: 1 };

fn places(alloc: Global) -> Result<Vec<Place>, NoMemory>
    ensures { IfOk result (λ places. places.items ≡ map line_place (range_with_len 0 20)) }
{
    let mut places = Vec::new(alloc);
    for i in 0..20 {
        places.push(Place {
            stop: 0,
            sequence: i + 1,
            arrival: 28_800 + 60 * i,
            departure: 28_800 + 60 * i,
            pickup: 0,
        })?;
    }
    Ok(places)
}

fn stops(alloc: Global) -> Result<Vec<Stop>, NoMemory>
    ensures { IfOk result (λ stops. stops.items ≡ example.line.stops) }
{
    Ok(vec![in alloc;
        Stop {
            id: PlanName::new(alloc, "P")?,
            name: PlanName::new(alloc, "Pole")?,
            parent: None,
        },
    ]?)
}

fn routes(alloc: Global) -> Result<Vec<Route>, NoMemory>
    ensures { IfOk result (λ routes. routes.items ≡ example.line.routes) }
{
    Ok(vec![in alloc;
        Route {
            id: PlanName::new(alloc, "L")?,
            agency: None,
            short: PlanName::new(alloc, "L")?,
            long: PlanName::new(alloc, "")?,
            kind: 3,
        },
    ]?)
}

fn trips(alloc: Global) -> Result<Vec<Trip>, NoMemory>
    ensures { IfOk result (λ trips. trips.items ≡ example.line.trips) }
{
    Ok(vec![in alloc;
        Trip {
            id: PlanName::new(alloc, "T")?,
            route: 0,
            service: 0,
            headsign: PlanName::new(alloc, "End")?,
            direction: None,
        },
    ]?)
}

fn line(alloc: Global) -> Result<Plan, NoMemory>
    ensures { IfOk result (λ plan. plan ≡ example.line) }
{
    let parts = PlanParts {
        agencies: Vec::new(alloc),
        stops: stops(alloc)?,
        routes: routes(alloc)?,
        trips: trips(alloc)?,
        places: vec![in alloc; places(alloc)?]?,
        active: vec![in alloc; vec![in alloc; 0]?]?,
        first: 20250330,
        bases: vec![in alloc; 1743285600]?,
        patterns: Vec::new(alloc),
        derived: Vec::new(alloc),
    };
    Plan::build(alloc, parts)
}

/// An event with that delay.
fn late(alloc: Global, seconds: i32) -> Option<Event> {
    Some(Event {
        delay: Some(seconds),
        time: None,
        uncertainty: None,
        unknown: Bytes::from_vec(Vec::new(alloc)),
    })
}

/// An event at that time.
fn at(alloc: Global, time: i64) -> Option<Event> {
    Some(Event {
        delay: None,
        time: Some(time),
        uncertainty: None,
        unknown: Bytes::from_vec(Vec::new(alloc)),
    })
}

/// An update of the place with that `stop_sequence`.
fn update_of(
    alloc: Global,
    sequence: u32,
    departure: Option<Event>,
    relation: Option<StopRelation>,
) -> StopUpdate {
    StopUpdate {
        stop_sequence: Some(sequence),
        arrival: None,
        departure,
        stop_id: None,
        relation,
        properties: None,
        unknown: Bytes::from_vec(Vec::new(alloc)),
    }
}

fn trip_update(alloc: Global, delay: Option<i32>, updates: Vec<StopUpdate>) -> TripUpdate {
    TripUpdate {
        trip: TripRef {
            trip_id: None,
            start_time: None,
            start_date: None,
            relation: None,
            route_id: None,
            direction_id: None,
            unknown: Bytes::from_vec(Vec::new(alloc)),
        },
        stop_time_update: Items::new(updates),
        vehicle: None,
        timestamp: None,
        delay,
        unknown: Bytes::from_vec(Vec::new(alloc)),
    }
}

/// The states of a run under an update, with a count of steps of its own.
fn counted<L: Ledger>(
    alloc: Global,
    plan: &Plan,
    run: Run,
    update: &TripUpdate,
    blank: Blank,
) -> Result<Vec<StopState>, NoMemory>
    requires name { blank.name ≡ L.name }
    requires parts { blank.parts ≡ L.parts }
    requires some { 0 < blank.parts }
{
    let mut out = Vec::new(alloc);
    let mut steps = Steps::<L>::new(blank);
    if plan.runs(run) {
        walk(plan, run, update, &mut out, &mut steps)?;
    }
    Ok(out)
}

/// The states of the trip of twenty places under an update.
fn told(alloc: Global, update: &TripUpdate) -> Result<Vec<StopState>, NoMemory> {
    let plan = line(alloc)?;
    counted::<Brand>(alloc, &plan, RUN, update, Blank::new(1))
}

/// The states of the city's trip.
fn told_in_city(alloc: Global, update: &TripUpdate) -> Result<Vec<StopState>, NoMemory> {
    let plan = city(alloc)?;
    counted::<Brand>(alloc, &plan, CITY_RUN, update, Blank::new(1))
}

/// The delay with which the place of that `stop_sequence` is left.
fn departs(states: &[StopState], sequence: usize) -> Option<i64> {
    match states.get(sequence.saturating_sub(1)) {
        Some(state) => state.departure,
        None => None,
    }
}

/// When that place is left, as far as is known.
fn leaves(states: &[StopState], sequence: usize) -> i64 {
    let scheduled = 1743314340 + 60 * (sequence % 32) as i64;
    scheduled.saturating_add(departs(states, sequence).unwrap_or(0))
}

/// Whether that place is skipped.
fn skips(states: &[StopState], sequence: usize) -> bool {
    match states.get(sequence.saturating_sub(1)) {
        Some(state) => state.skipped,
        None => false,
    }
}

#[test]
fn a_delay_holds_up_to_the_next_one(rt: HostRuntime) -> Result<(), Fail> {
    let alloc = rt.alloc();
    let updates = vec![in alloc;
        update_of(alloc, 3, late(alloc, 300), None),
        update_of(alloc, 8, late(alloc, 60), Some(StopRelation::Scheduled)),
        update_of(alloc, 10, None, Some(StopRelation::NoData)),
    ]?;
    let states = told(alloc, &trip_update(alloc, None, updates))?;
    assert_eq!(rt; states.len(), 20);
    for (sequence, delay, left) in [
        (2, None, 1743314460),
        (7, Some(300), 1743315060),
        (9, Some(60), 1743314940),
        (10, None, 1743314940),
    ] {
        let told = (departs(&states, sequence), leaves(&states, sequence));
        assert_eq!(rt; told, (delay, left), "at {sequence}");
    }
    Ok(())
}

#[test]
fn a_skipped_place_passes_its_delay_on(rt: HostRuntime) -> Result<(), Fail> {
    let alloc = rt.alloc();
    let updates = vec![in alloc;
        update_of(alloc, 3, late(alloc, 300), None),
        update_of(alloc, 5, None, Some(StopRelation::Skipped)),
        update_of(alloc, 8, late(alloc, 60), None),
        update_of(alloc, 10, None, Some(StopRelation::NoData)),
    ]?;
    let states = told(alloc, &trip_update(alloc, None, updates))?;
    let skipped = [skips(&states, 4), skips(&states, 5), skips(&states, 6)];
    assert_eq!(rt; skipped, [false, true, false]);
    let told = (departs(&states, 6), leaves(&states, 6));
    assert_eq!(rt; told, (Some(300), 1743315000));
    Ok(())
}

#[test]
fn each_relation_has_its_effect(rt: HostRuntime) -> Result<(), Fail> {
    let alloc = rt.alloc();
    let updates = vec![in alloc;
        update_of(alloc, 2, None, Some(StopRelation::Scheduled)),
        update_of(
            alloc,
            4,
            at(alloc, 1743314640),
            Some(StopRelation::Scheduled)
        ),
        update_of(alloc, 6, at(alloc, 1743314640), Some(StopRelation::Skipped)),
        update_of(
            alloc,
            8,
            at(alloc, 1743314640),
            Some(StopRelation::Unscheduled)
        ),
        update_of(alloc, 1, late(alloc, 7), None),
        update_of(alloc, 12, late(alloc, -30), None),
        update_of(alloc, 21, late(alloc, 5), None),
        update_of(alloc, 14, None, Some(StopRelation::NoData)),
    ]?;
    let states = told(alloc, &trip_update(alloc, Some(9), updates))?;
    for (sequence, delay) in [
        (1, Some(9)),
        (2, Some(9)),
        (4, Some(60)),
        (6, Some(60)),
        (8, None),
        (11, None),
        (13, Some(-30)),
        (20, None),
    ] {
        assert_eq!(rt; departs(&states, sequence), delay, "at {sequence}");
    }
    Ok(())
}

#[test]
fn a_stop_is_found_by_its_id(rt: HostRuntime) -> Result<(), Fail> {
    let alloc = rt.alloc();
    let mut first = update_of(alloc, 0, late(alloc, 5), None);
    first.stop_sequence = None;
    first.stop_id = Some(Text::new(alloc, "P")?);
    let mut other = update_of(alloc, 0, late(alloc, 7), None);
    other.stop_sequence = None;
    other.stop_id = Some(Text::new(alloc, "Q")?);
    let states = told(
        alloc,
        &trip_update(alloc, None, vec![in alloc; other, first]?),
    )?;
    let delays = [departs(&states, 1), departs(&states, 20)];
    assert_eq!(rt; delays, [Some(5), Some(5)]);
    Ok(())
}

/// The update of a place, with an assigned stop.
fn to_stop(alloc: Global, id: &str, update: StopUpdate) -> Result<StopUpdate, NoMemory> {
    let mut update = update;
    update.properties = Some(StopProps {
        assigned_stop_id: Some(Text::new(alloc, id)?),
        unknown: Bytes::from_vec(Vec::new(alloc)),
    });
    Ok(update)
}

/// The number of the stop to which a place, by its number from 0 on, is moved.
fn moved_to(states: &[StopState], place: usize) -> Option<u32> {
    match states.get(place) {
        Some(state) => state.stop,
        None => None,
    }
}

/// The stops to which the four places of the city's trip are moved.
fn stops_of(states: &[StopState]) -> [Option<u32>; 4] {
    [
        moved_to(states, 0),
        moved_to(states, 1),
        moved_to(states, 2),
        moved_to(states, 3),
    ]
}

#[test]
fn an_assigned_stop_holds_for_its_place_alone(rt: HostRuntime) -> Result<(), Fail> {
    let alloc = rt.alloc();
    let first = to_stop(alloc, "S2", update_of(alloc, 1, late(alloc, 300), None))?;
    let update = trip_update(alloc, None, vec![in alloc; first]?);
    let states = told_in_city(alloc, &update)?;
    assert_eq!(rt; states.len(), 4);
    assert_eq!(rt; stops_of(&states), [Some(1), None, None, None]);
    let delays = [departs(&states, 1), departs(&states, 2)];
    assert_eq!(rt; delays, [Some(300), Some(300)]);
    Ok(())
}

#[test]
fn only_scheduled_updates_assign_stops(rt: HostRuntime) -> Result<(), Fail> {
    let alloc = rt.alloc();
    let skipped = update_of(alloc, 1, None, Some(StopRelation::Skipped));
    let no_data = update_of(alloc, 2, None, Some(StopRelation::NoData));
    let updates = vec![in alloc;
        to_stop(alloc, "S2", skipped)?,
        to_stop(alloc, "S2", no_data)?,
        to_stop(alloc, "S1", update_of(alloc, 5, None, None))?,
        to_stop(alloc, "S9", update_of(alloc, 9, None, None))?,
    ]?;
    let states = told_in_city(alloc, &trip_update(alloc, None, updates))?;
    assert!(rt; skips(&states, 1));
    assert_eq!(rt; stops_of(&states), [None, None, Some(0), None]);
    Ok(())
}
