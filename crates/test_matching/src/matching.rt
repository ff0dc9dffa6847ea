//! The rules of matching on a small timetable, around both changes of the clock.

ghost use Rattle.std.specs.Prelude.{◌≡◌, map, IfOk};
ghost use Rattle.trip_match_defs.specs.Autumn as fall;
ghost use Rattle.trip_match_defs.specs.Autumn.{autumn_places};
ghost use Rattle.trip_match_defs.specs.Frequent as often;
ghost use Rattle.trip_match_defs.specs.Frequent.{frequent_derived, frequent_patterns, frequent_places, frequent_trips};

use rt_types::{Bytes, Text, TripRef, TripRelation};
use sample_city::{NoMemory, city, place, routes, stops, trip, trips};
use sched_types::{Place, Plan, PlanDerived, PlanName, PlanParts, PlanPattern, Run, Trip};
use std::alloc::Global;
use std::test::Fail;
use trip_match::{Found, Why, find};

fn autumn_places(alloc: Global) -> Result<Vec<Vec<Place>>, NoMemory>
    ensures { IfOk result (λ places. map (λ v. v.items) places.items ≡ autumn_places) }
{
    let night = vec![in alloc; place(0, 1, 90600, 90600), place(3, 2, 92400, 92400)]?;
    let first = vec![in alloc; place(0, 1, 28800, 28800), place(3, 2, 30600, 30600)]?;
    let second = vec![in alloc; place(1, 1, 28800, 28800), place(3, 2, 30000, 30000)]?;
    Ok(vec![in alloc; night, first, second]?)
}

/// Around the change to winter time of 26 October 2025.
fn autumn(alloc: Global) -> Result<Plan, NoMemory>
    ensures { IfOk result (λ plan. plan ≡ fall.autumn) }
{
    let parts = PlanParts {
        agencies: vec![in alloc; PlanName::new(alloc, "A")?]?,
        stops: stops(alloc)?,
        routes: routes(alloc)?,
        trips: trips(alloc)?,
        places: autumn_places(alloc)?,
        active: vec![in alloc; vec![in alloc; 0, 1]?]?,
        first: 20251025,
        bases: vec![in alloc; 1761343200, 1761433200, 1761519600]?,
        patterns: Vec::new(alloc),
        derived: Vec::new(alloc),
    };
    Plan::build(alloc, parts)
}

/// T2 by its starts at eight and at half past eight, in the place of T2.
fn frequent_trips(alloc: Global) -> Result<Vec<Trip>, NoMemory>
    ensures { IfOk result (λ trips. trips.items ≡ frequent_trips) }
{
    let night = trip(alloc, "N1")?;
    let first = trip(alloc, "T1")?;
    let eight = trip(alloc, "T2@08:00:00")?;
    let half_past = trip(alloc, "T2@08:30:00")?;
    Ok(vec![in alloc; night, first, eight, half_past]?)
}

fn frequent_places(alloc: Global) -> Result<Vec<Vec<Place>>, NoMemory>
    ensures { IfOk result (λ places. map (λ v. v.items) places.items ≡ frequent_places) }
{
    let night = vec![in alloc; place(0, 1, 90600, 90600), place(3, 2, 92400, 92400)]?;
    let first = vec![in alloc; place(0, 1, 28800, 28800), place(3, 2, 30600, 30600)]?;
    let eight = vec![in alloc; place(1, 1, 28800, 28800), place(3, 2, 30000, 30000)]?;
    let half_past = vec![in alloc; place(1, 1, 30600, 30600), place(3, 2, 31800, 31800)]?;
    Ok(vec![in alloc; night, first, eight, half_past]?)
}

/// T2, and T3 that never starts.
fn frequent_patterns(alloc: Global) -> Result<Vec<PlanPattern>, NoMemory>
    ensures { IfOk result (λ patterns. patterns.items ≡ frequent_patterns) }
{
    let second = PlanPattern {
        id: PlanName::new(alloc, "T2")?,
        places: 2,
    };
    let third = PlanPattern {
        id: PlanName::new(alloc, "T3")?,
        places: 2,
    };
    Ok(vec![in alloc; second, third]?)
}

fn frequent_derived(alloc: Global) -> Result<Vec<PlanDerived>, NoMemory>
    ensures { IfOk result (λ derived. derived.items ≡ frequent_derived) }
{
    let eight = PlanDerived {
        pattern: 0,
        start: 28800,
        trip: 2,
    };
    let half_past = PlanDerived {
        pattern: 0,
        start: 30600,
        trip: 3,
    };
    Ok(vec![in alloc; eight, half_past]?)
}

/// On the days of the autumn, with patterns.
fn frequent(alloc: Global) -> Result<Plan, NoMemory>
    ensures { IfOk result (λ plan. plan ≡ often.frequent) }
{
    let parts = PlanParts {
        agencies: vec![in alloc; PlanName::new(alloc, "A")?]?,
        stops: stops(alloc)?,
        routes: routes(alloc)?,
        trips: frequent_trips(alloc)?,
        places: frequent_places(alloc)?,
        active: vec![in alloc; vec![in alloc; 0, 1]?]?,
        first: 20251025,
        bases: vec![in alloc; 1761343200, 1761433200, 1761519600]?,
        patterns: frequent_patterns(alloc)?,
        derived: frequent_derived(alloc)?,
    };
    Plan::build(alloc, parts)
}

/// The text, if it is not empty; an absent one else.
fn text(alloc: Global, text: &str) -> Result<Option<Text>, NoMemory> {
    if text.is_empty() {
        Ok(None)
    } else {
        Ok(Some(Text::new(alloc, text)?))
    }
}

/// The descriptor of a trip by its id and its date, where they are not empty.
fn named(
    alloc: Global,
    id: &str,
    date: &str,
    relation: Option<TripRelation>,
) -> Result<TripRef, NoMemory> {
    Ok(TripRef {
        trip_id: text(alloc, id)?,
        start_time: None,
        start_date: text(alloc, date)?,
        relation,
        route_id: None,
        direction_id: None,
        unknown: Bytes::from_vec(Vec::new(alloc)),
    })
}

/// What is found of a trip by its id, with a date where it is not empty.
fn by_name(
    alloc: Global,
    plan: &Plan,
    id: &str,
    date: &str,
    stamp: u64,
) -> Result<Found, NoMemory> {
    let trip = named(alloc, id, date, None)?;
    Ok(find(plan, &trip, stamp))
}

/// What is found of a trip of that relation.
fn related(
    alloc: Global,
    plan: &Plan,
    id: &str,
    date: &str,
    relation: TripRelation,
) -> Result<Found, NoMemory> {
    let trip = named(alloc, id, date, Some(relation))?;
    Ok(find(plan, &trip, 0))
}

/// What is found of a trip of the route by its date and time.
fn departing(alloc: Global, plan: &Plan, date: &str, time: &str) -> Result<Found, NoMemory> {
    let trip = TripRef {
        trip_id: Some(Text::new(alloc, "")?),
        start_time: text(alloc, time)?,
        start_date: text(alloc, date)?,
        relation: Some(TripRelation::Scheduled),
        route_id: Some(Text::new(alloc, "R7")?),
        direction_id: Some(0),
        unknown: Bytes::from_vec(Vec::new(alloc)),
    };
    Ok(find(plan, &trip, 0))
}

/// What is found of a trip by its id, its start_time and its date, where they are not empty, in the
/// morning of 25 October 2025.
fn starting(
    alloc: Global,
    plan: &Plan,
    id: &str,
    time: &str,
    date: &str,
) -> Result<Found, NoMemory> {
    let mut trip = named(alloc, id, date, None)?;
    trip.start_time = text(alloc, time)?;
    Ok(find(plan, &trip, 1761377000))
}

fn run(trip: u32, day: u32) -> Found {
    Found::Run(Run { trip, day })
}

#[test]
fn a_night_trip_is_that_of_the_day_before(rt: HostRuntime) -> Result<(), Fail> {
    let alloc = rt.alloc();
    let plan = city(alloc)?;
    for (stamp, found) in [
        (1743293700, run(0, 0)),
        // The last second of winter time and the first of summer time.
        (1743296399, run(0, 0)),
        (1743296400, run(0, 0)),
        (1743335700, run(0, 0)),
        (1743335701, run(0, 1)),
    ] {
        assert_eq!(rt;
            by_name(alloc, &plan, "N1", "", stamp)?,
            found,
            "at {stamp}"
        );
    }
    Ok(())
}

#[test]
fn an_hour_that_comes_twice_is_of_one_day(rt: HostRuntime) -> Result<(), Fail> {
    let alloc = rt.alloc();
    let plan = autumn(alloc)?;
    for (id, date, stamp, found) in [
        ("N1", "", 1761438600, run(0, 0)),
        ("N1", "", 1761442200, run(0, 0)),
        ("N1", "", 1761479701, run(0, 1)),
        ("T1", "20251026", 0, run(1, 1)),
    ] {
        assert_eq!(rt;
            by_name(alloc, &plan, id, date, stamp)?,
            found,
            "{id} at {stamp}"
        );
    }
    Ok(())
}

#[test]
fn each_reason_is_told(rt: HostRuntime) -> Result<(), Fail> {
    let alloc = rt.alloc();
    let plan = autumn(alloc)?;
    for (id, date, stamp, why) in [
        ("T9", "20251026", 0, Why::NoTrip),
        ("T1", "20251028", 0, Why::NoDay),
        ("T1", "", u64::MAX, Why::NoDay),
        ("T1", "20251027", 0, Why::NotActive),
        ("T9", "20250229", 0, Why::BadText),
    ] {
        let found = by_name(alloc, &plan, id, date, stamp)?;
        assert_eq!(rt; found, Found::NoMatch(why), "{id} on {date}");
    }
    Ok(())
}

#[test]
fn relations_go_before_dates(rt: HostRuntime) -> Result<(), Fail> {
    let alloc = rt.alloc();
    let plan = autumn(alloc)?;
    for (id, date, relation, found) in [
        (
            "T1",
            "x",
            TripRelation::Replacement,
            Found::NoMatch(Why::Relation),
        ),
        ("X", "x", TripRelation::Added, Found::NoMatch(Why::BadText)),
        ("X", "", TripRelation::Added, Found::Added),
        ("", "", TripRelation::Added, Found::NoMatch(Why::NoTrip)),
        ("T1", "20251026", TripRelation::Canceled, run(1, 1)),
    ] {
        assert_eq!(rt;
            related(alloc, &plan, id, date, relation)?,
            found,
            "{id} on {date}"
        );
    }
    Ok(())
}

#[test]
fn trips_are_found_without_their_ids(rt: HostRuntime) -> Result<(), Fail> {
    let alloc = rt.alloc();
    let plan = autumn(alloc)?;
    for (date, time, found) in [
        ("20251026", "25:10:00", run(0, 1)),
        ("20251026", "8:00:00", Found::NoMatch(Why::Several)),
        ("20251026", "08:00:01", Found::NoMatch(Why::NoTrip)),
        ("20251028", "08:00", Found::NoMatch(Why::BadText)),
        ("20251026", "", Found::NoMatch(Why::NoTrip)),
    ] {
        assert_eq!(rt;
            departing(alloc, &plan, date, time)?,
            found,
            "{date} {time}"
        );
    }
    Ok(())
}

#[test]
fn the_start_time_says_which_trip_of_a_pattern(rt: HostRuntime) -> Result<(), Fail> {
    let alloc = rt.alloc();
    let plan = frequent(alloc)?;
    let day = "20251026";
    for (id, time, date, found) in [
        ("T2", "8:00:00", day, run(2, 1)),
        ("T2", "08:30:00", day, run(3, 1)),
        ("T2", "08:30:00", "", run(3, 0)),
        // The id of a derived trip is that of a trip, and of other trips the start_time says
        // nothing.
        ("T2@08:30:00", "", day, run(3, 1)),
        ("T1", "x", day, run(1, 1)),
        ("T2", "8:00:00", "20251027", Found::NoMatch(Why::NotActive)),
    ] {
        assert_eq!(rt;
            starting(alloc, &plan, id, time, date)?,
            found,
            "{id} {time} {date}"
        );
    }
    Ok(())
}

#[test]
fn each_reason_of_a_pattern_is_told(rt: HostRuntime) -> Result<(), Fail> {
    let alloc = rt.alloc();
    let plan = frequent(alloc)?;
    let day = "20251026";
    for (id, time, why) in [
        ("T2", "", Why::Several),
        ("T2", "08:30", Why::BadText),
        ("T2", "08:30:01", Why::NoTrip),
        ("T3", "", Why::NoTrip),
    ] {
        let found = starting(alloc, &plan, id, time, day)?;
        assert_eq!(rt; found, Found::NoMatch(why), "{id} {time}");
    }
    assert_eq!(rt;
        related(alloc, &plan, "T2", "", TripRelation::Added)?,
        Found::Added
    );
    Ok(())
}
