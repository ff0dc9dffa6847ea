//! The departures of stops, as an index hands them out, next to a plain scan of the timetable.

ghost use Rattle.std.specs.Prelude.{◌<◌, length};

use crate::city_files::{AGENCY, ROUTES, STOPS, ZONE, file};
use hub_outside::MemoryFiles;
use rt_types::Text;
use sample_city::city;
use sched_load::{PlanConf, load};
use sched_types::{Plan, Run};
use std::alloc::{AllocError, Global};
use std::test::Fail;
use stop_index::{Slot, StopIndex};

/// A departure by its instant, its trip, its day and its place.
fn slot(at: i64, trip: u32, day: u32, place: u32) -> Slot {
    Slot {
        at,
        run: Run { trip, day },
        place,
    }
}

/// The departures at a stop from an instant on and before another, by an index.
fn found(
    alloc: Global,
    plan: &Plan,
    stop: u32,
    start: i64,
    end: i64,
) -> Result<Vec<Slot>, AllocError> {
    let index = StopIndex::build(alloc, plan)?;
    index.between(plan, stop, start, end).collect(alloc)
}

/// Appends the departures of a run at a stop between two instants.
fn push_run(
    plan: &Plan,
    run: Run,
    stop: u32,
    start: i64,
    end: i64,
    out: &mut Vec<Slot>,
) -> Result<(), AllocError> {
    if !plan.runs(run) {
        return Ok(());
    }
    let base = plan.base(run.day);
    let places = plan.stop_times(run.trip);
    for (number, place) in places.iter().enumerate() {
        let at = base + i64::from(place.departure);
        let leaves = number + 1 < places.len();
        if leaves && place.stop == stop && start <= at && at < end {
            out.push(slot(at, run.trip, run.day, number as u32))?;
        }
    }
    Ok(())
}

/// The same departures, by a scan of all days, trips and places.
fn scanned(
    alloc: Global,
    plan: &Plan,
    stop: u32,
    start: i64,
    end: i64,
) -> Result<Vec<Slot>, AllocError> {
    let mut all = Vec::new(alloc);
    for day in 0..plan.days() {
        for trip in 0..plan.trips() {
            push_run(plan, Run { trip, day }, stop, start, end, &mut all)?;
        }
    }
    all.sort_by(|a, b| a.order(b))?;
    Ok(all)
}

/// Whether index and scan agree at a stop.
fn agrees(alloc: Global, plan: &Plan, stop: u32, start: i64, end: i64) -> Result<bool, AllocError> {
    let by_index = found(alloc, plan, stop, start, end)?;
    let by_scan = scanned(alloc, plan, stop, start, end)?;
    Ok(by_index.as_slice() == by_scan.as_slice())
}

/// A timetable of the city's stops in a window of 400 days from 29 March 2025 on: W and N run on
/// weekdays, S and N2 on Sundays, and all but W go on into later days.
fn year(alloc: Global) -> Result<Plan, AllocError> {
    let trips = b"route_id,service_id,trip_id\nR7,WK,W\nR7,SU,S\nR7,WK,N\nR7,SU,N2\n";
    let stop_times =
        b"trip_id,arrival_time,departure_time,stop_id,stop_sequence\nW,07:00:00,07:00:00,S1,1\nW,07:30:00,07:30:00,S3,2\nW,08:00:00,08:00:00,S1,3\nW,08:30:00,08:30:00,S4,4\nS,23:59:59,23:59:59,S1,1\nS,24:00:00,24:00:00,S3,2\nS,48:00:01,48:00:01,S1,3\nS,49:30:00,49:30:00,S4,4\nN,07:00:00,07:00:00,S1,1\nN,31:00:00,31:00:00,S1,2\nN,55:00:00,55:00:00,S1,3\nN2,07:00:00,07:00:00,S3,1\nN2,31:00:00,31:00:00,S1,2\nN2,32:00:00,32:00:00,S4,3\n";
    let calendar =
        b"service_id,monday,tuesday,wednesday,thursday,friday,saturday,sunday,start_date,end_date\nWK,1,1,1,1,1,0,0,20250329,20261231\nSU,0,0,0,0,0,0,1,20250329,20261231\n";
    let files = vec![in alloc;
        file(alloc, "city/agency.txt", AGENCY)?,
        file(alloc, "city/stops.txt", STOPS)?,
        file(alloc, "city/routes.txt", ROUTES)?,
        file(alloc, "city/trips.txt", trips)?,
        file(alloc, "city/stop_times.txt", stop_times)?,
        file(alloc, "city/calendar.txt", calendar)?,
    ]?;
    let conf = PlanConf {
        zone: Text::new(alloc, ZONE)?,
        first: 20_250_329,
        days: 400,
    };
    match load(
        alloc,
        &mut MemoryFiles::new(files, Vec::new(alloc)),
        "city",
        &conf,
    ) {
        Ok(plan) => Ok(plan),
        Err(_) => Err(AllocError),
    }
}

#[test]
fn a_city_on_both_sides_of_a_change_of_the_clock(rt: HostRuntime) -> Result<(), Fail> {
    let alloc = rt.alloc();
    let plan = city(alloc)?;
    // From S1 T1 leaves at 08:00, and N1 at 25:10.
    let found = found(alloc, &plan, 0, 1743231600, 1743462601)?;
    let expected = [
        slot(1743231600, 1, 0, 0),
        slot(1743293400, 0, 0, 0),
        slot(1743314400, 1, 1, 0),
        slot(1743376200, 0, 1, 0),
        slot(1743400800, 1, 2, 0),
        slot(1743462600, 0, 2, 0),
    ];
    assert_eq!(rt; found.as_slice(), expected.as_slice());
    Ok(())
}

#[test]
fn a_window_has_its_start_and_not_its_end(rt: HostRuntime) -> Result<(), Fail> {
    let alloc = rt.alloc();
    let plan = city(alloc)?;
    let first = found(alloc, &plan, 0, 1743293400, 1743314400)?;
    assert_eq!(rt; first.as_slice(), [slot(1743293400, 0, 0, 0)].as_slice());
    let second = found(alloc, &plan, 0, 1743293401, 1743314401)?;
    assert_eq!(rt; second.as_slice(), [slot(1743314400, 1, 1, 0)].as_slice());
    assert!(rt; found(alloc, &plan, 0, 1743293401, 1743293400)?.is_empty());
    Ok(())
}

#[test]
fn of_one_instant_trips_go_by_their_numbers(rt: HostRuntime) -> Result<(), Fail> {
    let alloc = rt.alloc();
    let plan = city(alloc)?;
    let found = found(alloc, &plan, 1, 1743315660, 1743315661)?;
    let expected = [slot(1743315660, 1, 1, 2), slot(1743315660, 2, 1, 0)];
    assert_eq!(rt; found.as_slice(), expected.as_slice());
    Ok(())
}

#[test]
fn stops_without_departures_have_none(rt: HostRuntime) -> Result<(), Fail> {
    let alloc = rt.alloc();
    let plan = city(alloc)?;
    // The hill, where trips end, the station, whose platforms are stops of their own, and no stop
    // at all.
    for stop in [3, 4, 5, u32::MAX] {
        assert!(rt; found(alloc, &plan, stop, i64::MIN, i64::MAX)?.is_empty());
    }
    let plain = Plan::plain(alloc);
    assert!(rt; found(alloc, &plain, 0, i64::MIN, i64::MAX)?.is_empty());
    Ok(())
}

#[test]
fn times_go_past_one_and_two_midnights(rt: HostRuntime) -> Result<(), Fail> {
    let alloc = rt.alloc();
    let plan = year(alloc)?;
    // The trips are N, N2, S and W. On Sunday 30 March N2 is at S1 at 31:00 and S at 23:59:59 and
    // 48:00:01; on the two days after, W and N run.
    let found = found(alloc, &plan, 0, i64::MIN, 1743580800)?;
    let expected = [
        slot(1743371999, 2, 1, 0),
        slot(1743397200, 0, 2, 0),
        slot(1743397200, 1, 1, 1),
        slot(1743397200, 3, 2, 0),
        slot(1743400800, 3, 2, 2),
        slot(1743458401, 2, 1, 2),
        slot(1743483600, 0, 2, 1),
        slot(1743483600, 0, 3, 0),
        slot(1743483600, 3, 3, 0),
        slot(1743487200, 3, 3, 2),
        slot(1743570000, 0, 3, 1),
        slot(1743570000, 0, 4, 0),
        slot(1743570000, 3, 4, 0),
        slot(1743573600, 3, 4, 2),
    ];
    assert_eq!(rt; found.as_slice(), expected.as_slice());
    Ok(())
}

#[test]
fn all_departures_of_four_hundred_days(rt: HostRuntime) -> Result<(), Fail> {
    let alloc = rt.alloc();
    let plan = year(alloc)?;
    for stop in 0..5 {
        assert!(rt; agrees(alloc, &plan, stop, i64::MIN, i64::MAX)?);
    }
    // A day, a week and an hour within it, with the change of the clock in October.
    assert!(rt; agrees(alloc, &plan, 0, 1761343200, 1761433200)?);
    assert!(rt; agrees(alloc, &plan, 0, 1761343200, 1761948000)?);
    assert!(rt; agrees(alloc, &plan, 2, 1761368400, 1761372000)?);
    let count = found(alloc, &plan, 0, i64::MIN, i64::MAX)?.len();
    assert_eq!(rt; count, 4 * 285 + 3 * 57);
    Ok(())
}
