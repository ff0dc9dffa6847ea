//! One timetable in several forms of its files, which give equal plans.

use crate::city_files::{AGENCY, CALENDAR, ROUTES, STOP_TIMES, STOPS, TRIPS, ZONE, file, loaded};
use hub_outside::MemoryFiles;
use sched_types::Plan;
use std::alloc::{AllocError, Global};
use std::test::Fail;

/// The files of the folder `city`, as a user may have them.
const PLAIN: [(&str, &[u8]); 6] = [
    ("city/agency.txt", AGENCY),
    ("city/stops.txt", STOPS),
    ("city/routes.txt", ROUTES),
    ("city/trips.txt", TRIPS),
    ("city/stop_times.txt", STOP_TIMES),
    ("city/calendar.txt", CALENDAR),
];

/// The same with a byte order mark, swapped columns, a column more, and rows cut before empty last
/// fields.
const CHANGED: [(&str, &[u8]); 6] = [
    (
        "city/agency.txt",
        b"\xef\xbb\xbfagency_name,agency_id\nCity,A\n",
    ),
    (
        "city/stops.txt",
        b"\xef\xbb\xbfstop_name,stop_id,location_type,parent_station\nMarket,ST,1\nMarket A,S1,0,ST\nMarket B,S2,0,ST\nHarbour,S3\nHill,S4\n",
    ),
    (
        "city/routes.txt",
        b"route_color,route_type,route_short_name,route_id,agency_id\nFF0000,3,7,R7,A\n",
    ),
    (
        "city/trips.txt",
        b"trip_id,route_id,service_id,direction_id,trip_headsign,note\nT1,R7,WK,0,Hill,x\nT2,R7,WK,0,Hill\nN1,R7,WK,0,Hill\n",
    ),
    (
        "city/stop_times.txt",
        b"stop_sequence,trip_id,stop_id,arrival_time,departure_time,pickup_type\n9,T1,S4,08:30:00,08:30:00\n2,T1,S3\n1,T1,S1,08:00:00,08:00:00\n5,T1,S2,08:20:00,08:21:00\n1,T2,S2,08:21:00,,0\n2,T2,S4,,8:40:00,0\n1,N1,S1,25:10:00\n2,N1,S4,25:40:00,25:40:00\n",
    ),
    (
        "city/calendar.txt",
        b"service_id,start_date,end_date,sunday,monday,tuesday,wednesday,thursday,friday,saturday\nWK,20250329,20250331,1,1,1,1,1,1,1\n",
    ),
];

/// A folder of these files.
fn folder(alloc: Global, files: &[(&str, &[u8])]) -> Result<MemoryFiles, AllocError> {
    let mut list = Vec::new(alloc);
    for (path, bytes) in files {
        list.push(file(alloc, path, bytes)?)?;
    }
    Ok(MemoryFiles::new(list, Vec::new(alloc)))
}

/// The plan of these files; any fault is told as want of memory.
fn plan_of(alloc: Global, files: &[(&str, &[u8])]) -> Result<Plan, AllocError> {
    match loaded(alloc, &mut folder(alloc, files)?, "city", ZONE) {
        Ok(plan) => Ok(plan),
        Err(_) => Err(AllocError),
    }
}

/// The places of a trip, as text.
fn places_of(alloc: Global, plan: &Plan, trip: &str) -> Result<String, AllocError> {
    let mut text = String::new(alloc);
    let Some(number) = plan.trip_of(trip) else {
        return Ok(text);
    };
    for place in plan.stop_times(number) {
        let line = format!(in alloc; "{place:?}\n")?;
        text.push_str(line.as_str())?;
    }
    Ok(text)
}

/// What stands under these ids, as text.
fn rows_of(alloc: Global, plan: &Plan) -> Result<String, AllocError> {
    let stops = (plan.stop_of("S1"), plan.stop_of("S3"), plan.stop_of("ST"));
    let routes = (
        plan.route_of("R7"),
        plan.agency_of("A"),
        plan.day_of(20_250_330),
    );
    format!(in alloc; "{:?} {stops:?} {routes:?}", plan.counts())
}

#[test]
fn an_untimed_place_lies_between(rt: HostRuntime) -> Result<(), Fail> {
    let plan = plan_of(rt.alloc(), &PLAIN)?;
    let shown = places_of(rt.alloc(), &plan, "T1")?;
    assert_eq!(rt;
        shown.as_str(),
        "Place { stop: 0, sequence: 1, arrival: 28800, departure: 28800, pickup: 0 }\nPlace { stop: 2, sequence: 2, arrival: 29400, departure: 29400, pickup: 0 }\nPlace { stop: 1, sequence: 5, arrival: 30000, departure: 30060, pickup: 0 }\nPlace { stop: 3, sequence: 9, arrival: 30600, departure: 30600, pickup: 0 }\n"
    );
    Ok(())
}

#[test]
fn places_are_equal(rt: HostRuntime) -> Result<(), Fail> {
    let plain = plan_of(rt.alloc(), &PLAIN)?;
    let changed = plan_of(rt.alloc(), &CHANGED)?;
    for trip in ["T1", "T2", "N1"] {
        let shown = places_of(rt.alloc(), &changed, trip)?;
        assert!(rt; !shown.is_empty());
        assert_eq!(rt;
            shown.as_str(),
            places_of(rt.alloc(), &plain, trip)?.as_str()
        );
    }
    Ok(())
}

#[test]
fn rows_are_equal(rt: HostRuntime) -> Result<(), Fail> {
    let plain = plan_of(rt.alloc(), &PLAIN)?;
    let changed = plan_of(rt.alloc(), &CHANGED)?;
    let shown = rows_of(rt.alloc(), &changed)?;
    assert_eq!(rt; shown.as_str(), rows_of(rt.alloc(), &plain)?.as_str());
    assert_eq!(rt;
        shown.as_str(),
        "Counts { agencies: 1, stops: 5, routes: 1, trips: 3, times: 8, days: 3 } (Some(0), Some(2), Some(4)) (Some(0), Some(0), Some(1))"
    );
    Ok(())
}
