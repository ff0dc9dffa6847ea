//! The small city with rows of frequencies.txt, which say when T2 runs.

use crate::city_files::{AGENCY, CALENDAR, ROUTES, STOP_TIMES, STOPS, TRIPS, ZONE, file, loaded};
use hub_outside::MemoryFiles;
use sched_types::{Place, Plan};
use std::alloc::{AllocError, Global};
use std::test::Fail;

/// When a place is left, in seconds of the service day; 0 if there is none.
fn leaves(place: Option<&Place>) -> u32 {
    match place {
        Some(place) => place.departure,
        None => 0,
    }
}

/// Each trip with when it leaves its first place and its last one.
fn trips_of(alloc: Global, plan: &Plan) -> Result<String, AllocError> {
    let mut text = String::new(alloc);
    for trip in 0..plan.trips() {
        let id = plan.trip(trip).id.as_str();
        let places = plan.stop_times(trip);
        let first = leaves(places.first());
        let last = leaves(places.last());
        let line = format!(in alloc; "{id} {first} {last}; ")?;
        text.push_str(line.as_str())?;
    }
    Ok(text)
}

/// The number of the trip that T2 gives at a start.
fn trip_at(plan: &Plan, start: u32) -> Option<u32> {
    let pattern = plan.pattern_of("T2")?;
    plan.derived(pattern, start)
}

/// The trips of the city, and which of them T2 gives at 09:30:00; or the fault.
fn shown(alloc: Global, rows: &[u8]) -> Result<String, AllocError> {
    let files = vec![in alloc;
        file(alloc, "city/agency.txt", AGENCY)?,
        file(alloc, "city/stops.txt", STOPS)?,
        file(alloc, "city/routes.txt", ROUTES)?,
        file(alloc, "city/trips.txt", TRIPS)?,
        file(alloc, "city/stop_times.txt", STOP_TIMES)?,
        file(alloc, "city/calendar.txt", CALENDAR)?,
        file(alloc, "city/frequencies.txt", rows)?,
    ]?;
    let mut files = MemoryFiles::new(files, Vec::new(alloc));
    match loaded(alloc, &mut files, "city", ZONE) {
        Ok(plan) => {
            let trips = trips_of(alloc, &plan)?;
            let at = trip_at(&plan, 34_200);
            format!(in alloc; "{trips}{at:?}")
        }
        Err(fault) => format!(in alloc; "{fault}"),
    }
}

/// T2 takes 19 minutes: its first place is left at 08:21:00, and its last one at 08:40:00.
#[test]
fn half_hours_take_the_place_of_the_trip(rt: HostRuntime) -> Result<(), Fail> {
    let rows =
        b"trip_id,start_time,end_time,headway_secs,exact_times\nT2,09:00:00,09:31:00,1800,1\n";
    let text = shown(rt.alloc(), rows)?;
    assert_eq!(rt;
        text.as_str(),
        "N1 90600 92400; T1 28800 30600; T2@09:00:00 32400 33540; T2@09:30:00 34200 35340; Some(3)"
    );
    Ok(())
}

#[test]
fn a_row_of_the_same_trips_is_a_duplicate(rt: HostRuntime) -> Result<(), Fail> {
    let rows =
        b"trip_id,start_time,end_time,headway_secs,exact_times\nT2,09:00:00,09:31:00,1800,1\nT2,09:30:00,09:31:00,60,1\n";
    let text = shown(rt.alloc(), rows)?;
    assert_eq!(rt; text.as_str(), "row 3 of frequencies.txt is there twice");
    Ok(())
}

#[test]
fn rows_without_exact_times_give_no_trips(rt: HostRuntime) -> Result<(), Fail> {
    let rows =
        b"trip_id,start_time,end_time,headway_secs,exact_times\nT2,09:00:00,09:31:00,1800,0\nT2,10:00:00,11:00:00,600,\n";
    let text = shown(rt.alloc(), rows)?;
    assert_eq!(rt; text.as_str(), "N1 90600 92400; T1 28800 30600; None");
    Ok(())
}
