//! The folder of a world's timetable (GTFS Schedule Reference).

use crate::world::{DATES, MadePlace, STOPS, TRIPS, World};
use hub_outside::{MemoryFile, MemoryFiles};
use std::alloc::{AllocError, Global};

/// A file of the folder `city`.
fn file(alloc: Global, path: &str, text: &str) -> Result<MemoryFile, AllocError> {
    Ok(MemoryFile {
        path: String::from_str(alloc, path)?,
        bytes: Vec::from_slice(alloc, text.as_bytes())?,
    })
}

/// stops.txt: the stations and the stops, of which one or two lie in P, and one in S.
fn stops(in_station: bool) -> &'static str {
    if in_station {
        "stop_id,parent_station\nS,\nC,S\nA,P\nP,\nB,P\n"
    } else {
        "stop_id,parent_station\nS,\nC,S\nA,P\nP,\nB,\n"
    }
}

/// A time of a day as HH:MM:SS.
pub(crate) fn time(alloc: Global, seconds: u32) -> Result<String, AllocError> {
    let hours = seconds / 3600;
    let minutes = seconds / 60 % 60;
    format!(in alloc; "{hours:02}:{minutes:02}:00")
}

/// The row of a place in stop_times.txt.
fn place_row(alloc: Global, trip: &str, place: MadePlace) -> Result<String, AllocError> {
    let arrival = time(alloc, place.arrival)?;
    let departure = time(alloc, place.departure)?;
    let stop = STOPS.get(place.stop as usize).copied().unwrap_or("");
    let sequence = place.sequence;
    let pickup = place.pickup;
    format!(in alloc; "{trip},{arrival},{departure},{stop},{sequence},{pickup}\n")
}

/// stop_times.txt, the places of each trip in order.
fn stop_times(alloc: Global, world: &World) -> Result<String, AllocError> {
    let mut text = String::from_str(
        alloc,
        "trip_id,arrival_time,departure_time,stop_id,stop_sequence,pickup_type\n",
    )?;
    for (trip, id) in world.trips.iter().zip(TRIPS) {
        for place in &trip.places {
            text.push_str(place_row(alloc, id, *place)?.as_str())?;
        }
    }
    Ok(text)
}

/// The rows of trips.txt: each trip has a service of its own, with the same id.
const TRIP_ROWS: [&str; 3] = ["R7,T0,T0,Hill,0\n", "R7,T1,T1,Hill,0\n", "R8,T2,T2,Hill,\n"];

/// trips.txt.
fn trips(alloc: Global, world: &World) -> Result<String, AllocError> {
    let mut text = String::from_str(
        alloc,
        "route_id,service_id,trip_id,trip_headsign,direction_id\n",
    )?;
    for (_, row) in world.trips.iter().zip(TRIP_ROWS) {
        text.push_str(row)?;
    }
    Ok(text)
}

/// calendar_dates.txt: the days on which each service is active.
fn days(alloc: Global, world: &World) -> Result<String, AllocError> {
    let mut text = String::from_str(alloc, "service_id,date,exception_type\n")?;
    for (trip, id) in world.trips.iter().zip(TRIPS) {
        for (runs, date) in trip.runs.iter().zip(DATES) {
            if *runs {
                text.push_str(format!(in alloc; "{id},{date},1\n")?.as_str())?;
            }
        }
    }
    Ok(text)
}

/// The folder `city` with the timetable of a world.
pub(crate) fn folder(alloc: Global, world: &World) -> Result<MemoryFiles, AllocError> {
    let files = vec![in alloc;
        file(
            alloc,
            "city/agency.txt",
            "agency_id,agency_name\nA,City\nB,Tram\n"
        )?,
        file(alloc, "city/stops.txt", stops(world.in_station))?,
        file(
            alloc,
            "city/routes.txt",
            "route_id,agency_id,route_short_name,route_type\nR7,A,7,3\nR8,B,8,0\n"
        )?,
        file(alloc, "city/trips.txt", trips(alloc, world)?.as_str())?,
        file(
            alloc,
            "city/stop_times.txt",
            stop_times(alloc, world)?.as_str()
        )?,
        file(
            alloc,
            "city/calendar_dates.txt",
            days(alloc, world)?.as_str()
        )?,
    ]?;
    Ok(MemoryFiles::new(files, Vec::new(alloc)))
}
